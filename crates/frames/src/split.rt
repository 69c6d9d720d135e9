// A file taken apart into its sections, with every frame and every kind checked.
ghost use Rattle.std.specs.Prelude.{◌≡◌, ◌+◌, ◌-◌, ◌<◌, ◌≤◌, length, Some, None, MatchResult};
ghost use Rattle.refusal.specs.Due.{Decided};
ghost use Rattle.frames.specs.Little.{le4};
ghost use Rattle.frames.specs.Faults.{told};
ghost use Rattle.frames.specs.Checks.{past, payload, started, framed, others, kinds, laid};
ghost use Rattle.frames.specs.Shown.{Shows, Holds, Split};

use crate::format::Format;
use crate::layout::{Layout, Payload};
use crate::number::{pair, word};
use crate::section::{BODY, HEADER, Section};
use refusal::reason::Refusal;
use refusal::refused::Refused;

// A section by its kind.
pub fn section_of(kind: u32, payload: &[u8]) -> Section<'_>
    ensures { Shows result kind payload.now }
{
    match kind {
        HEADER => Section::Header(payload),
        BODY => Section::Body(payload),
        _ => Section::Other {
            kind,
            bytes: payload,
        },
    }
}

// The section at a place, and the place after it; refused where its head or its payload leaves the file.
pub fn section_at(bytes: &[u8], at: usize) -> Result<(Section<'_>, usize), Refused>
    ensures { MatchResult result (λ s. (past bytes.now at ≤ length bytes.now) × Shows s.0 (le4 bytes.now at) (payload bytes.now at) × (s.1 ≡ past bytes.now at)) (λ e. (length bytes.now < past bytes.now at) × (told e ≡ Some (8, at))) }
{
    let head = bytes.get(at..).ok_or(Refusal::BadLayout.at(at))?;
    let (kind, size, rest) = pair(head).ok_or(Refusal::BadLayout.at(at))?;
    if size > rest.len() as u64 {
        return Err(Refusal::BadLayout.at(at));
    }
    let size = size as usize;
    Ok((section_of(kind, &rest[..size]), at + 12 + size))
}

// The file's start, its format and its section count.
pub fn start(bytes: &[u8], format: Format) -> Result<u32, Refused>
    ensures { Decided (started format.magic format.version bytes.now) result (λ n. (12 ≤ length bytes.now) × (n ≡ le4 bytes.now 8) × (2 ≤ n)) (Unit {0}) }
{
    let (magic, rest) = word(bytes).ok_or(Refusal::BadLayout.at(0))?;
    if magic != format.magic {
        return Err(Refusal::BadLayout.at(0));
    }
    let (version, rest) = word(rest).ok_or(Refusal::BadLayout.at(4))?;
    if version != format.version {
        return Err(Refusal::BadLayout.at(4));
    }
    let (count, _) = word(rest).ok_or(Refusal::BadLayout.at(8))?;
    if count < 2 {
        return Err(Refusal::BadLayout.at(8));
    }
    Ok(count)
}

// The frames of so many sections, and the file's end behind them.
fn check_frames(bytes: &[u8], count: u32) -> Result<(), Refused>
    requires { 12 ≤ length bytes.now }
    ensures { Decided (framed bytes.now count 12) result (λ _. Unit {0}) (Unit {0}) }
{
    let mut at = 12;
    for _ in 0..count {
        (_, at) = section_at(bytes, at)?;
    }
    if at != bytes.len() {
        return Err(Refusal::BadLayout.at(at));
    }
    Ok(())
}

// Sections of neither of the two kinds that a reader looks for.
fn check_others(bytes: &[u8], count: u32, from: usize) -> Result<(), Refused>
    requires { framed bytes.now count from ≡ None }
    ensures { Decided (others bytes.now count from) result (λ _. Unit {0}) (Unit {0}) }
{
    let mut at = from;
    for _ in 0..count {
        let (section, next) = section_at(bytes, at)?;
        let Section::Other { .. } = section else {
            return Err(Refusal::BadLayout.at(at));
        };
        at = next;
    }
    Ok(())
}

// The header first, the body second, then sections of other kinds.
fn check_kinds(bytes: &[u8], count: u32) -> Result<Layout<'_>, Refused>
    requires { (framed bytes.now count 12 ≡ None) × ((2 ≤ count) × (count ≡ le4 bytes.now 8)) }
    ensures { Decided (kinds bytes.now) result (λ s. Holds bytes.now s) (Unit {0}) }
{
    let (first, second_at) = section_at(bytes, 12)?;
    let Section::Header(header) = first else {
        return Err(Refusal::BadLayout.at(12));
    };
    let (second, third_at) = section_at(bytes, second_at)?;
    let Section::Body(body) = second else {
        return Err(Refusal::BadLayout.at(second_at));
    };
    check_others(bytes, count - 2, third_at)?;
    Ok(Layout {
        header: Payload {
            bytes: header,
            at: 24,
        },
        body: Payload {
            bytes: body,
            at: second_at + 12,
        },
    })
}

// All checks in their order.
fn checked(bytes: &[u8], format: Format) -> Result<Layout<'_>, Refused>
    ensures { Decided (laid format.magic format.version bytes.now) result (λ s. Holds bytes.now s) (Unit {0}) }
{
    let count = start(bytes, format)?;
    check_frames(bytes, count)?;
    check_kinds(bytes, count)
}

// The file of this format, taken apart: `verdict` by the order of the checks, `sections` by what a file is.
pub fn split(bytes: &[u8], format: Format) -> Result<Layout<'_>, Refused>
    ensures verdict { Decided (laid format.magic format.version bytes.now) result (λ s. Holds bytes.now s) (Unit {0}) }
    ensures sections { Split format.magic format.version bytes.now result }
{
    checked(bytes, format)
}

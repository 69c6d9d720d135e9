// The checks of the header and of the row lists.
ghost use Rattle.std.specs.Prelude.{◌≡◌, ℕ, ◌+◌, ◌*◌, ◌^◌, ◌<◌, ◌≤◌, List, length, Some, MatchOption, MatchResult};
ghost use Rattle.refusal.specs.Due.{Decided};
ghost use Rattle.frames.specs.Little.{le4, part};
ghost use Rattle.frames.specs.Faults.{told};
ghost use Rattle.constraints.specs.Opened.{headed, items, beyond, lists};
ghost use Rattle.constraints.specs.Reader.{Tells, list_part};

use crate::header::Header;
use crate::item::ITEM_SIZE;
use crate::item::reader::ItemReader;
use frames::layout::Payload;
use frames::number::{pair, word};
use refusal::reason::Refusal;
use refusal::refused::Refused;

// The numbers of a header; None unless it has 40 bytes and field size 8.
fn numbers(payload: &[u8]) -> Option<Header>
    ensures { MatchOption result (¬ ((length payload.now ≡ 40) × (le4 payload.now 0 ≡ 8))) (λ h. (length payload.now ≡ 40) × (le4 payload.now 0 ≡ 8) × Tells h payload.now) }
{
    let (size, prime, rest) = pair(payload)?;
    let (wires, rest) = word(rest)?;
    let (outputs, rest) = word(rest)?;
    let (inputs, rest) = word(rest)?;
    let (private, labels, rest) = pair(rest)?;
    let (rows, rest) = word(rest)?;
    if size != 8 || !rest.is_empty() {
        return None;
    }
    Some(Header {
        prime,
        wires,
        outputs,
        inputs,
        private,
        labels,
        rows,
    })
}

// The header of a file over this prime.
pub(crate) fn check_header(payload: Payload<'_>, prime: u64) -> Result<Header, Refused>
    requires { payload.at + length payload.bytes.now < 2 ^ 63 }
    ensures { Decided (headed payload.entry.bytes.now payload.entry.at prime) result (λ h. Tells h payload.entry.bytes.now × (h.prime ≡ prime)) (Unit {0}) }
{
    let header = numbers(payload.bytes).ok_or(Refusal::BadLayout.at(payload.at))?;
    if header.prime != prime {
        return Err(Refusal::OtherPrime.at(payload.at + 4));
    }
    if header.public() + header.private as u64 > header.wires as u64 {
        return Err(Refusal::BadLayout.at(payload.at + 12));
    }
    Ok(header)
}

// The items of a list, which begin at a place of the file: each wire and each coefficient below its bound.
fn check_items(list: &[u8], from: usize, header: Header) -> Result<(), Refused>
    requires { from + length list.now < 2 ^ 63 }
    ensures { (xs : List ℕ) (n : ℕ) → length list.now ≡ 12 * n → list.now ≡ part xs from (12 * n) → Decided (items xs header.wires header.prime n from) result (λ _. Unit {0}) (Unit {0}) }
{
    let mut at = from;
    for item in ItemReader::new(list) {
        if item.wire >= header.wires {
            return Err(Refusal::TooLarge.at(at));
        }
        if item.coefficient >= header.prime {
            return Err(Refusal::TooLarge.at(at + 4));
        }
        at += ITEM_SIZE;
    }
    Ok(())
}

// The items of the list at a place, and the place after the list, which may not leave its section.
pub(crate) fn list_at(bytes: &[u8], at: usize, stop: usize) -> Result<(&[u8], usize), Refused>
    requires { (at ≤ stop) × (stop ≤ length bytes.now) }
    ensures { MatchResult result (λ q. (q.0.now ≡ list_part bytes.now at) × (q.1 ≡ beyond bytes.now at) × (q.1 ≤ stop)) (λ e. (stop < beyond bytes.now at) × (told e ≡ Some (8, at))) }
{
    let (count, rest) = word(&bytes[at..stop]).ok_or(Refusal::BadLayout.at(at))?;
    let size = ITEM_SIZE * count as usize;
    let list = rest.get(..size).ok_or(Refusal::BadLayout.at(at))?;
    Ok((list, at + 4 + size))
}

// The three lists of every row from a place on, up to where their section ends.
pub(crate) fn check_lists(
    bytes: &[u8],
    from: usize,
    stop: usize,
    header: Header,
) -> Result<(), Refused>
    requires { (from ≤ stop) × (stop ≤ length bytes.now) }
    ensures { Decided (lists bytes.now header.wires header.prime stop (3 * header.rows) from) result (λ _. Unit {0}) (Unit {0}) }
{
    let mut at = from;
    for _ in 0..3 * header.rows as u64 {
        let (list, after) = list_at(bytes, at, stop)?;
        check_items(list, at + 4, header)?;
        at = after;
    }
    if at != stop {
        return Err(Refusal::BadLayout.at(at));
    }
    Ok(())
}

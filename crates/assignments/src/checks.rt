// The checks of an assignment file. Nothing here needs the field's elements.
ghost use Rattle.std.specs.Prelude.{◌≡◌, ℕ, ◌+◌, ◌*◌, ◌^◌, ◌<◌, ◌≤◌, List, length, None, MatchOption};
ghost use Rattle.refusal.specs.Due.{Decided};
ghost use Rattle.frames.specs.Little.{le4, le8, part};
ghost use Rattle.assignments.specs.Assigned.{counted, valued, values_at, content};

use frames::format::ASSIGNMENTS;
use frames::layout::{Layout, Payload};
use frames::number::{long, pair, word};
use frames::split::split;
use refusal::reason::Refusal;
use refusal::refused::Refused;

const VALUE_SIZE: usize = 8;

// The prime and the count of a header; None unless it has 16 bytes and field size 8.
fn numbers(header: &[u8]) -> Option<(u64, u32)>
    ensures { MatchOption result (¬ ((length header.now ≡ 16) × (le4 header.now 0 ≡ 8))) (λ q. (length header.now ≡ 16) × (le4 header.now 0 ≡ 8) × (q.0 ≡ le8 header.now 4) × (q.1 ≡ le4 header.now 12)) }
{
    let (size, prime, rest) = pair(header)?;
    let (count, rest) = word(rest)?;
    if size != 8 || !rest.is_empty() {
        return None;
    }
    Some((prime, count))
}

// The header, the values' size, the prime and the count.
fn check_header(layout: Layout<'_>, prime: u64, places: usize) -> Result<(), Refused>
    requires { layout.header.at + length layout.header.bytes.now < 2 ^ 63 }
    ensures { Decided (counted layout.entry.header.bytes.now layout.entry.header.at (length layout.entry.body.bytes.now) layout.entry.body.at prime places) result (λ _. length layout.entry.body.bytes.now ≡ places * 8) (Unit {0}) }
{
    let (found, count) = numbers(layout.header.bytes).ok_or(Refusal::BadLayout.at(
        layout.header.at,
    ))?;
    let count = count as usize;
    if layout.body.bytes.len() != count * VALUE_SIZE {
        return Err(Refusal::BadLayout.at(layout.body.at));
    }
    if found != prime {
        return Err(Refusal::OtherPrime.at(layout.header.at + 4));
    }
    if count != places {
        return Err(Refusal::WrongCount.at(layout.header.at + 12));
    }
    Ok(())
}

// Each value below the prime.
fn check_values(body: Payload<'_>, prime: u64) -> Result<(), Refused>
    requires { body.at + length body.bytes.now < 2 ^ 63 }
    ensures { (xs : List ℕ) (n : ℕ) → length body.entry.bytes.now ≡ n * 8 → body.entry.bytes.now ≡ part xs body.entry.at (n * 8) → Decided (valued xs prime n body.entry.at) result (λ _. Unit {0}) (Unit {0}) }
{
    let mut at = body.at;
    let mut rest = body.bytes;
    // taken off the front, each with what follows it; going over arrays of 8 bytes is still to be tried
    while let Some((value, after)) = long(rest) {
        if value >= prime {
            return Err(Refusal::TooLarge.at(at));
        }
        at += VALUE_SIZE;
        rest = after;
    }
    Ok(())
}

// All checks of the bytes in their order, for a table of so many places; the answer is the bytes of the values.
pub(crate) fn checked(bytes: &[u8], prime: u64, places: usize) -> Result<&[u8], Refused>
    requires { 1 ≤ places }
    ensures { Decided (content bytes.now prime places) result (λ b. (length b.now ≡ places * 8) × (b.now ≡ part bytes.now (values_at bytes.now) (places * 8)) × (valued bytes.now prime places (values_at bytes.now) ≡ None)) (Unit {0}) }
{
    let layout = split(bytes, ASSIGNMENTS)?;
    check_header(layout, prime, places)?;
    let body = layout.body;
    // there is a first value, since there is a place for it
    let (first, _) = long(body.bytes).unwrap();
    if first != 1 {
        return Err(Refusal::TooLarge.at(body.at));
    }
    check_values(body, prime)?;
    Ok(body.bytes)
}

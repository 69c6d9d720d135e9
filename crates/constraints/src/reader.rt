// A constraint file, opened: its header's numbers, and its rows in order.
ghost use Rattle.std.specs.Prelude.{◌≡◌, ◌<◌, ◌≤◌, length, MatchOption};
ghost use Rattle.std.specs.Iterator.{at_most};
ghost use Rattle.constraints.specs.Reader.{Checked, ReadsCircuit, after_row, Parts, again, HandsRow};

use crate::header::Header;
use crate::row::Row;
use crate::rows::{check_header, check_lists, list_at};
use frames::format::CONSTRAINTS;
use frames::split::split;
use refusal::refused::Refused;

// A reader promises nothing by itself: `next` looks where its rows end.
#[derive(Drop)]
pub struct RowReader<'a> {
    bytes: &'a [u8],
    header: Header,
    // the place of the prime
    prime_at: usize,
    // where the first row begins, and where the rows end
    first: usize,
    stop: usize,
    // the next row, and how many are left
    at: usize,
    left: u32,
}

// All checks in their order.
fn checked(bytes: &[u8], prime: u64) -> Result<RowReader<'_>, Refused>
    ensures { Checked bytes.now prime result }
{
    let layout = split(bytes, CONSTRAINTS)?;
    let header = check_header(layout.header, prime)?;
    let first = layout.body.at;
    let stop = first + layout.body.bytes.len();
    check_lists(bytes, first, stop, header)?;
    Ok(RowReader {
        bytes,
        header,
        prime_at: layout.header.at + 4,
        first,
        stop,
        at: first,
        left: header.rows,
    })
}

// Opens a constraint file over this prime: `verdict` by the order of the checks, `circuit` by what such a file is.
pub fn open<'a>(bytes: &'a [u8], prime: u64) -> Result<RowReader<'a>, Refused>
    ensures verdict { Checked bytes.now prime result }
    ensures circuit { ReadsCircuit bytes.now prime result }
{
    checked(bytes, prime)
}

// The row at a place, and the place after it.
fn row_at(bytes: &[u8], at: usize, stop: usize) -> Option<(Row<'_>, usize)>
    requires { (at ≤ stop) × (stop ≤ length bytes.now) }
    ensures { MatchOption result (stop < after_row bytes.now at) (λ q. Parts bytes.now at q.0 × (q.1 ≡ after_row bytes.now at) × (q.1 ≤ stop)) }
{
    let (a, second) = list_at(bytes, at, stop).ok()?;
    let (b, third) = list_at(bytes, second, stop).ok()?;
    let (c, after) = list_at(bytes, third, stop).ok()?;
    Some((Row { a, b, c }, after))
}

impl<'a> Iterator for RowReader<'a> {
    type Item = Row<'a>;

    ghost next_gives = { HandsRow };

    ghost remaining = { λ s. at_most s.left };

    fn next(&mut self) -> Option<Row<'a>> {
        if self.left == 0 || self.stop > self.bytes.len() || self.at > self.stop {
            return None;
        }
        let (row, after) = row_at(self.bytes, self.at, self.stop)?;
        self.at = after;
        self.left -= 1;
        Some(row)
    }
}

impl<'a> RowReader<'a> {
    // The reader before its first row again, whatever rows were taken.
    pub fn restart(self) -> RowReader<'a>
        ensures { result ≡ again self.entry }
    {
        RowReader {
            at: self.first,
            left: self.header.rows,
            ..self
        }
    }

    // Gives the reader up.
    pub fn end(self) {}

    // All numbers of the header.
    pub fn header(&self) -> Header
        ensures { result ≡ self.now.header }
    {
        self.header
    }

    // The place of the prime in the file.
    pub fn prime_at(&self) -> usize
        ensures { result ≡ self.now.prime_at }
    {
        self.prime_at
    }
}

// How other crates read rows: by a loop over a reader, by rows that outlive it, and before the file's bytes are written to again.
#![tactic(auto)]

ghost use Rattle.std.specs.Prelude.{◌≡◌, List, length, IfSome, MatchOption, slice_set};
ghost use Rattle.constraints.specs.Circuit.{Line, Circuit, Encodes};
ghost use Rattle.constraints.specs.Reader.{Ahead, First};

use constraints::reader::{RowReader, open};
use constraints::row::Row;

// How many rows a reader has still to hand out. It is given up.
pub fn count(mut reader: RowReader<'_>) -> u32
    ensures { (ls : List Line) → Ahead reader.entry ls → result ≡ length ls }
{
    let mut n = 0;
    // a `for` would take the reader, and `end` is what is shown here
    while let Some(_) = reader.next() {
        n += 1;
    }
    reader.end();
    n
}

// The first row of a file over 97, after its reader was given up.
pub fn first(bytes: &[u8]) -> Option<Row<'_>>
    ensures { IfSome result (λ w. (c : Circuit) → Encodes bytes.now 97 c → First c.rows w) }
{
    let mut reader = open(bytes, 97).ok()?;
    let row = reader.next();
    reader.end();
    row
}

// How many rows a file over 97 has. Then its first byte is cleared, so that it is not opened a second time; any other file is left alone.
pub fn count_once(bytes: &mut [u8]) -> Option<u32>
    ensures { MatchOption result (bytes.new ≡ bytes.old) (λ n. (bytes.new ≡ slice_set bytes.old 0 0) × ((c : Circuit) → Encodes bytes.old 97 c → n ≡ length c.rows)) }
{
    if bytes.is_empty() {
        return None;
    }
    let reader = open(bytes, 97).ok()?;
    let n = count(reader);
    bytes[0] = 0;
    Some(n)
}

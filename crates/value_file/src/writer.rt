// The values of every wire of a square program as an assignment file.
ghost use Rattle.value_file.specs.Outcomes.{Written, Readable, ReadBack};

use crate::bytes::{VALUES_AT, are_plain, write};
use assignments::reader::read;
use field::field::Field;
use field::file_field::FileField;
use refusal::reason::Refusal;
use refusal::refused::Refused;
use sheet::head::Head;

// Writes the values as an assignment file and answers its length; nothing behind it is changed. A refusal changes nothing.
// `written` says which bytes, `reads` that they are an assignment file of these values.
pub fn write_values<F: FileField>(
    head: &Head,
    extended: &[F],
    out: &mut [u8],
) -> Result<usize, Refused>
    ensures written { Written F.ops F.prime head.now extended.now out.old result out.new }
    ensures reads { Readable F.ops F.prime head.now extended.now result out.new }
{
    if extended.len() != head.columns() {
        return Err(Refusal::WrongLength.at(0));
    }
    if !extended[0].same(F::one()) {
        return Err(Refusal::Inconsistent.at(0));
    }
    if !are_plain(extended) {
        return Err(Refusal::NotANumber.at(0));
    }
    let size = VALUES_AT + 8 * extended.len();
    if out.len() < size {
        return Err(Refusal::BufferTooShort.at(0));
    }
    write(extended, F::prime(), out);
    Ok(size)
}

// The round trip: writes the file, and reads it back into a table with a place for each value.
pub fn read_back<F: FileField>(
    head: &Head,
    extended: &[F],
    out: &mut [u8],
    table: &mut [F],
) -> Result<(), Refused>
    ensures { ReadBack F.ops F.prime head.now extended.now out.old table.old result out.new table.new }
{
    if table.len() != head.columns() {
        return Err(Refusal::WrongLength.at(0));
    }
    let size = write_values(head, extended, out)?;
    read(&out[0..size], table)
}

// The square program of a sheet as a constraint file.
ghost use Rattle.square_file.specs.Outcomes.{Written, Readable};

use crate::program::Program;
use field::field::Field;
use field::file_field::FileField;
use refusal::reason::Refusal;
use refusal::refused::Refused;
use sheet::entry::Entry;
use sheet::head::Head;
use sheet::head::calls::TABLE_SIZE;
use square::rows::are_inside;

// Writes the square program as a constraint file and answers its length; nothing behind it is changed. A refusal changes nothing.
// `written` says which bytes, `readable` that they are a constraint file of the square program.
pub fn write_program<F: FileField>(
    head: &Head,
    entries: &[Entry<F>],
    out: &mut [u8],
) -> Result<usize, Refused>
    ensures written { Written F.ops F.prime head.now entries.now out.old result out.new }
    ensures readable { Readable F.ops F.prime head.now entries.now result out.new }
{
    if entries.len() != TABLE_SIZE {
        return Err(Refusal::WrongLength.at(0));
    }
    let used = &entries[0..head.used()];
    if !are_inside(head, used) {
        return Err(Refusal::Inconsistent.at(0));
    }
    let program = Program { head, used };
    let size = program.rows_size().ok_or(Refusal::NotANumber.at(0))?;
    // the start, the three heads and the header take 88 bytes
    let length = 88 + size + 8 * head.columns();
    if out.len() < length {
        return Err(Refusal::BufferTooShort.at(0));
    }
    program.write(out, size);
    Ok(length)
}

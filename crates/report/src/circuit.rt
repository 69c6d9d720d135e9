// What is said of an opened circuit with a witness, at any field.
ghost use Rattle.std.specs.Prelude.{◌≡◌, ◌≤◌, min, length};
ghost use Rattle.writing.specs.Written.{rest};
ghost use Rattle.report.specs.Outcome.{TellsCircuit};
ghost use Rattle.report.specs.Means.{text_room};

use crate::fields::TextField;
use crate::survey::tell_sheet;
use constraints::reader::RowReader;
use field::field::Field;
use field::file_field::FileField;
use refusal::refused::Refused;
use sheet::entry::Entry;
use sheet::head::calls::TABLE_SIZE;
use solving::fill::{WIRES, fill};
use writing::writer::Writer;

// How many bytes a file may have.
pub(crate) const LONGEST: usize = 65536;

// The text of a circuit with a witness, unless one of the files is refused. The value table has a place for each wire, as far as a sheet
// can have so many. The tables are parameters, as a sheet's buffers are.
fn tell_filled<F: TextField>(
    reader: RowReader<'_>,
    witness: &[u8],
    entries: &mut [Entry<F>],
    values: &mut [F],
    out: &mut Writer<'_>,
) -> Result<(), Refused>
    requires entries { length entries.old ≡ 2048 }
    requires values { length values.old ≡ min reader.header.wires 2048 }
    requires room { text_room ≤ length (rest out.old) }
    ensures { TellsCircuit F.ops F.coordinates F.prime F.DOUBLINGS reader.entry witness.now out.old result out.new }
{
    let head = fill(reader, witness, LONGEST, entries, values)?;
    tell_sheet(&head, entries, values, out);
    Ok(())
}

// The same, with tables of the largest lengths.
pub(crate) fn tell_circuit<F: TextField>(
    reader: RowReader<'_>,
    witness: &[u8],
    out: &mut Writer<'_>,
) -> Result<(), Refused>
    requires { text_room ≤ length (rest out.old) }
    ensures { TellsCircuit F.ops F.coordinates F.prime F.DOUBLINGS reader.entry witness.now out.old result out.new }
{
    let mut entries = [Entry::<F>::blank(); TABLE_SIZE];
    let mut values = [F::zero(); WIRES];
    // a circuit with more wires than that is refused, whatever the length
    let places = (reader.header().wires as usize).min(WIRES);
    let values = &mut values[..places];
    tell_filled(reader, witness, &mut entries, values, out)
}

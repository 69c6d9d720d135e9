// A sheet from its two files.
ghost use Rattle.solving.specs.Taken.{Taken, TakesFiles};

use assignments::reader::read;
use constraints::reader::RowReader;
use field::file_field::FileField;
use loading::load::load;
use refusal::reason::Refusal;
use refusal::refused::Refused;
use sheet::entry::Entry;
use sheet::head::Head;

// The most wires of a sheet.
pub const WIRES: usize = 2048;

// Loads an opened constraint file, then reads an assignment file of at most so many bytes into the sheet's values. The two tables are
// working buffers where this is refused. `reader` holds of any reader, `circuit` of one that stands over the rows of a circuit.
pub fn fill<F: FileField>(
    reader: RowReader<'_>,
    witness: &[u8],
    most: usize,
    entries: &mut [Entry<F>],
    values: &mut [F],
) -> Result<Head, Refused>
    ensures reader { Taken F.ops F.prime reader.entry witness.now most entries.old values.old result entries.new values.new }
    ensures circuit { TakesFiles F.ops F.prime reader.entry witness.now most entries.old values.old result entries.new values.new }
{
    let head = load(reader, entries, values)?;
    if witness.len() > most {
        return Err(Refusal::WrongLength.at(0));
    }
    read(witness, values)?;
    Ok(head)
}

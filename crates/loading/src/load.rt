// A sheet from an opened constraint file.
ghost use Rattle.std.specs.Prelude.{◌≡◌, ◌+◌, None};
ghost use Rattle.refusal.specs.Due.{Decided};
ghost use Rattle.sheet.specs.Outcomes.{counted};
ghost use Rattle.loading.specs.Loaded.{file_shape, numbers_due, Loaded, LoadsCircuit};

use crate::rows::{count_items, enter_rows};
use constraints::header::Header;
use constraints::reader::RowReader;
use field::field::Field;
use field::file_field::FileField;
use refusal::reason::Refusal;
use refusal::refused::Refused;
use sheet::counts::Counts;
use sheet::entry::Entry;
use sheet::head::Head;
use sheet::head::calls::{TABLE_SIZE, make, plan};

// All checks but the count of items: the prime, the sheet's numbers and the lengths of the tables. The answer is those numbers.
fn check_numbers<F: FileField>(
    header: Header,
    prime_at: usize,
    entries: usize,
    values: usize,
) -> Result<Counts, Refused>
    ensures { Decided (numbers_due F.ops F.prime header.prime prime_at (file_shape header) entries values None) result (λ n. counted n ≡ file_shape header) (Unit {0}) }
{
    if header.prime != F::prime() {
        return Err(Refusal::OtherPrime.at(prime_at));
    }
    let publics = u32::try_from(header.public()).map_err(|_| Refusal::OutOfLimits.at(0))?;
    let counts = Counts {
        wires: header.wires,
        publics,
        rows: header.rows,
    };
    plan::<F>(counts)?;
    if values != header.wires as usize || entries != TABLE_SIZE {
        return Err(Refusal::WrongLength.at(0));
    }
    Ok(counts)
}

// All checks, then make, then the rows.
fn loaded<F: FileField>(
    reader: RowReader<'_>,
    entries: &mut [Entry<F>],
    values: &mut [F],
) -> Result<Head, Refused>
    ensures { Loaded F.ops F.prime reader.entry entries.old values.old result entries.new values.new }
{
    let header = reader.header();
    let prime_at = reader.prime_at();
    let counts = check_numbers::<F>(header, prime_at, entries.len(), values.len())?;
    let mut reader = reader.restart();
    if count_items(&mut reader) > TABLE_SIZE {
        return Err(Refusal::TableFull.at(0));
    }
    let mut head = make(counts, values)?;
    enter_rows(&mut head, entries, reader.restart());
    Ok(head)
}

// Makes a sheet of an opened file's numbers and enters its every row, whatever rows were taken; the reader is given up. A refused loading
// changes nothing. `any` holds of any reader, `circuit` of one that stands over the rows of a circuit.
pub fn load<F: FileField>(
    reader: RowReader<'_>,
    entries: &mut [Entry<F>],
    values: &mut [F],
) -> Result<Head, Refused>
    ensures any { Loaded F.ops F.prime reader.entry entries.old values.old result entries.new values.new }
    ensures circuit { LoadsCircuit F.ops F.prime reader.entry entries.old values.old result entries.new values.new }
{
    loaded(reader, entries, values)
}

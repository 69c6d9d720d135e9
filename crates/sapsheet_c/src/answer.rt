// The answer over one field. Its tables and buffers stand on the stack, with the largest lengths: 2048 entries, 2048 wires, n = 2048 and
// M = 2048 + 2 · 256 + 512, so that M + 4 n is 11264.
ghost use Rattle.std.specs.Prelude.{◌≡◌, ◌+◌, ◌-◌, ◌*◌, min, length};
ghost use Rattle.sapsheet_c.specs.Parts.{AnswersSheet, AnswersReader};

use crate::fields::PrimeField;
use crate::numbers::write_numbers;
use constraints::reader::RowReader;
use field::field::Field;
use field::file_field::FileField;
use refusal::reason::Refusal;
use refusal::refused::Refused;
use sheet::entry::Entry;
use sheet::head::Head;
use sheet::head::calls::TABLE_SIZE;
use solving::fill::{WIRES, fill};
use square::quotient::quotient;
use writing::writer::Writer;

// The quotient is made in a buffer of its own, so that nothing is written where a row fails. The buffers are parameters, since a proof
// names a lent slice by its parameter.
fn answer_within<F: PrimeField>(
    head: &Head,
    entries: &[Entry<F>],
    values: &[F],
    divided: &mut [F],
    work: &mut [F],
    answer: &mut [u8],
) -> Result<(), Refused>
    requires divided { length divided.old ≡ head.now.n - 1 }
    requires work { length work.old ≡ head.now.columns + 4 * head.now.n }
    ensures { AnswersSheet F.ops F.prime head.now entries.now values.now answer.old result answer.new }
{
    if answer.len() < 8 * divided.len() {
        return Err(Refusal::BufferTooShort.at(0));
    }
    quotient(head, entries, values, divided, work)?;
    write_numbers(divided, &mut Writer::new(answer));
    Ok(())
}

fn answer_sheet<F: PrimeField>(
    head: &Head,
    entries: &[Entry<F>],
    values: &[F],
    answer: &mut [u8],
) -> Result<(), Refused>
    ensures { AnswersSheet F.ops F.prime head.now entries.now values.now answer.old result answer.new }
{
    let mut divided = [F::zero(); 2047];
    let mut work = [F::zero(); 11264];
    let n = head.n();
    let divided = &mut divided[..n - 1];
    let work = &mut work[..head.columns() + 4 * n];
    answer_within(head, entries, values, divided, work, answer)
}

// An opened constraint file with the bytes of an assignment file, which may be of any length.
fn answer_filled<F: PrimeField>(
    reader: RowReader<'_>,
    witness: &[u8],
    entries: &mut [Entry<F>],
    values: &mut [F],
    answer: &mut [u8],
) -> Result<(), Refused>
    requires entries { length entries.old ≡ 2048 }
    requires values { length values.old ≡ min reader.header.wires 2048 }
    ensures { AnswersReader F.ops F.prime reader.entry witness.now answer.old result answer.new }
{
    let head = fill(reader, witness, witness.len(), entries, values)?;
    answer_sheet(&head, entries, values, answer)
}

// The value table has a place for each wire; more wires than a sheet can have are refused before its length is looked at.
pub(crate) fn answer_reader<F: PrimeField>(
    reader: RowReader<'_>,
    witness: &[u8],
    answer: &mut [u8],
) -> Result<(), Refused>
    ensures { AnswersReader F.ops F.prime reader.entry witness.now answer.old result answer.new }
{
    let mut entries = [Entry::<F>::blank(); TABLE_SIZE];
    let mut values = [F::zero(); WIRES];
    let places = (reader.header().wires as usize).min(WIRES);
    let values = &mut values[..places];
    answer_filled(reader, witness, &mut entries, values, answer)
}

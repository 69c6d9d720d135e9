// One product row, for whoever wants to see why it holds or fails.
ghost use Rattle.std.specs.Prelude.{◌≡◌, length};
ghost use Rattle.field.specs.Operations.{decided};
ghost use Rattle.sheet.specs.Outcomes.{shape_of};
ghost use Rattle.square.specs.Outcomes.{Summed};

use crate::consistent::ConsistentSheet;
use crate::row_sums::RowSums;
use field::field::Field;
use refusal::reason::Refusal;
use refusal::refused::Refused;
use sheet::entry::Entry;
use sheet::head::Head;
use sheet::head::calls::TABLE_SIZE;

impl<F: Field> RowSums<F> {
    // Whether the A-sum times the B-sum is the C-sum.
    pub fn hold(self) -> bool
        ensures { result ≡ decided (F.ops.same (F.ops.mul self.a self.b) self.c) }
    {
        self.a.mul(self.b).same(self.c)
    }
}

// The three sums of a row at the sheet's values.
pub fn sums<F: Field>(
    head: &Head,
    entries: &[Entry<F>],
    values: &[F],
    row: u32,
) -> Result<RowSums<F>, Refused>
    ensures { Summed F.ops head.now entries.now values.now row result }
{
    if entries.len() != TABLE_SIZE || values.len() != head.wires() {
        return Err(Refusal::WrongLength.at(0));
    }
    if row as usize >= head.rows() {
        return Err(Refusal::OutOfRange.at(0));
    }
    let sheet = ConsistentSheet::new(head, &entries[..head.used()], values)?;
    Ok(sheet.sums_of_row(row as usize))
}

// The values of every wire of the square program.
ghost use Rattle.std.specs.Prelude.{◌≡◌, ◌<◌, length};
ghost use Rattle.transform.specs.Polynomial.{coefficient};
ghost use Rattle.sheet.specs.Outcomes.{shape_of};
ghost use Rattle.square.specs.Rows.{position};
ghost use Rattle.square.specs.Program.{square, extended_at, extended};
ghost use Rattle.square.specs.Outcomes.{Extended};

use crate::consistent::ConsistentSheet;
use crate::left::one_half;
use field::field::Field;
use refusal::reason::Refusal;
use refusal::refused::Refused;
use sheet::entry::Entry;
use sheet::head::Head;
use sheet::head::calls::TABLE_SIZE;
use sheet::matrix::Matrix;

// x²
fn squared<F: Field>(x: F) -> F
    ensures { result ≡ square F.ops x }
{
    x.mul(x)
}

impl<'a, F: Field> ConsistentSheet<'a, F> {
    // The value of wire w of the square program: the sheet's own, or p, q or s as its row demands.
    fn value_of_wire(&self, w: usize) -> F
        requires { w < self.now.head.now.columns }
        ensures { result ≡ extended_at F.ops (shape_of self.now.head.now) (position F.ops self.now.used.now) (coefficient F.ops self.now.values.now) w }
    {
        let wires = self.head.wires();
        let publics = self.head.publics();
        if w < wires {
            return self.values[w];
        }
        let t = w - wires;
        if t < 2 * publics {
            return squared(self.public_sum(one_half(), t));
        }
        let row = t - 2 * publics;
        let a = self.sum_of_row(Matrix::A, row);
        let b = self.sum_of_row(Matrix::B, row);
        squared(a.add(b.neg()))
    }

    fn write_values(&self, out: &mut [F])
        requires { length out.old ≡ self.now.head.now.columns }
        ensures { out.new ≡ extended F.ops (shape_of self.now.head.now) (position F.ops self.now.used.now) (coefficient F.ops self.now.values.now) }
    {
        for (w, value) in out.iter_mut().enumerate() {
            *value = self.value_of_wire(w);
        }
    }
}

// The sheet's values, then p, q and s as their rows demand, whether rows hold or not.
pub fn extend<F: Field>(
    head: &Head,
    entries: &[Entry<F>],
    values: &[F],
    out: &mut [F],
) -> Result<(), Refused>
    ensures { Extended F.ops head.now entries.now values.now out.old result out.new }
{
    if entries.len() != TABLE_SIZE || values.len() != head.wires() || out.len() != head.columns() {
        return Err(Refusal::WrongLength.at(0));
    }
    let sheet = ConsistentSheet::new(head, &entries[..head.used()], values)?;
    sheet.write_values(out);
    Ok(())
}

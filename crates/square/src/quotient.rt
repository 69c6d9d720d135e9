// The quotient: the polynomial h with u² - w = h (X^n - 1), where u and w take the left and right sums of the square program's rows.
ghost use Rattle.std.specs.Prelude.{◌≡◌, ◌-◌, ◌*◌, ◌≤◌, length, None, MatchResult};
ghost use Rattle.transform.specs.Polynomial.{table, coefficient};
ghost use Rattle.sheet.specs.Shape.{n};
ghost use Rattle.sheet.specs.Outcomes.{shape_of};
ghost use Rattle.square.specs.Rows.{position, failing_row};
ghost use Rattle.square.specs.Program.{u_row, extended};
ghost use Rattle.square.specs.Polynomials.{QuotientOf};
ghost use Rattle.square.specs.Outcomes.{Divided};

use crate::consistent::ConsistentSheet;
use field::field::Field;
use field::root::subgroup_root;
use refusal::reason::Refusal;
use refusal::refused::Refused;
use sheet::entry::Entry;
use sheet::head::Head;
use sheet::head::calls::TABLE_SIZE;
use transform::interpolate::interpolate;
use transform::polynomial::Polynomial;

impl<'a, F: Field> ConsistentSheet<'a, F> {
    // The left sums of the n rows.
    fn write_left_sums(&self, sums: &mut [F])
        requires { length sums.old ≡ self.now.head.now.n }
        ensures { let S = shape_of self.now.head.now in let c = position F.ops self.now.used.now in sums.new ≡ table (n S) (u_row F.ops S c (coefficient F.ops (extended F.ops S c (coefficient F.ops self.now.values.now)))) }
    {
        for (r, sum) in sums.iter_mut().enumerate() {
            *sum = self.left_sum(r);
        }
    }

    // Writes the quotient of a sheet whose rows all hold: the upper coefficients of u². Nothing here can be refused.
    fn divide(&self, out: &mut [F], work: &mut [F]) -> Result<(), Refused>
        requires root { self.now.head.now.log_n ≤ F.ops.adicity }
        requires room { length out.old ≡ self.now.head.now.n - 1 }
        requires work { 2 * self.now.head.now.n ≤ length work.old }
        requires hold { failing_row F.ops (shape_of self.now.head.now) (position F.ops self.now.used.now) (coefficient F.ops self.now.values.now) ≡ None }
        ensures { let S = shape_of self.now.head.now in let c = position F.ops self.now.used.now in MatchResult result (λ _. QuotientOf F.ops S c (extended F.ops S c (coefficient F.ops self.now.values.now)) out.new) (λ _. ⊥) }
    {
        let n = self.head.n();
        let (sums, rest) = work.split_at_mut(n);
        let (u, _) = rest.split_at_mut(n);
        self.write_left_sums(sums);
        interpolate(sums, u)?;
        Polynomial::new(u).square_upper(out)
    }
}

// The n - 1 coefficients of the quotient; refused where a row fails, at the first that does.
pub fn quotient<F: Field>(
    head: &Head,
    entries: &[Entry<F>],
    values: &[F],
    out: &mut [F],
    work: &mut [F],
) -> Result<(), Refused>
    ensures { Divided F.ops head.now entries.now values.now out.old (length work.old) result out.new }
{
    subgroup_root::<F>(head.log_n())?;
    if entries.len() != TABLE_SIZE
        || values.len() != head.wires()
        || out.len() != head.n() - 1
        || work.len() != head.columns() + 4 * head.n()
    {
        return Err(Refusal::WrongLength.at(0));
    }
    let sheet = ConsistentSheet::new(head, &entries[..head.used()], values)?;
    if let Some(row) = sheet.failing_row() {
        return Err(Refusal::RowFails.at(row));
    }
    sheet.divide(out, work)
}

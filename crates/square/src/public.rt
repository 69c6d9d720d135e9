// The public polynomial: what the public wires, each times its value, add to u.
ghost use Rattle.std.specs.Prelude.{◌≡◌, ◌*◌, ◌%◌, ◌<◌, ◌≤◌, [], length};
ghost use Rattle.field.specs.Operations.{power, root_of_order};
ghost use Rattle.transform.specs.Polynomial.{table, coefficient, value_at};
ghost use Rattle.sheet.specs.Shape.{k, stride};
ghost use Rattle.sheet.specs.Outcomes.{shape_of};
ghost use Rattle.square.specs.Rows.{position};
ghost use Rattle.square.specs.Program.{half, u_row};
ghost use Rattle.square.specs.Polynomials.{PublicOf};
ghost use Rattle.square.specs.Outcomes.{Published};

use crate::consistent::ConsistentSheet;
use crate::left::{one_half, stride_of};
use field::field::Field;
use field::root::subgroup_root;
use refusal::reason::Refusal;
use refusal::refused::Refused;
use sheet::head::Head;

// x times itself, e times.
fn power_of<F: Field>(x: F, e: usize) -> F
    ensures { result ≡ power F.ops x e }
{
    let mut product = F::one();
    for _ in 0..e {
        product = product.mul(x);
    }
    product
}

// Fills `rest` with the first places again and again.
fn repeat_first<F: Field>(first: &[F], rest: &mut [F])
    requires { 0 < length first.now }
    ensures { rest.new ≡ table (length rest.old) (λ e. coefficient F.ops first.now (e % length first.now)) }
{
    // counted round, since a division for each place costs more than all else here
    let mut at = 0;
    for place in rest.iter_mut() {
        *place = first[at];
        at = if at + 1 < first.len() { at + 1 } else { 0 };
    }
}

impl<'a, F: Field> ConsistentSheet<'a, F> {
    // The value at x of the polynomial that has the k public rows' sums as its coefficients, by Horner's rule.
    fn value_of_sums(&self, halving: F, x: F) -> F
        requires { halving ≡ half F.ops }
        ensures { let S = shape_of self.now.head.now in result ≡ value_at F.ops (table (k S) (λ t. u_row F.ops S (position F.ops []) (coefficient F.ops self.now.values.now) (t * stride S))) x }
    {
        let mut value = F::zero();
        // the public rows have numbers and no table, so the loop is over the numbers
        for t in (0..self.head.k()).rev() {
            value = value.mul(x).add(self.public_sum(halving, t));
        }
        value
    }

    // Fills `out` with coefficients: each is the scale times the sums' value at a power of the step.
    fn write_first(&self, step: F, scale: F, out: &mut [F])
        ensures { let S = shape_of self.now.head.now in out.new ≡ table (length out.old) (λ e. F.ops.mul scale (value_at F.ops (table (k S) (λ t. u_row F.ops S (position F.ops []) (coefficient F.ops self.now.values.now) (t * stride S))) (power F.ops step e))) }
    {
        let halving = one_half();
        let mut point = F::one();
        for coefficient in out.iter_mut() {
            *coefficient = scale.mul(self.value_of_sums(halving, point));
            point = point.mul(step);
        }
    }

    // Writes the n coefficients of the public polynomial, with the root of one of the order n.
    fn write_public(&self, root: F, out: &mut [F])
        requires room { length out.old ≡ self.now.head.now.n }
        requires order { self.now.head.now.log_n ≤ F.ops.adicity }
        requires root { root ≡ root_of_order F.ops self.now.head.now.log_n }
        ensures { PublicOf F.ops (shape_of self.now.head.now) (position F.ops []) self.now.values.now out.new }
    {
        // the root's n-th power is one, so this is one over its stride-th
        let step = power_of(root, self.head.n() - stride_of(self.head));
        // 1/n
        let scale = power_of(one_half(), self.head.log_n() as usize);
        let (first, rest) = out.split_at_mut(self.head.k());
        self.write_first(step, scale, first);
        repeat_first(first, rest);
    }
}

// The n coefficients of the public polynomial, whether rows hold or not.
pub fn public<F: Field>(head: &Head, values: &[F], out: &mut [F]) -> Result<(), Refused>
    ensures { Published F.ops head.now values.now out.old result out.new }
{
    let root = subgroup_root::<F>(head.log_n())?;
    if values.len() != head.wires() || out.len() != head.n() {
        return Err(Refusal::WrongLength.at(0));
    }
    // no entry counts
    let sheet = ConsistentSheet::new(head, &[], values)?;
    sheet.write_public(root, out);
    Ok(())
}

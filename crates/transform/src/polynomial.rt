// A polynomial by its coefficients, which are lent.
ghost use Rattle.std.specs.Prelude.{◌≡◌, ◌^◌, ◌≤◌, true, ◌↔◌, MatchOption};
ghost use Rattle.transform.specs.Outcomes.{Equal, Multiplied, UpperSquared, product_length};
ghost use Rattle.transform.specs.Polynomial.{coefficient, value_at};

use crate::product::{fill_product, fill_upper_square};
use field::field::Field;
use refusal::reason::Refusal;
use refusal::refused::Refused;

// The coefficients stand lowest first; those past the end are zero.
#[derive(Clone, Copy)]
pub struct Polynomial<'a, F> {
    coefficients: &'a [F],
}

impl<'a, F: Field> Polynomial<'a, F> {
    pub fn new(coefficients: &'a [F]) -> Polynomial<'a, F>
        ensures { result.coefficients.now ≡ coefficients.now }
    {
        Polynomial { coefficients }
    }

    pub fn coefficients(&self) -> &'a [F]
        ensures { result.now ≡ self.now.coefficients.now }
    {
        self.coefficients
    }

    // The coefficient at any place, past the end too.
    pub fn coefficient(&self, i: usize) -> F
        ensures { result ≡ coefficient F.ops self.now.coefficients.now i }
    {
        let all = self.coefficients;
        all.get(i).copied().unwrap_or(F::zero())
    }

    // The value at a point.
    pub fn value_at(&self, x: F) -> F
        ensures { result ≡ value_at F.ops self.now.coefficients.now x }
    {
        horner(self.coefficients, x)
    }

    // Writes the product into `out`, which has a place for each of its coefficients: one less than the factors have together, none where a factor has none.
    pub fn product(&self, other: &Polynomial<F>, out: &mut [F]) -> Result<(), Refused>
        ensures { Multiplied F.ops self.now.coefficients.now other.now.coefficients.now out.old out.new result }
    {
        if product_length(self.coefficients.len(), other.coefficients.len()) != Some(out.len()) {
            return Err(Refusal::WrongLength.at(0));
        }
        fill_product(self.coefficients, other.coefficients, out);
        Ok(())
    }

    // Writes the upper half of the square into `out`: of n coefficients, at least one, the square has n - 1 from n on.
    pub fn square_upper(&self, out: &mut [F]) -> Result<(), Refused>
        ensures { UpperSquared F.ops self.now.coefficients.now out.old out.new result }
    {
        if self.coefficients.len().checked_sub(1) != Some(out.len()) {
            return Err(Refusal::WrongLength.at(0));
        }
        fill_upper_square(self.coefficients, out);
        Ok(())
    }

    // Whether it is the same polynomial. Values do not tell: X^p and X have the same ones over the field of p elements.
    pub fn equals(&self, other: &Polynomial<F>) -> bool
        ensures { (result ≡ true) ↔ Equal F.ops self.now.coefficients.now other.now.coefficients.now }
    {
        let places = self.coefficients.len().max(other.coefficients.len());
        (0..places).all(|i| self.coefficient(i).same(other.coefficient(i)))
    }
}

// The value at x, by Horner's rule: one product and one sum for each coefficient.
fn horner<F: Field>(coefficients: &[F], x: F) -> F
    ensures { result ≡ value_at F.ops coefficients.now x }
{
    let mut value = F::zero();
    for c in coefficients.iter().rev() {
        value = value.mul(x).add(*c);
    }
    value
}

// How many coefficients a product has, by those of its factors; None where that is no number of the machine.
fn product_length(n: usize, m: usize) -> Option<usize>
    ensures { MatchOption result (2 ^ 64 ≤ product_length n m) (λ k. k ≡ product_length n m) }
{
    if n == 0 || m == 0 {
        Some(0)
    } else {
        n.checked_add(m - 1)
    }
}

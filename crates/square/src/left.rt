// The left sums of the square program's rows at the extended values: the sums that are squared.
ghost use Rattle.std.specs.Prelude.{◌≡◌, ◌*◌, ◌<◌, []};
ghost use Rattle.transform.specs.Polynomial.{coefficient};
ghost use Rattle.sheet.specs.Shape.{columns, stride};
ghost use Rattle.sheet.specs.Outcomes.{shape_of};
ghost use Rattle.square.specs.Rows.{position, dot};
ghost use Rattle.square.specs.Program.{half, product_kind, U, u_row, extended};

use crate::consistent::ConsistentSheet;
use field::field::Field;
use sheet::head::Head;
use sheet::matrix::Matrix;

// 1/2, which every field has.
pub fn one_half<F: Field>() -> F
    ensures { result ≡ half F.ops }
{
    F::one().add(F::one()).inverse().unwrap()
}

// n/k: every row whose number is a multiple of it is a public row.
pub fn stride_of(head: &Head) -> usize
    ensures is { result ≡ stride (shape_of head.now) }
    ensures some { 0 < result }
{
    head.n() / head.k()
}

impl<'a, F: Field> ConsistentSheet<'a, F> {
    // The left sum of multiple number t of the stride: (z_j + z_0)/2 and (z_j - z_0)/2 by turns, then nothing. No entry counts.
    // `halving` is 1/2, which a caller in a loop works out once.
    pub(crate) fn public_sum(&self, halving: F, t: usize) -> F
        requires { halving ≡ half F.ops }
        ensures { let S = shape_of self.now.head.now in result ≡ u_row F.ops S (position F.ops []) (coefficient F.ops self.now.values.now) (t * stride S) }
    {
        if t >= 2 * self.head.publics() {
            return F::zero();
        }
        let one = if t % 2 == 0 {
            self.values[0]
        } else {
            self.values[0].neg()
        };
        halving.mul(self.values[t / 2].add(one))
    }

    // The left sum of number x among the other rows: a - b and a + b by turns, then nothing.
    fn product_sum(&self, x: usize) -> F
        ensures { let S = shape_of self.now.head.now in let c = position F.ops self.now.used.now in result ≡ dot F.ops (columns S) (U F.ops S c (product_kind S x)) (coefficient F.ops (extended F.ops S c (coefficient F.ops self.now.values.now))) }
    {
        if x >= 2 * self.head.rows() {
            return F::zero();
        }
        let a = self.sum_of_row(Matrix::A, x / 2);
        let b = self.sum_of_row(Matrix::B, x / 2);
        if x % 2 == 0 { a.add(b.neg()) } else { a.add(b) }
    }

    // The left sum of row r.
    pub(crate) fn left_sum(&self, r: usize) -> F
        requires { r < self.now.head.now.n }
        ensures { let S = shape_of self.now.head.now in let c = position F.ops self.now.used.now in result ≡ u_row F.ops S c (coefficient F.ops (extended F.ops S c (coefficient F.ops self.now.values.now))) r }
    {
        let stride = stride_of(self.head);
        if r % stride == 0 {
            self.public_sum(one_half(), r / stride)
        } else {
            // r / stride + 1 public rows come before
            self.product_sum(r - (r / stride + 1))
        }
    }
}

// The field of the elements a + bθ.
ghost use Rattle.std.specs.Prelude.{◌≡◌};
ghost use Rattle.quadratic.specs.Doubled.{pair, doubled};
ghost use Rattle.quadratic.specs.Doubling.{doubled_laws};

use crate::quadratic::Quadratic;
use field::field::Field;

impl<F> Quadratic<F> {
    pub fn new(a: F, b: F) -> Self
        ensures { result ≡ pair a b }
    {
        Self { a, b }
    }
}

impl<F: Field> Field for Quadratic<F> {
    ghost ops = { doubled F.ops };

    ghost laws = { doubled_laws F.Field.laws };

    fn zero() -> Self {
        Self::new(F::zero(), F::zero())
    }

    fn one() -> Self {
        Self::new(F::one(), F::zero())
    }

    fn add(self, other: Self) -> Self {
        Self::new(self.a.add(other.a), self.b.add(other.b))
    }

    fn neg(self) -> Self {
        Self::new(self.a.neg(), self.b.neg())
    }

    fn mul(self, other: Self) -> Self {
        let a = self.a.mul(other.a).add(F::top().mul(self.b.mul(other.b)));
        let b = self.a.mul(other.b).add(self.b.mul(other.a));
        Self::new(a, b)
    }

    // (a − bθ) / (a² − top b²): the norm is zero only at zero, since top is no square.
    fn inverse(self) -> Option<Self> {
        let norm = self
            .a
            .mul(self.a)
            .add(F::top().mul(self.b.mul(self.b)).neg());
        let i = norm.inverse()?;
        Some(Self::new(self.a.mul(i), self.b.mul(i).neg()))
    }

    fn same(self, other: Self) -> bool {
        self.a.same(other.a) && self.b.same(other.b)
    }

    // θ
    fn top() -> Self {
        Self::new(F::zero(), F::one())
    }

    // The roots of the field below, and θ for the one order more.
    fn root(e: u32) -> Option<Self> {
        if let Some(w) = F::root(e) {
            return Some(Self::new(w, F::zero()));
        }
        F::root(e.checked_sub(1)?)?;
        Some(Self::top())
    }
}

// The field of the numbers below a prime.
ghost use Rattle.std.specs.Prelude.{◌≡◌, refl};
ghost use Rattle.modular.specs.Residue.{element, operations};
ghost use Rattle.modular.specs.Arithmetic.{residues_by};
ghost use Rattle.modular.specs.Modular.{laws_of};

use crate::prime::Prime;
use crate::residue::Residue;
use field::field::Field;

impl<const P: u32> Residue<P> {
    // The number below P that stands for the element.
    pub fn value(self) -> u32
        ensures { result ≡ self.entry.value }
    {
        self.value
    }
}

impl<const P: u32> Residue<P>
where
    Self: Prime<P>,
{
    // The element that a number stands for.
    pub fn new(n: u32) -> Self
        ensures { result ≡ element P ⟦<Self as Prime<P>>⟧.positive n }
    {
        Self { value: n % P }
    }
}

impl<const P: u32> Field for Residue<P>
where
    Self: Prime<P>,
{
    ghost ops = { operations P ⟦<Self as Prime<P>>⟧.positive ⟦<Self as Prime<P>>⟧.TOP ⟦<Self as Prime<P>>⟧.adicity };

    ghost laws = { laws_of (residues_by ⟦<Self as Prime<P>>⟧.positive ⟦<Self as Prime<P>>⟧.arithmetic (λ x y. refl)) };

    fn zero() -> Self {
        Self::new(0)
    }

    fn one() -> Self {
        Self::new(1)
    }

    fn add(self, other: Self) -> Self {
        Self::new(self.value + other.value)
    }

    fn neg(self) -> Self {
        Self::new(P - self.value)
    }

    fn mul(self, other: Self) -> Self {
        Self::new(<Self as Prime<P>>::product(self, other))
    }

    fn inverse(self) -> Option<Self> {
        Some(Self::new(<Self as Prime<P>>::inverse(self)?))
    }

    fn same(self, other: Self) -> bool {
        self == other
    }

    fn top() -> Self {
        Self::new(<Self as Prime<P>>::TOP)
    }

    fn root(e: u32) -> Option<Self> {
        Some(Self::new(<Self as Prime<P>>::root(e)?))
    }
}

// The elements a + bθ in files, by the coordinates of a and of b in turn.
ghost use Rattle.std.specs.Prelude.{◌*◌};
ghost use Rattle.quadratic.specs.Interleave.{interleave};

use crate::quadratic::Quadratic;
use field::field::Field;
use field::file_field::FileField;

impl<F: FileField> FileField for Quadratic<F> {
    ghost prime = { F.prime };

    ghost width = { 2 * F.width };

    ghost coordinates = { λ x. interleave (F.coordinates x.a) (F.coordinates x.b) };

    fn prime() -> u64 {
        F::prime()
    }

    fn element(v: u64) -> Option<Self> {
        let a = F::element(v)?;
        Some(Self::new(a, F::zero()))
    }

    fn number(self) -> Option<u64> {
        if self.b.same(F::zero()) {
            self.a.number()
        } else {
            None
        }
    }

    fn coordinate(self, i: u32) -> Option<u64> {
        if i % 2 == 0 {
            self.a.coordinate(i / 2)
        } else {
            self.b.coordinate((i - 1) / 2)
        }
    }
}

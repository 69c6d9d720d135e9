// Prime fields in files: each element is its number.
ghost use Rattle.std.specs.Prelude.{[], ◌∷◌};

use crate::prime::Prime;
use crate::residue::Residue;
use field::file_field::FileField;

impl<const P: u32> FileField for Residue<P>
where
    Self: Prime<P>,
{
    ghost prime = { P };

    ghost width = { 1 };

    ghost coordinates = { λ x. x.value ∷ [] };

    fn prime() -> u64 {
        P as u64
    }

    fn element(v: u64) -> Option<Self> {
        if v < P as u64 {
            Some(Self::new(v as u32))
        } else {
            None
        }
    }

    fn number(self) -> Option<u64> {
        Some(self.value as u64)
    }

    fn coordinate(self, i: u32) -> Option<u64> {
        match i {
            0 => Some(self.value as u64),
            _ => None,
        }
    }
}

// A refusal as a call answers it.
ghost use Rattle.std.specs.Prelude.{◌≡◌, ◌++◌, Some, codes, decimal};
ghost use Rattle.refusal.specs.Numbers.{number_of};

use crate::reason::Refusal;
use std::fmt;

// The reason, and the place that it speaks of: a row, or a byte of a file; 0 where there is none.
#[derive(Clone, Copy, PartialEq, Eq, Debug)]
pub struct Refused {
    pub reason: Refusal,
    pub at: usize,
}

impl Refusal {
    // This refusal, at a place.
    pub fn at(self, place: usize) -> Refused
        ensures { (result.reason ≡ self) × (result.at ≡ place) }
    {
        Refused {
            reason: self,
            at: place,
        }
    }

    // The number by which the refusal is known outside.
    pub fn number(self) -> u32
        ensures { result ≡ number_of self }
    {
        self as u32
    }
}

// As every program prints it: `refused NUMBER PLACE`.
impl fmt::Display for Refused {
    ghost output = { λ r. Some (codes "refused " ++ decimal (number_of r.reason) ++ codes " " ++ decimal r.at) };

    fn fmt<W: fmt::Write>(&self, f: &mut fmt::Formatter<W>) -> fmt::Result {
        let number = self.reason.number();
        let at = self.at;
        write!(f, "refused {number} {at}")
    }
}

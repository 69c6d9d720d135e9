// The three matrices of a sheet.
ghost use Rattle.std.specs.Prelude.{◌≡◌};
ghost use Rattle.sheet.specs.Matrix.{number_of, Numbered};

use refusal::reason::Refusal;
use refusal::refused::Refused;

// A product row says that its A-sum times its B-sum is its C-sum.
#[derive(Clone, Copy, PartialEq, Eq, Debug)]
pub enum Matrix {
    A = 0,
    B = 1,
    C = 2,
}

impl Matrix {
    // The number by which entries and calls name it.
    pub fn number(self) -> u32
        ensures { result ≡ number_of self }
    {
        self as u32
    }
}

impl TryFrom<u32> for Matrix {
    type Error = Refused;

    ghost try_from_gives = { Numbered };

    fn try_from(number: u32) -> Result<Matrix, Refused> {
        match number {
            0 => Ok(Matrix::A),
            1 => Ok(Matrix::B),
            2 => Ok(Matrix::C),
            _ => Err(Refusal::OutOfRange.at(0)),
        }
    }
}

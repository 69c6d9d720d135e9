// Which positions a sheet has.
ghost use Rattle.std.specs.Prelude.{◌≡◌};
ghost use Rattle.sheet.specs.Rules.{inside};
ghost use Rattle.sheet.specs.Outcomes.{shape_of};

use crate::head::Head;
use crate::matrix::Matrix;

impl Head {
    // Whether a position lies within the sheet: one of the three matrices, its rows and its wires.
    pub fn contains(&self, matrix: u32, row: u32, wire: u32) -> bool
        ensures { result ≡ inside (shape_of self.now) matrix row wire }
    {
        Matrix::try_from(matrix).is_ok()
            && (row as usize) < self.rows
            && (wire as usize) < self.wires
    }
}

// The product rows of a sheet, read off its entry table.
ghost use Rattle.std.specs.Prelude.{◌≡◌};
ghost use Rattle.transform.specs.Polynomial.{coefficient};
ghost use Rattle.sheet.specs.Matrix.{number_of};
ghost use Rattle.sheet.specs.Outcomes.{shape_of};
ghost use Rattle.square.specs.Rows.{position, row_sum, failing_row};
ghost use Rattle.square.specs.Rules.{all_inside};

use crate::consistent::ConsistentSheet;
use crate::row_sums::RowSums;
use field::field::Field;
use sheet::entry::Entry;
use sheet::head::Head;
use sheet::matrix::Matrix;

// Whether every entry lies within the sheet.
pub fn are_inside<F: Field>(head: &Head, used: &[Entry<F>]) -> bool
    ensures { result ≡ all_inside (shape_of head.now) used.now }
{
    used.iter().all(|e| head.contains(e.matrix, e.row, e.wire))
}

impl<'a, F: Field> ConsistentSheet<'a, F> {
    // The sum of a row in a matrix, by one pass over the entries.
    pub(crate) fn sum_of_row(&self, matrix: Matrix, row: usize) -> F
        ensures { result ≡ row_sum F.ops (shape_of self.now.head.now) (position F.ops self.now.used.now) (coefficient F.ops self.now.values.now) (number_of matrix) row }
    {
        let mut sum = F::zero();
        for e in self.used {
            if e.matrix == matrix.number() && e.row as usize == row {
                sum = sum.add(e.coefficient.mul(self.values[e.wire as usize]));
            }
        }
        sum
    }

    // The three sums of a row.
    pub(crate) fn sums_of_row(&self, row: usize) -> RowSums<F>
        ensures { let sum = row_sum F.ops (shape_of self.now.head.now) (position F.ops self.now.used.now) (coefficient F.ops self.now.values.now) in (result.a ≡ sum 0 row) × (result.b ≡ sum 1 row) × (result.c ≡ sum 2 row) }
    {
        RowSums {
            a: self.sum_of_row(Matrix::A, row),
            b: self.sum_of_row(Matrix::B, row),
            c: self.sum_of_row(Matrix::C, row),
        }
    }

    // The first row that does not hold, if there is one.
    pub(crate) fn failing_row(&self) -> Option<usize>
        ensures { result ≡ failing_row F.ops (shape_of self.now.head.now) (position F.ops self.now.used.now) (coefficient F.ops self.now.values.now) }
    {
        (0..self.head.rows()).find(|row| !self.sums_of_row(*row).hold())
    }
}

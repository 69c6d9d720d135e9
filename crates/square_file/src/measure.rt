// How long the rows are in the file, and whether each coefficient has a number.
ghost use Rattle.std.specs.Prelude.{◌+◌, ◌*◌, length};
ghost use Rattle.sheet.specs.Shape.{columns};
ghost use Rattle.square_file.specs.Terms.{all_plain};
ghost use Rattle.square_file.specs.Programs.{shape, side_terms, row, rows, is_plain_row, is_plain};
ghost use Rattle.square_file.specs.Measured.{Measured};

use crate::program::Program;
use field::field::Field;
use field::file_field::FileField;
use square_rows::combination::Combination;
use writing::plain::plain_number;

impl<F: FileField> Program<'_, F> {
    // How many terms a side of a row has; None where a coefficient has no number.
    fn count_terms(&self, side: &Combination<F>) -> Option<usize>
        ensures { let ts = side_terms F.ops self.now side.now in Measured (all_plain F.ops F.prime ts) (length ts) (columns (shape self.now)) result }
    {
        let mut count = 0;
        for t in side.terms(self.head, self.used) {
            let _ = plain_number(t.coefficient)?;
            count += 1;
        }
        Some(count)
    }

    // How many bytes row r takes: three counts, and 12 bytes an item, of which a list has at most 3,072, the most wires that there are.
    // None where a coefficient has no number.
    fn row_size(&self, r: usize) -> Option<usize>
        ensures { Measured (is_plain_row F.ops F.prime self.now r) (length (row F.ops F.prime self.now r)) (12 + 36 * 3072) result }
    {
        let left = self.count_terms(&Combination::left(self.head, r))?;
        let right = self.count_terms(&Combination::right(self.head, r))?;
        Some(12 + 24 * left + 12 * right)
    }

    // How many bytes the rows take; None where a coefficient has no number.
    pub(crate) fn rows_size(&self) -> Option<usize>
        ensures { Measured (is_plain F.ops F.prime self.now) (length (rows F.ops F.prime self.now)) (2048 * (12 + 36 * 3072)) result }
    {
        let mut size = 0;
        for r in 0..self.head.n() {
            size += self.row_size(r)?;
        }
        Some(size)
    }
}

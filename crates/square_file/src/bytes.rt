// The rows and the labels, appended one after another.
ghost use Rattle.writing.specs.Written.{Fills};
ghost use Rattle.constraints.specs.Circuit.{list_bytes};
ghost use Rattle.square_file.specs.Terms.{items};
ghost use Rattle.square_file.specs.SquareFile.{label_bytes};
ghost use Rattle.square_file.specs.Programs.{side_terms, row, rows};

use crate::program::Program;
use field::field::Field;
use field::file_field::FileField;
use square_rows::combination::Combination;
use writing::plain::number_of;
use writing::writer::Writer;

impl<F: FileField> Program<'_, F> {
    // How many items a side of a row has, and the items.
    fn put_list(&self, w: &mut Writer<'_>, side: &Combination<F>)
        ensures { Fills w.old (list_bytes (items F.ops F.prime (side_terms F.ops self.now side.now))) w.new }
    {
        let count_at = w.written().len();
        // room for the count, which is known once the items are written
        w.put_word(0);
        let mut count = 0;
        for t in side.terms(self.head, self.used) {
            w.put_item(t.wire as u32, number_of(t.coefficient));
            count += 1;
        }
        w.put_word_at(count_at, count);
    }

    fn put_row(&self, w: &mut Writer<'_>, r: usize)
        ensures { Fills w.old (row F.ops F.prime self.now r) w.new }
    {
        let left = Combination::left(self.head, r);
        let right = Combination::right(self.head, r);
        let left_at = w.written().len();
        self.put_list(w, &left);
        w.put_again(left_at); // a square is a product of equal factors
        self.put_list(w, &right);
    }

    pub(crate) fn put_rows(&self, w: &mut Writer<'_>)
        ensures { Fills w.old (rows F.ops F.prime self.now) w.new }
    {
        for r in 0..self.head.n() {
            self.put_row(w, r);
        }
    }
}

// So many labels, each its own number.
pub(crate) fn put_labels(w: &mut Writer<'_>, count: usize)
    ensures { Fills w.old (label_bytes count) w.new }
{
    for label in 0..count {
        w.put_long(label as u64);
    }
}

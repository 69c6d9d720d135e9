// The rows of a reader, entered into a sheet.
ghost use Rattle.std.specs.Prelude.{◌≡◌, [], ◌∷◌, map};
ghost use Rattle.sheet.specs.Matrix.{number_of};
ghost use Rattle.constraints.specs.Reader.{again};
ghost use Rattle.loading.specs.Rows.{items_of, line_of, item_count, rows_ahead};
ghost use Rattle.loading.specs.Entries.{below, line_below, list_entries, line_entries, entries_from, EntersAll};

use constraints::item::reader::ItemReader;
use constraints::item::{ITEM_SIZE, Item};
use constraints::reader::RowReader;
use constraints::row::Row;
use field::field::Field;
use field::file_field::FileField;
use sheet::entry::Entry;
use sheet::head::Head;
use sheet::head::calls::enter;
use sheet::matrix::Matrix;

// Head and entries stay two parameters: a struct of the two `&mut` would have to promise at every method that both still refer to the same.

// One item. The coefficients of an opened file are below its prime, and its wires within the sheet: there nothing is passed over.
fn enter_item<F: FileField>(
    head: &mut Head,
    entries: &mut [Entry<F>],
    matrix: Matrix,
    row: u32,
    item: Item,
)
    ensures { EntersAll F.ops head.old entries.old (list_entries F.ops (number_of matrix) row (below F.prime (item ∷ []))) head.new entries.new }
{
    if let Some(x) = F::element(item.coefficient) {
        let _ = enter(head, entries, matrix.number(), row, item.wire, x);
    }
}

// The items of one list.
fn enter_list<F: FileField>(
    head: &mut Head,
    entries: &mut [Entry<F>],
    matrix: Matrix,
    row: u32,
    part: &[u8],
)
    ensures { EntersAll F.ops head.old entries.old (list_entries F.ops (number_of matrix) row (below F.prime (items_of part.now))) head.new entries.new }
{
    for item in ItemReader::new(part) {
        enter_item(head, entries, matrix, row, item);
    }
}

// The three lists of one row.
fn enter_row<F: FileField>(head: &mut Head, entries: &mut [Entry<F>], number: u32, row: Row<'_>)
    ensures { EntersAll F.ops head.old entries.old (line_entries F.ops number (line_below F.prime (line_of row.entry))) head.new entries.new }
{
    enter_list(head, entries, Matrix::A, number, row.a);
    enter_list(head, entries, Matrix::B, number, row.b);
    enter_list(head, entries, Matrix::C, number, row.c);
}

// The rows that a reader has still to hand out, from row 0 of the sheet on. The reader is given up.
pub(crate) fn enter_rows<F: FileField>(
    head: &mut Head,
    entries: &mut [Entry<F>],
    reader: RowReader<'_>,
)
    ensures { EntersAll F.ops head.old entries.old (entries_from F.ops 0 (map (line_below F.prime) (rows_ahead reader.entry))) head.new entries.new }
{
    for (number, row) in reader.enumerate() {
        enter_row(head, entries, number as u32, row);
    }
}

// How many items the rows have that a reader has still to hand out.
pub(crate) fn count_items(reader: &mut RowReader<'_>) -> usize
    ensures kept { again reader.new ≡ again reader.old }
    ensures count { result ≡ item_count (rows_ahead reader.old) }
{
    let mut count = 0;
    // `for row in reader.by_ref()` was tried: what the reader is after the loop is then not proved
    while let Some(row) = reader.next() {
        count += row.a.len() / ITEM_SIZE + row.b.len() / ITEM_SIZE + row.c.len() / ITEM_SIZE;
    }
    count
}

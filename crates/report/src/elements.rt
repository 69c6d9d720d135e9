// Elements as text: the coordinates of each joined by commas, and a space before each element.
ghost use Rattle.std.specs.Prelude.{◌+◌, ◌*◌, ◌^◌, ◌<◌, ◌≤◌, map, length};
ghost use Rattle.writing.specs.Written.{rest};
ghost use Rattle.report.specs.Text.{Appended, piece, element_text, elements_text};

use crate::append::append_number;
use crate::fields::TextField;
use field::file_field::FileField;
use writing::writer::Writer;

// Coordinate number i, behind a comma unless it is the first.
fn append_coordinate(out: &mut Writer<'_>, i: u32, c: u64)
    requires { (6 ≤ length (rest out.old)) × (c < 2 ^ 16) }
    ensures text { Appended out.old (piece i c) out.new }
    ensures short { length (rest out.old) ≤ length (rest out.new) + 6 }
{
    if i == 0 {
        return append_number(out, c);
    }
    out.put(b",");
    append_number(out, c);
}

// An element. The coordinates are counted, since a field tells its width to proofs alone, so there is no range to go over.
fn append_element<F: TextField>(out: &mut Writer<'_>, x: F)
    requires { 6 * F.width ≤ length (rest out.old) }
    ensures text { Appended out.old (element_text (F.coordinates x)) out.new }
    ensures short { length (rest out.old) ≤ length (rest out.new) + 6 * F.width }
{
    let mut i = 0;
    while let Some(c) = x.coordinate(i) {
        append_coordinate(out, i, c);
        i += 1;
    }
}

// Elements, each behind a space.
pub(crate) fn append_elements<F: TextField>(out: &mut Writer<'_>, xs: &[F])
    requires { (6 * F.width + 1) * length xs.now ≤ length (rest out.old) }
    ensures text { Appended out.old (elements_text (map F.coordinates xs.now)) out.new }
    ensures short { length (rest out.old) ≤ length (rest out.new) + (6 * F.width + 1) * length xs.now }
{
    for x in xs {
        out.put(b" ");
        append_element(out, *x);
    }
}

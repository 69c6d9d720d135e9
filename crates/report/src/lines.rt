// The lines of the text.
ghost use Rattle.std.specs.Prelude.{◌+◌, ◌*◌, ◌≤◌, ◌∷◌, map, length, decimal};
ghost use Rattle.writing.specs.Written.{rest};
ghost use Rattle.report.specs.Text.{Appended, numbers_line, elements_line};

use crate::append::append_number;
use crate::elements::append_elements;
use crate::fields::TextField;
use writing::writer::Writer;

// A number behind a space.
fn append_spaced(out: &mut Writer<'_>, v: u64)
    requires { 21 ≤ length (rest out.old) }
    ensures text { Appended out.old (32 ∷ decimal v) out.new }
    ensures short { length (rest out.old) ≤ length (rest out.new) + 21 }
{
    out.put(b" ");
    append_number(out, v);
}

// A word and two numbers.
pub(crate) fn append_numbers(out: &mut Writer<'_>, word: &[u8], a: u64, b: u64)
    requires { length word.now + 43 ≤ length (rest out.old) }
    ensures text { Appended out.old (numbers_line word.now a b) out.new }
    ensures short { length (rest out.old) ≤ length (rest out.new) + length word.now + 43 }
{
    out.put(word);
    append_spaced(out, a);
    append_spaced(out, b);
    out.put(b"\n");
}

// A word and elements.
pub(crate) fn append_line<F: TextField>(out: &mut Writer<'_>, word: &[u8], xs: &[F])
    requires { length word.now + (6 * F.width + 1) * length xs.now + 1 ≤ length (rest out.old) }
    ensures text { Appended out.old (elements_line word.now (map F.coordinates xs.now)) out.new }
    ensures short { length (rest out.old) ≤ length (rest out.new) + length word.now + (6 * F.width + 1) * length xs.now + 1 }
{
    out.put(word);
    append_elements(out, xs);
    out.put(b"\n");
}

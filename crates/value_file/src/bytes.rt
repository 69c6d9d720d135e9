// The file, appended part by part.
ghost use Rattle.std.specs.Prelude.{◌≡◌, ◌≤◌, ◌++◌, length, drop};
ghost use Rattle.writing.specs.Written.{Fills};
ghost use Rattle.assignments.specs.Assignment.{header_bytes, value_bytes};
ghost use Rattle.value_file.specs.ValueFile.{all_plain, numbers, value_file_bytes};

use field::field::Field;
use field::file_field::FileField;
use frames::format::ASSIGNMENTS;
use frames::section::{BODY, HEADER};
use writing::plain::plain_number;
use writing::writer::Writer;

// Where the values begin.
pub(crate) const VALUES_AT: usize = 52;

// Whether every value has a number.
pub(crate) fn are_plain<F: FileField>(values: &[F]) -> bool
    ensures { result ≡ all_plain F.ops F.prime values.now }
{
    values.iter().all(|x| plain_number(*x).is_some())
}

// The numbers of the header.
fn put_header(w: &mut Writer<'_>, prime: u64, count: u32)
    ensures { Fills w.old (header_bytes prime count) w.new }
{
    w.put_word(8);
    w.put_long(prime);
    w.put_word(count);
}

// The numbers of the values.
fn put_numbers<F: FileField>(w: &mut Writer<'_>, values: &[F])
    ensures { Fills w.old (value_bytes (numbers F.ops F.prime values.now)) w.new }
{
    w.put_numbers(values);
}

// The whole file; p is the field's prime, which the caller has at hand, since what `prime` promises of it makes the file readable.
fn put_file<F: FileField>(w: &mut Writer<'_>, values: &[F], p: u64)
    requires few { length values.now ≤ 3072 }
    requires named { p ≡ F.prime }
    ensures { Fills w.old (value_file_bytes F.ops F.prime values.now) w.new }
{
    w.put_start(ASSIGNMENTS, 2);
    w.put_head(HEADER, 16);
    put_header(w, p, values.len() as u32);
    w.put_head(BODY, 8 * values.len());
    put_numbers(w, values);
}

// The same, at the front of a buffer.
pub(crate) fn write<F: FileField>(values: &[F], p: u64, out: &mut [u8])
    requires room { length (value_file_bytes F.ops F.prime values.now) ≤ length out.old }
    requires few { length values.now ≤ 3072 }
    requires named { p ≡ F.prime }
    ensures { out.new ≡ value_file_bytes F.ops F.prime values.now ++ drop (length (value_file_bytes F.ops F.prime values.now)) out.old }
{
    put_file(&mut Writer::new(out), values, p);
}

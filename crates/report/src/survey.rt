// What is said of a sheet, at any field.
ghost use Rattle.std.specs.Prelude.{◌≡◌, ◌+◌, ◌-◌, ◌*◌, ◌≤◌, ◌++◌, map, length, codes};
ghost use Rattle.refusal.specs.Numbers.{number_of};
ghost use Rattle.sheet.specs.Model.{sheet};
ghost use Rattle.writing.specs.Written.{rest};
ghost use Rattle.report.specs.Text.{Appended, elements_line};
ghost use Rattle.report.specs.Outcome.{sheet_lines, refused_line, TellsModel};
ghost use Rattle.report.specs.Means.{text_room};

use crate::fields::TextField;
use crate::lines::{append_line, append_numbers};
use field::field::Field;
use field::file_field::FileField;
use refusal::refused::Refused;
use sheet::entry::Entry;
use sheet::head::Head;
use square::public::public;
use square::quotient::quotient;
use writing::writer::Writer;

pub(crate) fn append_refusal(out: &mut Writer<'_>, e: Refused)
    requires { 50 ≤ length (rest out.old) }
    ensures { Appended out.old (refused_line (number_of e.reason) e.at) out.new }
{
    append_numbers(out, b"refused", e.reason.number() as u64, e.at as u64);
}

// Prime and doublings, n and k.
fn append_sheet(out: &mut Writer<'_>, prime: u64, doublings: u32, head: &Head)
    requires { 95 ≤ length (rest out.old) }
    ensures text { Appended out.old (sheet_lines prime doublings head.now.n head.now.k) out.new }
    ensures short { length (rest out.old) ≤ length (rest out.new) + 95 }
{
    append_numbers(out, b"field", prime, doublings as u64);
    append_numbers(out, b"rows", head.n() as u64, head.k() as u64);
}

// The two polynomials, each on a line.
fn append_polynomials<F: TextField>(out: &mut Writer<'_>, divided: &[F], published: &[F])
    requires narrow { F.width * (length divided.now + 1) ≤ 2048 }
    requires same { length published.now ≡ length divided.now + 1 }
    requires few { length published.now ≤ 2048 }
    requires room { 28700 ≤ length (rest out.old) }
    ensures { Appended out.old (elements_line (codes "quotient") (map F.coordinates divided.now) ++ elements_line (codes "public") (map F.coordinates published.now)) out.new }
{
    append_line(out, b"quotient", divided);
    append_line(out, b"public", published);
}

// The text of a sheet: its numbers, then the two polynomials or the row that fails. Its buffers are parameters, since a proof names a lent
// slice by its parameter.
fn tell_within<F: TextField>(
    head: &Head,
    entries: &[Entry<F>],
    values: &[F],
    divided: &mut [F],
    published: &mut [F],
    work: &mut [F],
    out: &mut Writer<'_>,
)
    requires root { head.now.log_n ≤ F.ops.adicity }
    requires divided { length divided.old ≡ head.now.n - 1 }
    requires published { length published.old ≡ head.now.n }
    requires work { length work.old ≡ head.now.columns + 4 * head.now.n }
    requires room { text_room ≤ length (rest out.old) }
    ensures { TellsModel F.ops F.coordinates F.prime F.DOUBLINGS (sheet head.now entries.now values.now) out.old out.new }
{
    append_sheet(out, F::prime(), F::DOUBLINGS, head);
    match quotient(head, entries, values, divided, work) {
        Ok(()) => {
            // granted wherever the quotient is
            let _ = public(head, values, published);
            append_polynomials(out, divided, published);
        }
        Err(e) => append_refusal(out, e),
    }
}

// The same, with buffers of the largest lengths: n is at most 2048, and M at most 2048 + 2 · 256 + 512.
pub(crate) fn tell_sheet<F: TextField>(
    head: &Head,
    entries: &[Entry<F>],
    values: &[F],
    out: &mut Writer<'_>,
)
    requires root { head.now.log_n ≤ F.ops.adicity }
    requires room { text_room ≤ length (rest out.old) }
    ensures { TellsModel F.ops F.coordinates F.prime F.DOUBLINGS (sheet head.now entries.now values.now) out.old out.new }
{
    let mut divided = [F::zero(); 2047];
    let mut published = [F::zero(); 2048];
    let mut work = [F::zero(); 11264];
    let n = head.n();
    let divided = &mut divided[..n - 1];
    let published = &mut published[..n];
    let work = &mut work[..head.columns() + 4 * n];
    tell_within(head, entries, values, divided, published, work, out);
}

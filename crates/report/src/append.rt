// Numbers in decimal.
ghost use Rattle.std.specs.Prelude.{◌≤◌, length, decimal};
ghost use Rattle.writing.specs.Written.{rest};
ghost use Rattle.report.specs.Text.{Appended};

use writing::writer::Writer;

// A number without leading zeros.
pub(crate) fn append_number(out: &mut Writer<'_>, v: u64)
    requires { length (decimal v) ≤ length (rest out.old) }
    ensures { Appended out.old (decimal v) out.new }
{
    if v < 10 {
        return out.put(&[b'0' + v as u8]);
    }
    append_number(out, v / 10);
    out.put(&[b'0' + (v % 10) as u8]);
}

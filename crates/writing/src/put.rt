// Bytes put over a part of a lent buffer. Where they do not fit, nothing is changed.
ghost use Rattle.std.specs.Prelude.{◌+◌, ◌*◌, ◌≤◌, length};
ghost use Rattle.writing.specs.Put.{Put, Puts};
ghost use Rattle.writing.specs.Plain.{number_bytes};

use crate::plain::number_of;
use field::field::Field;
use field::file_field::FileField;

// The bytes from a place on, with no test of the room, for callers that have asked for it.
#[inline(always)]
pub(crate) fn put_inside(out: &mut [u8], at: usize, bytes: &[u8])
    requires { at + length bytes.now ≤ length out.old }
    ensures { Put out.old at bytes.now out.new }
{
    out[at..at + bytes.len()].copy_from_slice(bytes);
}

// The numbers of elements from a place on, likewise.
pub(crate) fn put_numbers<F: FileField>(out: &mut [u8], at: usize, values: &[F])
    requires { at + 8 * length values.now ≤ length out.old }
    ensures { Put out.old at (number_bytes F.ops F.prime values.now) out.new }
{
    for (i, x) in values.iter().enumerate() {
        put_inside(out, at + 8 * i, &number_of(*x).to_le_bytes());
    }
}

// The bytes from a place on.
pub fn put(out: &mut [u8], at: usize, bytes: &[u8])
    ensures { Puts out.old at (length bytes.now) bytes.now out.new }
{
    if at <= out.len() && out.len() - at >= bytes.len() {
        put_inside(out, at, bytes);
    }
}

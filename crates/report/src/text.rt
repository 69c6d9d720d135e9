// The text call: from the bytes of two files to the text that the program prints.
ghost use Rattle.std.specs.Prelude.{◌≡◌, ◌≤◌, ◌++◌, length, drop, None, nat_le};
ghost use Rattle.refusal.specs.Due.{Decided, unless};
ghost use Rattle.writing.specs.Written.{rest};
ghost use Rattle.report.specs.Outcome.{Renders, Tells};
ghost use Rattle.report.specs.Means.{text_room, Means, Written};

use crate::choice::tell_reader;
use crate::circuit::LONGEST;
use crate::survey::append_refusal;
use refusal::reason::Refusal;
use refusal::refused::Refused;
use solving::open::open_known;
use writing::writer::Writer;

// A buffer of so many bytes has room for every text.
pub const TEXT_ROOM: usize = 32768;

// The text of two files, unless one of them is refused. The room is asked for here and not kept by the writer, since it shrinks.
fn tell_files(circuit: &[u8], witness: &[u8], out: &mut Writer<'_>) -> Result<(), Refused>
    requires { text_room ≤ length (rest out.old) }
    ensures { Tells (Means circuit.now witness.now) out.old result out.new }
{
    if circuit.len() > LONGEST {
        return Err(Refusal::WrongLength.at(0));
    }
    tell_reader(open_known(circuit)?, witness, out)
}

// The same, where a refusal is told too.
fn compose(circuit: &[u8], witness: &[u8], out: &mut Writer<'_>)
    requires { text_room ≤ length (rest out.old) }
    ensures { Renders (Means circuit.now witness.now) out.old out.new }
{
    if let Err(e) = tell_files(circuit, witness, out) {
        append_refusal(out, e);
    }
}

// A text copied to the front of a buffer, where it fits.
fn deliver(text: &[u8], out: &mut [u8]) -> Result<usize, Refused>
    ensures { Decided (unless (nat_le (length text.now) (length out.old)) 13 None) result (λ n. (n ≡ length text.now) × (out.new ≡ text.now ++ drop n out.old)) (out.new ≡ out.old) }
{
    let size = text.len();
    if size > out.len() {
        return Err(Refusal::BufferTooShort.at(0));
    }
    out[..size].copy_from_slice(text);
    Ok(size)
}

// Writes the text that tells what two files say, and answers its length; nothing beyond it is changed. Refused, and nothing changed, where
// the buffer is shorter than the text, which a buffer of TEXT_ROOM bytes never is.
pub fn text(circuit: &[u8], witness: &[u8], out: &mut [u8]) -> Result<usize, Refused>
    ensures { Written circuit.now witness.now out.old result out.new }
{
    let mut buffer = [0; TEXT_ROOM];
    let mut writer = Writer::new(&mut buffer);
    compose(circuit, witness, &mut writer);
    deliver(writer.written(), out)
}

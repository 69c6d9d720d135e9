// The file: its start, and its three sections.
ghost use Rattle.std.specs.Prelude.{◌≡◌, ◌^◌, ◌<◌, ◌≤◌, List, ◌++◌, length, drop};
ghost use Rattle.writing.specs.Written.{Fills};
ghost use Rattle.constraints.specs.Circuit.{Line, header_bytes};
ghost use Rattle.square_file.specs.Programs.{rows, file};

use crate::bytes::put_labels;
use crate::program::Program;
use field::field::Field;
use field::file_field::FileField;
use frames::format::CONSTRAINTS;
use frames::section::{BODY, HEADER, LABELS};
use writing::writer::Writer;

// The numbers of the header: no outputs, no private inputs, and a label for each wire.
fn put_header(w: &mut Writer<'_>, prime: u64, wires: u32, inputs: u32, rows: u32)
    ensures { (ls : List Line) → length ls ≡ rows → Fills w.old (header_bytes (record { prime = prime; wires = wires; outputs = 0; inputs = inputs; private = 0; labels = wires; rows = ls })) w.new }
{
    w.put_word(8);
    w.put_long(prime);
    w.put_word(wires);
    w.put_word(0);
    w.put_word(inputs);
    w.put_word(0);
    w.put_long(wires as u64);
    w.put_word(rows);
}

impl<F: FileField> Program<'_, F> {
    // The whole file, whose rows take so many bytes.
    pub(crate) fn put_file(&self, w: &mut Writer<'_>, size: usize)
        requires { size ≡ length (rows F.ops F.prime self.now) }
        ensures file { Fills w.old (file F.ops F.prime self.now) w.new }
        ensures small { F.prime < 2 ^ 64 }
    {
        let wires = self.head.columns();
        let inputs = self.head.publics() - 1;
        w.put_start(CONSTRAINTS, 3);
        w.put_head(HEADER, 40);
        put_header(
            w,
            F::prime(),
            wires as u32,
            inputs as u32,
            self.head.n() as u32,
        );
        w.put_head(BODY, size);
        self.put_rows(w);
        w.put_head(LABELS, 8 * wires);
        put_labels(w, wires);
    }

    // The same, at the front of a buffer.
    pub(crate) fn write(&self, out: &mut [u8], size: usize)
        requires size { size ≡ length (rows F.ops F.prime self.now) }
        requires room { length (file F.ops F.prime self.now) ≤ length out.old }
        ensures file { out.new ≡ file F.ops F.prime self.now ++ drop (length (file F.ops F.prime self.now)) out.old }
        ensures small { F.prime < 2 ^ 64 }
    {
        self.put_file(&mut Writer::new(out), size);
    }
}

// How answers, elements and bytes are printed.
use field::file_field::FileField;
use std::fmt;

// Elements, each behind a space, by their coordinates, which commas join: no field here has more than four. Each of two
// programs has its own: one for both would be a library's, with a contract that neither needs, which is no plainer.
#[derive(Clone, Copy)]
pub(crate) struct Elements<'a, F>(pub(crate) &'a [F]);

impl<'a, F: FileField> fmt::Display for Elements<'a, F> {
    fn fmt<W: fmt::Write>(&self, f: &mut fmt::Formatter<W>) -> fmt::Result {
        for x in self.0 {
            let mut before = ' ';
            for i in 0..4 {
                if let Some(c) = x.coordinate(i) {
                    write!(f, "{before}{c}")?;
                    before = ',';
                }
            }
        }
        Ok(())
    }
}

// Bytes in hexadecimal.
#[derive(Clone, Copy)]
pub(crate) struct Hex<'a>(pub(crate) &'a [u8]);

impl<'a> fmt::Display for Hex<'a> {
    fn fmt<W: fmt::Write>(&self, f: &mut fmt::Formatter<W>) -> fmt::Result {
        for b in self.0 {
            let b = *b;
            write!(f, "{b:02x}")?;
        }
        Ok(())
    }
}

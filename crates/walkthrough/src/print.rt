// How answers and elements are printed.
use field::file_field::FileField;
use refusal::answer::Answer;
use refusal::refused::Refused;
use std::{fmt, io};

// What a call answered.
pub(crate) fn tell(rt: &impl Print, what: &str, answer: Result<(), Refused>) -> io::Result<()> {
    let answer = Answer(answer);
    println!(rt; "{what}: {answer}")
}

// Elements, each behind a space, by their coordinates, which commas join: no field here has more than two. Each of two
// programs has its own: one for both would be a library's, with a contract that neither needs, which is no plainer.
#[derive(Clone, Copy)]
struct Elements<'a, F>(&'a [F]);

impl<'a, F: FileField> fmt::Display for Elements<'a, F> {
    fn fmt<W: fmt::Write>(&self, f: &mut fmt::Formatter<W>) -> fmt::Result {
        for x in self.0 {
            match (x.coordinate(0), x.coordinate(1)) {
                (Some(a), Some(b)) => write!(f, " {a},{b}")?,
                (Some(a), None) => write!(f, " {a}")?,
                (None, _) => write!(f, " ?")?,
            }
        }
        Ok(())
    }
}

pub(crate) fn show<F: FileField>(rt: &impl Print, what: &str, xs: &[F]) -> io::Result<()> {
    let elements = Elements(xs);
    println!(rt; "{what}:{elements}")
}

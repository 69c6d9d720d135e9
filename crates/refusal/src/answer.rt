// What a call answered that hands nothing back, for printing.
ghost use Rattle.std.specs.Prelude.{Some};
ghost use Rattle.refusal.specs.Printed.{answer_text};

use crate::refused::Refused;
use std::fmt;

#[derive(Clone, Copy, PartialEq, Eq, Debug)]
pub struct Answer(pub Result<(), Refused>);

impl fmt::Display for Answer {
    ghost output = { λ a. Some (answer_text a.0) };

    fn fmt<W: fmt::Write>(&self, f: &mut fmt::Formatter<W>) -> fmt::Result {
        match self.0 {
            Ok(()) => write!(f, "granted"),
            Err(refused) => write!(f, "{refused}"),
        }
    }
}

// What a case asks.
use crate::case::Malformed;

#[derive(Clone, Copy)]
pub(crate) enum Kind {
    // a constraint file, opened
    Circuit,
    // what is answered over a field that the case names
    Over(Question),
    // the text of two files
    Text,
}

#[derive(Clone, Copy)]
pub(crate) enum Question {
    // an assignment file, read into a table
    Assignment,
    // a list of calls over a sheet
    Survey,
    // values, written as an assignment file
    Values,
    // a square program, written as a constraint file
    Program,
}

impl TryFrom<u32> for Kind {
    type Error = Malformed;

    fn try_from(number: u32) -> Result<Kind, Malformed> {
        match number {
            1 => Ok(Kind::Circuit),
            2 => Ok(Kind::Over(Question::Assignment)),
            3 => Ok(Kind::Over(Question::Survey)),
            4 => Ok(Kind::Over(Question::Values)),
            5 => Ok(Kind::Over(Question::Program)),
            6 => Ok(Kind::Text),
            _ => Err(Malformed),
        }
    }
}

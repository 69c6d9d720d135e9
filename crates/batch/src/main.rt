// Answers a file of cases, one line for each, so that another program can compare the answers with its own.
// A case is its kind, the size of its payload (4 bytes each) and the payload; tests/reference/cases.py writes such files.
#![tactic(auto)]

mod assignment;
mod calls;
mod case;
mod circuit;
mod fields;
mod kind;
mod print;
mod program;
mod survey;
mod text;
mod values;

use case::Case;
use kind::Kind;
use std::{env, fs, io};

fn answer(rt: &HostRuntime, kind: Kind, case: Case<'_>) -> io::Result<()> {
    match kind {
        Kind::Circuit => circuit::answer(rt, case),
        Kind::Text => text::answer(rt, case),
        Kind::Over(question) => fields::answer(rt, question, case),
    }
}

// A case takes at least a byte, so there are no more of them than bytes: the loop ends by that, with no measure of what is left.
fn answer_all(rt: &HostRuntime, bytes: &[u8]) -> io::Result<()> {
    let mut cases = Case::new(bytes);
    for _ in bytes {
        if cases.is_empty() {
            break;
        }
        let kind = Kind::try_from(cases.word()?)?;
        let size = cases.length()?;
        let payload = cases.part(size)?;
        answer(rt, kind, Case::new(payload))?;
    }
    Ok(())
}

// Without an argument there is nothing to answer.
fn main(rt: HostRuntime) -> io::Result<()> {
    let mut args = env::args(&rt)?;
    let Some(path) = args.nth(1) else {
        return Ok(());
    };
    let bytes = fs::read(&rt, path.as_str())?;
    answer_all(&rt, &bytes)
}

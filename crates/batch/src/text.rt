// The text of two files, on one line.
use crate::case::Case;
use report::text::text;
use std::io;
use std::io::Write;

// Shows the end of each line as a bar.
fn join_lines(text: &mut [u8]) {
    for b in text.iter_mut() {
        if *b == b'\n' {
            *b = b'|';
        }
    }
}

// The room for the text, the length of the constraint file, and both files.
pub(crate) fn answer(rt: &HostRuntime, mut case: Case<'_>) -> io::Result<()> {
    let room = case.length()?;
    let size = case.length()?;
    let circuit = case.part(size)?;
    let mut out = vec![in rt.alloc(); 170u8; room]?;
    match text(circuit, case.rest(), &mut out) {
        Ok(size) => {
            join_lines(&mut out[0..size]);
            rt.stdout().write_all(&out[0..size])?;
            println!(rt; "")
        }
        Err(e) => println!(rt; "{e}"),
    }
}

// A constraint file, opened over a given prime; its numbers and its rows.
use crate::case::Case;
use constraints::header::Header;
use constraints::item::reader::ItemReader;
use constraints::reader::{RowReader, open};
use std::io;

fn print_header(rt: &impl Print, h: Header) -> io::Result<()> {
    print!(rt;
        "granted {} {} {} {} {} {} {}",
        h.prime, h.wires, h.outputs, h.inputs, h.private, h.labels, h.rows
    )
}

fn print_list(rt: &impl Print, part: &[u8]) -> io::Result<()> {
    for item in ItemReader::new(part) {
        print!(rt; " {}:{}", item.wire, item.coefficient)?;
    }
    print!(rt; ";")
}

// As many rows as the header says, then what the reader hands out once more: none.
fn print_rows(rt: &impl Print, mut reader: RowReader<'_>) -> io::Result<()> {
    for _ in 0..reader.header().rows {
        let Some(row) = reader.next() else {
            return print!(rt; " missing");
        };
        print!(rt; " |")?;
        print_list(rt, row.a)?;
        print_list(rt, row.b)?;
        print_list(rt, row.c)?;
    }
    if reader.next().is_some() {
        print!(rt; " more")?;
    }
    reader.end();
    Ok(())
}

// A file's numbers and rows, or why it is refused.
pub(crate) fn print_opened(rt: &impl Print, bytes: &[u8], prime: u64) -> io::Result<()> {
    match open(bytes, prime) {
        Ok(reader) => {
            print_header(rt, reader.header())?;
            print_rows(rt, reader)
        }
        Err(e) => print!(rt; "{e}"),
    }
}

// The prime, then the file.
pub(crate) fn answer(rt: &HostRuntime, mut case: Case<'_>) -> io::Result<()> {
    let prime = case.long()?;
    print_opened(rt, case.rest(), prime)?;
    println!(rt; "")
}

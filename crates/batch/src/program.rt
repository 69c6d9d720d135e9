// The square program of a sheet, written as a constraint file and read back.
use crate::case::Case;
use crate::circuit::print_opened;
use crate::print::Hex;
use field::file_field::FileField;
use sheet::entry::Entry;
use sheet::head::Head;
use sheet::head::calls::{TABLE_SIZE, enter, plan};
use square_file::writer::write_program;
use std::io;

// Enters each of the list, as far as it is granted.
fn enter_all<F: FileField>(head: &mut Head, table: &mut [Entry<F>], list: &[Entry<F>]) {
    for e in list {
        let _ = enter(head, table, e.matrix, e.row, e.wire, e.coefficient);
    }
}

// Puts the list over the first places of the table, whatever they hold.
fn lay_over<F: FileField>(table: &mut [Entry<F>], list: &[Entry<F>]) {
    for (place, e) in table.iter_mut().zip(list) {
        *place = *e;
    }
}

// The file's length, the whole buffer, which has so many places, and what reading the file gives.
fn print_file<F: FileField>(
    rt: &HostRuntime,
    head: &Head,
    table: &[Entry<F>],
    room: usize,
) -> io::Result<()> {
    let mut out = vec![in rt.alloc(); 170u8; room]?;
    match write_program(head, table, &mut out) {
        Ok(size) => {
            let bytes = Hex(&out);
            print!(rt; "granted {size} {bytes} ")?;
            print_opened(rt, &out[0..size], F::prime())
        }
        Err(e) => print!(rt; "{e}"),
    }
}

// The sheet's numbers, the places of the table that is lent, the room for the file, and two lists of entries, how many first: those that
// are entered into a table of the stated length, and those that are laid over its first places.
pub(crate) fn answer<F: FileField>(rt: &HostRuntime, mut case: Case<'_>) -> io::Result<()> {
    let counts = case.counts()?;
    let places = case.length()?;
    let room = case.length()?;
    let entered_count = case.length()?;
    let laid_count = case.length()?;
    let entered = case.list(rt.alloc(), entered_count, |c| c.entry::<F>())?;
    let laid = case.list(rt.alloc(), laid_count, |c| c.entry::<F>())?;
    case.end()?;
    let blank = Entry::<F>::blank();
    match plan::<F>(counts) {
        Ok(mut head) => {
            let mut table = vec![in rt.alloc(); blank; TABLE_SIZE]?;
            enter_all(&mut head, &mut table, &entered);
            lay_over(&mut table, &laid);
            let mut lent = vec![in rt.alloc(); blank; places]?;
            lay_over(&mut lent, &table);
            print_file(rt, &head, &lent, room)?;
        }
        Err(e) => print!(rt; "{e}")?,
    }
    println!(rt; "")
}

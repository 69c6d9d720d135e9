// Values of a square program's wires, written as an assignment file.
use crate::case::Case;
use crate::print::Hex;
use field::file_field::FileField;
use sheet::head::Head;
use sheet::head::calls::plan;
use std::io;
use value_file::writer::write_values;

// The file's length and the whole buffer, which has so many places.
fn print_file<F: FileField>(
    rt: &HostRuntime,
    head: &Head,
    values: &[F],
    room: usize,
) -> io::Result<()> {
    let mut out = vec![in rt.alloc(); 170u8; room]?;
    match write_values(head, values, &mut out) {
        Ok(size) => {
            let bytes = Hex(&out);
            println!(rt; "granted {size} {bytes}")
        }
        Err(e) => println!(rt; "{e}"),
    }
}

// The sheet's numbers, the room for the file, and the values, how many first.
pub(crate) fn answer<F: FileField>(rt: &HostRuntime, mut case: Case<'_>) -> io::Result<()> {
    let counts = case.counts()?;
    let room = case.length()?;
    let count = case.length()?;
    let values = case.list(rt.alloc(), count, |c| c.element::<F>())?;
    case.end()?;
    match plan::<F>(counts) {
        Ok(head) => print_file(rt, &head, &values, room),
        Err(e) => println!(rt; "{e}"),
    }
}

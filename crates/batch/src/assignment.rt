// An assignment file, read into a table of a given length; its values.
use crate::case::Case;
use crate::print::Elements;
use assignments::reader::read;
use field::field::Field;
use field::file_field::FileField;
use std::io;

// The table's length, then the file.
pub(crate) fn answer<F: FileField>(rt: &HostRuntime, mut case: Case<'_>) -> io::Result<()> {
    let places = case.length()?;
    let mut table = vec![in rt.alloc(); F::zero(); places]?;
    match read(case.rest(), &mut table) {
        Ok(()) => {
            let values = Elements(&table);
            println!(rt; "granted{values}")
        }
        Err(e) => println!(rt; "{e}"),
    }
}

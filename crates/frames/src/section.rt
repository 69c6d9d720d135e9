// The kinds of sections: the header, the rows or the values, and the labels of a constraint file.
pub const HEADER: u32 = 1;

pub const BODY: u32 = 2;

pub const LABELS: u32 = 3;

// A section as its kind tells it apart, with its payload borrowed from the file.
#[derive(Clone, Copy)]
pub enum Section<'a> {
    Header(&'a [u8]),
    // the rows of a constraint file, the values of an assignment file
    Body(&'a [u8]),
    // passed over; its kind may be any number, so it stays one
    Other { kind: u32, bytes: &'a [u8] },
}

// What tells the two kinds of files apart: the four bytes that they begin with, as a number, and a version.
#[derive(Clone, Copy, PartialEq, Eq, Debug)]
pub struct Format {
    pub magic: u32,
    pub version: u32,
}

// The bytes 72 31 63 73.
pub const CONSTRAINTS: Format = Format {
    magic: 0x7363_3172,
    version: 1,
};

// The bytes 77 74 6E 73.
pub const ASSIGNMENTS: Format = Format {
    magic: 0x736E_7477,
    version: 2,
};

// The numbers that a sheet is made of: m wires, l of them public, and N product rows. They may lie outside the limits; `make` refuses such.
#[derive(Clone, Copy, PartialEq, Eq, Debug)]
pub struct Counts {
    pub wires: u32,
    pub publics: u32,
    pub rows: u32,
}

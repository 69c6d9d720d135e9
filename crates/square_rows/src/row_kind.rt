// What a row of the square program says: of which public wire, or of which product row.
#[derive(Clone, Copy)]
pub enum RowKind {
    PublicPlus(usize),
    PublicMinus(usize),
    RowMinus(u32),
    RowPlus(u32),
    Empty,
}

// The A-sum, B-sum and C-sum of a product row.
#[derive(Clone, Copy)]
pub struct RowSums<F> {
    pub a: F,
    pub b: F,
    pub c: F,
}

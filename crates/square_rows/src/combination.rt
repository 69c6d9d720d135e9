// One side of a row. In a file of its own, since definitions name it.
use crate::term::Term;

// Two terms of its own, and the entries of a product row, each matrix with a factor: there p_j - q_j stands for public wire j.
#[derive(Clone, Copy)]
pub struct Combination<F> {
    first: Term<F>,
    second: Term<F>,
    row: u32,
    a: F,
    b: F,
    c: F,
}

pub mod sides;
pub mod terms;

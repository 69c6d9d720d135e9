// a + bθ, where θ² is the top of the field below. In a file of its own, since specs/ names it.
#[derive(Clone, Copy, PartialEq, Eq, Debug)]
pub struct Quadratic<F> {
    pub a: F,
    pub b: F,
}

pub mod file;
pub mod ops;

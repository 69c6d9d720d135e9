// The terms of a combination, one after another. In a file of its own, since definitions name it.
use crate::combination::Combination;
use sheet::entry::Entry;
use sheet::head::Head;

// Those from wire `from` on, by a sheet's entries.
#[derive(Drop)]
pub struct Terms<'a, F> {
    head: &'a Head,
    used: &'a [Entry<F>],
    combination: &'a Combination<F>,
    from: usize,
}

pub mod scan;

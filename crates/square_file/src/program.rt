// A square program to be written: of a sheet and its used entries. In a file of its own, since definitions name it.
use sheet::entry::Entry;
use sheet::head::Head;

#[derive(Drop)]
pub struct Program<'a, F> {
    pub(crate) head: &'a Head,
    pub(crate) used: &'a [Entry<F>],
}

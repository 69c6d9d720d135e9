// A row: the items of its three lists, as they stand in the file.
#[derive(Clone, Copy)]
pub struct Row<'a> {
    pub a: &'a [u8],
    pub b: &'a [u8],
    pub c: &'a [u8],
}

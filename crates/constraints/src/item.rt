// The bytes of an item: a wire of 4 and a coefficient of 8.
pub const ITEM_SIZE: usize = 12;

// An item of a list: a wire and its coefficient.
#[derive(Clone, Copy)]
pub struct Item {
    pub wire: u32,
    pub coefficient: u64,
}

pub mod reader;

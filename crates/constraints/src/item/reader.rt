// The items of a part that a row handed out, one after another.
ghost use Rattle.std.specs.Prelude.{◌≡◌, ◌/◌, length};
ghost use Rattle.std.specs.Iterator.{at_most};
ghost use Rattle.constraints.specs.Reader.{HandsItem};

use crate::item::Item;
use frames::number::pair;

#[derive(Drop)]
pub struct ItemReader<'a> {
    rest: &'a [u8],
}

impl<'a> ItemReader<'a> {
    pub fn new(part: &'a [u8]) -> ItemReader<'a>
        ensures { result.rest.now ≡ part.now }
    {
        ItemReader { rest: part }
    }
}

impl Iterator for ItemReader<'_> {
    type Item = Item;

    ghost next_gives = { HandsItem };

    ghost remaining = { λ s. at_most (length s.rest.now / 12) };

    fn next(&mut self) -> Option<Item> {
        let (wire, coefficient, rest) = pair(self.rest)?;
        self.rest = rest;
        Some(Item { wire, coefficient })
    }
}

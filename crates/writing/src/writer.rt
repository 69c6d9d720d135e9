// A lent buffer that is written from its front on. In a file of its own, since specs/ names it.
ghost use Rattle.std.specs.Prelude.{◌≤◌, length};

#[derive(Drop)]
pub struct Writer<'a> {
    buffer: &'a mut [u8],
    // how much of it is written
    len: usize,
    ghost inside: { len ≤ length buffer.now },
}

pub mod append;

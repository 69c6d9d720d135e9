// A number below P. In a file of its own, since what its ghost field imports may not name it.
ghost use Rattle.std.specs.Prelude.{◌<◌};

#[derive(Clone, Copy, PartialEq, Eq, Debug)]
pub struct Residue<const P: u32> {
    value: u32,
    ghost below: { value < P },
}

pub mod file;
pub mod ops;

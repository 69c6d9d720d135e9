// The numbers of a constraint file's header.
ghost use Rattle.std.specs.Prelude.{◌≡◌, ◌+◌};

#[derive(Clone, Copy)]
pub struct Header {
    pub prime: u64,
    pub wires: u32,
    pub outputs: u32,
    pub inputs: u32,
    pub private: u32,
    pub labels: u64,
    pub rows: u32,
}

impl Header {
    // The public wires: the constant one, the outputs and the inputs.
    pub fn public(self) -> u64
        ensures { result ≡ 1 + self.outputs + self.inputs }
    {
        1 + self.outputs as u64 + self.inputs as u64
    }
}

// What a head tells of itself.
ghost use Rattle.std.specs.Prelude.{◌≡◌, ◌+◌, ◌*◌, ◌^◌};
ghost use Rattle.sheet.specs.Shape.{LeastPower};

use crate::head::Head;

impl Head {
    // m: how many wires there are
    pub fn wires(&self) -> usize
        ensures { result ≡ self.now.wires }
    {
        self.wires
    }

    // l: how many of them, from wire 0 on, are public
    pub fn publics(&self) -> usize
        ensures { result ≡ self.now.publics }
    {
        self.publics
    }

    // N: how many product rows there are
    pub fn rows(&self) -> usize
        ensures { result ≡ self.now.rows }
    {
        self.rows
    }

    // k: the least power of two that is at least 2 l
    pub fn k(&self) -> usize
        ensures is { result ≡ self.now.k }
        ensures least { LeastPower (2 * self.now.publics) result }
    {
        self.k
    }

    // n: the least power of two that is at least k + 2 N
    pub fn n(&self) -> usize
        ensures is { result ≡ self.now.n }
        ensures least { LeastPower (self.now.k + 2 * self.now.rows) result }
    {
        self.n
    }

    // the exponent of n
    pub fn log_n(&self) -> u32
        ensures is { result ≡ self.now.log_n }
        ensures power { self.now.n ≡ 2 ^ result }
    {
        self.log_n
    }

    // M = m + 2 l + N: how many wires the square program has
    pub fn columns(&self) -> usize
        ensures is { result ≡ self.now.columns }
        ensures sum { result ≡ self.now.wires + 2 * self.now.publics + self.now.rows }
    {
        self.columns
    }

    // how many entries are used
    pub fn used(&self) -> usize
        ensures { result ≡ self.now.used }
    {
        self.used
    }
}

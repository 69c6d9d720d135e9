// The field of 12289 elements. 11 generates all but zero, so they multiply as their logarithms add.
ghost use Rattle.std.specs.Prelude.{◌≡◌, ◌-◌, ◌*◌, ◌%◌, ◌^◌, MatchOption};
ghost use Rattle.std.proofs.Common.{lit<, lit≤};
ghost use Rattle.modular.specs.Laws12289.{arithmetic12289};

use crate::prime::Prime;
use crate::residue::Residue;
use powers::{log, power};

pub type F12289 = Residue<12289>;

impl Prime<12289> for F12289 {
    ghost positive = { lit< tt };

    ghost fits = { lit≤ tt };

    ghost TOP = { 1331 };

    ghost adicity = { 12 };

    ghost arithmetic = { arithmetic12289 };

    const TOP: u32 = 1331;

    fn product(x: F12289, y: F12289) -> u32
        ensures { result ≡ (x.value * y.value) % 12289 }
    {
        match (log(x.value()), log(y.value())) {
            (Some(i), Some(j)) => power(i + j),
            (None, _) | (_, None) => 0,
        }
    }

    // 12288 is the order of 11.
    fn inverse(x: F12289) -> Option<u32>
        ensures { MatchOption result (x.value ≡ 0) (λ y. (¬ (x.value ≡ 0)) × (y ≡ x.value ^ (12289 - 2) % 12289)) }
    {
        Some(power(12288 - log(x.value())?))
    }

    // The top is the cube of 11.
    fn root(e: u32) -> Option<u32> {
        if e <= 12 {
            Some(power(3 << (12 - e)))
        } else {
            None
        }
    }
}

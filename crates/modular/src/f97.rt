// The field of 97 elements, whose products are found modulo 97, and inverses and roots of one in tables.
ghost use Rattle.std.specs.Prelude.{◌≡◌, ◌-◌, ◌*◌, ◌%◌, ◌^◌, MatchOption};
ghost use Rattle.std.proofs.Common.{lit<, lit≤};
ghost use Rattle.modular.specs.Laws97.{arithmetic97};

use crate::prime::Prime;
use crate::residue::Residue;

pub type F97 = Residue<97>;

// What each element is multiplied by to make 1; 0 at 0.
#[rattlefmt::skip]
const INVERSES: [u32; 97] = [
    0, 1, 49, 65, 73, 39, 81, 14, 85, 54, 68, 53, 89, 15, 7, 13, 91, 40, 27, 46, 34, 37, 75, 38, 93, 66, 56, 18, 52, 87, 55, 72, 94,
    50, 20, 61, 62, 21, 23, 5, 17, 71, 67, 88, 86, 69, 19, 64, 95, 2, 33, 78, 28, 11, 9, 30, 26, 80, 92, 74, 76, 35, 36, 77, 47, 3,
    25, 42, 10, 45, 79, 41, 31, 4, 59, 22, 60, 63, 51, 70, 57, 6, 84, 90, 82, 8, 44, 29, 43, 12, 83, 16, 58, 24, 32, 48, 96,
];

// The roots of one of the orders 1, 2, 4, .., 32: each is the square of the next.
const ROOTS: [u32; 6] = [1, 96, 22, 64, 8, 28];

impl Prime<97> for F97 {
    ghost positive = { lit< tt };

    ghost fits = { lit≤ tt };

    ghost TOP = { 28 };

    ghost adicity = { 5 };

    ghost arithmetic = { arithmetic97 };

    const TOP: u32 = 28;

    fn product(x: F97, y: F97) -> u32
        ensures { result ≡ (x.value * y.value) % 97 }
    {
        x.value() * y.value() % 97
    }

    fn inverse(x: F97) -> Option<u32>
        ensures { MatchOption result (x.value ≡ 0) (λ y. (¬ (x.value ≡ 0)) × (y ≡ x.value ^ (97 - 2) % 97)) }
    {
        let x = x.value();
        if x == 0 {
            None
        } else {
            Some(INVERSES[x as usize])
        }
    }

    fn root(e: u32) -> Option<u32> {
        ROOTS.get(e as usize).copied()
    }
}

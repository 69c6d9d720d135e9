// What differs from one prime field to the next: how products, inverses and roots of one are found.
ghost use Rattle.std.specs.Prelude.{◌≡◌, ℕ, ◌-◌, ◌*◌, ◌%◌, ◌^◌, ◌<◌, ◌≤◌, MatchOption};
ghost use Rattle.modular.specs.Arithmetic.{Arithmetic};

use crate::residue::Residue;

// Arithmetic modulo P on the numbers below P.
pub trait Prime<const P: u32> {
    ghost positive: { 0 < P };

    // so that sums fit
    ghost fits: { P ≤ 2 ^ 31 };

    // the number of the element whose powers are the largest subgroup of 2-power order that we use, of the order 2 ^ adicity
    ghost TOP: { ℕ };

    ghost adicity: { ℕ };

    ghost arithmetic: { Arithmetic P TOP adicity };

    const TOP: u32;

    fn product(x: Residue<P>, y: Residue<P>) -> u32
        ensures { result ≡ (x.entry.value * y.entry.value) % P };

    // None for zero, which has no inverse
    fn inverse(x: Residue<P>) -> Option<u32>
        ensures { MatchOption result (x.entry.value ≡ 0) (λ y. (¬ (x.entry.value ≡ 0)) × (y ≡ x.entry.value ^ (P - 2) % P)) };

    // The chosen root of one of the order 2^e, where there is one.
    fn root(e: u32) -> Option<u32>
        ensures { MatchOption result (adicity < e) (λ w. (e ≤ adicity) × (w ≡ TOP ^ (2 ^ (adicity - e)) % P)) };
}

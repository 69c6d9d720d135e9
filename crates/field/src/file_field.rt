// A field whose elements can stand in files, as numbers below a prime.
ghost use Rattle.std.specs.Prelude.{◌≡◌, ℕ, ◌<◌, ◌≤◌, List, length, IfSome, MatchOption, slice_index};
ghost use Rattle.field.specs.Operations.{ones};

use crate::field::Field;

pub trait FileField: Field {
    // the characteristic
    ghost prime: { ℕ };

    // how many coordinates an element has over the prime field
    ghost width: { ℕ };

    ghost coordinates: { Self → List ℕ };

    // `vanishes` and `distinct` make the prime the characteristic: its multiple of one is the first to come round to zero.
    fn prime() -> u64
        ensures value { result ≡ prime }
        ensures vanishes { ones Self.ops prime ≡ Self.ops.zero }
        ensures distinct { (u v : ℕ) → u < prime → v < prime → ones Self.ops u ≡ ones Self.ops v → u ≡ v };

    // The v-fold sum of one; None where v is not below the prime.
    fn element(v: u64) -> Option<Self>
        ensures { MatchOption result (prime ≤ v) (λ x. (v < prime) × (x ≡ ones Self.ops v)) };

    // The number that `element` takes to this element; None outside the prime field.
    fn number(self) -> Option<u64>
        ensures { MatchOption result ((v : ℕ) → ¬ (self ≡ ones Self.ops v)) (λ v. (v < prime) × (self ≡ ones Self.ops v)) };

    // The coordinate i; None from the width on. `complete` and `faithful`: elements are equal exactly when all their coordinates are.
    // `number`: a lone coordinate is the number of the element.
    fn coordinate(self, i: u32) -> Option<u64>
        ensures value { MatchOption result (width ≤ i) (λ c. (i < width) × (c < prime) × (c ≡ slice_index (coordinates self) i)) }
        ensures number { IfSome result (λ c. width ≡ 1 → self ≡ ones Self.ops c) }
        ensures complete { (x : Self) → length (coordinates x) ≡ width }
        ensures faithful { (x y : Self) → coordinates x ≡ coordinates y → x ≡ y };
}

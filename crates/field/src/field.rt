// A field, by its operations and the laws that they keep.
ghost use Rattle.std.specs.Prelude.{◌≡◌, ◌<◌, ◌≤◌, MatchOption};
ghost use Rattle.field.specs.Operations.{Operations, decided, root_of_order};
ghost use Rattle.field.specs.Laws.{Laws};

pub trait Field: Copy {
    // what the functions below compute
    ghost ops: { Operations Self };

    fn zero() -> Self
        ensures { result ≡ ops.zero };

    fn one() -> Self
        ensures { result ≡ ops.one };

    fn add(self, other: Self) -> Self
        ensures { result ≡ ops.add self other };

    fn neg(self) -> Self
        ensures { result ≡ ops.neg self };

    fn mul(self, other: Self) -> Self
        ensures { result ≡ ops.mul self other };

    // None for zero, which has no inverse
    fn inverse(self) -> Option<Self>
        ensures { MatchOption result (self ≡ ops.zero) (λ y. (¬ (self ≡ ops.zero)) × (y ≡ ops.inverse self)) };

    fn same(self, other: Self) -> bool
        ensures { result ≡ decided (ops.same self other) };

    // The element whose powers are the largest subgroup of 2-power order that we use.
    fn top() -> Self
        ensures { result ≡ ops.top };

    // The chosen root of one of the order 2^e, where there is one.
    fn root(e: u32) -> Option<Self>
        ensures { MatchOption result (ops.adicity < e) (λ w. (e ≤ ops.adicity) × (w ≡ root_of_order ops e)) };

    // what every implementation proves of them
    ghost laws: { Laws ops };
}

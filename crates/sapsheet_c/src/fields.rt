// The prime fields that the entry knows.
ghost use Rattle.std.specs.Prelude.{◌≡◌, refl};
ghost use Rattle.std.specs.Allocator.{FitsBlock};
ghost use Rattle.std.proofs.Common.{lit≤};
ghost use Rattle.sheet.specs.contracts.entry.Entry.{the_row};

use field::file_field::FileField;
use modular::f97::F97;
use modular::f12289::F12289;

pub(crate) trait PrimeField: FileField {
    // the lone coordinate of an element is its number
    ghost single: { Self.width ≡ 1 };

    // the largest table and the largest buffer fit in memory
    ghost table: { FitsBlock (the_row Self.row) 2048 };

    ghost buffer: { FitsBlock Self.row 11264 };
}

impl PrimeField for F97 {
    ghost single = { refl };

    ghost table = { lit≤ tt };

    ghost buffer = { lit≤ tt };
}

impl PrimeField for F12289 {
    ghost single = { refl };

    ghost table = { lit≤ tt };

    ghost buffer = { lit≤ tt };
}

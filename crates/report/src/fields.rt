// Fields of which the call tells: those with texts that it has room for.
ghost use Rattle.std.specs.Prelude.{ℕ, ◌*◌, ◌^◌, ◌≤◌, min};
ghost use Rattle.std.specs.Allocator.{FitsBlock};
ghost use Rattle.std.proofs.Common.{lit≤};
ghost use Rattle.sheet.specs.contracts.entry.Entry.{the_row};

use field::field::Field;
use field::file_field::FileField;
use modular::f97::F97;
use modular::f12289::F12289;
use quadratic::quadratic::Quadratic;

pub(crate) trait TextField: FileField {
    // how often the field of its prime is doubled
    ghost DOUBLINGS: { ℕ };

    const DOUBLINGS: u32;

    // a coordinate has at most five digits
    ghost small: { Self.prime ≤ 2 ^ 16 };

    // a polynomial over a subgroup of the field has at most so many coordinates
    ghost narrow: { Self.width * min (2 ^ Self.ops.adicity) 2048 ≤ 2048 };

    // the largest table and the largest buffer fit in memory; the C entry says so of its own fields, as no crate below both knows any
    ghost table: { FitsBlock (the_row Self.row) 2048 };

    ghost buffer: { FitsBlock Self.row 11264 };
}

impl TextField for F97 {
    ghost DOUBLINGS = { 0 };

    const DOUBLINGS: u32 = 0;

    ghost small = { lit≤ tt };

    ghost narrow = { lit≤ tt };

    ghost table = { lit≤ tt };

    ghost buffer = { lit≤ tt };
}

impl TextField for Quadratic<F97> {
    ghost DOUBLINGS = { 1 };

    const DOUBLINGS: u32 = 1;

    ghost small = { lit≤ tt };

    ghost narrow = { lit≤ tt };

    ghost table = { lit≤ tt };

    ghost buffer = { lit≤ tt };
}

impl TextField for Quadratic<Quadratic<F97>> {
    ghost DOUBLINGS = { 2 };

    const DOUBLINGS: u32 = 2;

    ghost small = { lit≤ tt };

    ghost narrow = { lit≤ tt };

    ghost table = { lit≤ tt };

    ghost buffer = { lit≤ tt };
}

impl TextField for F12289 {
    ghost DOUBLINGS = { 0 };

    const DOUBLINGS: u32 = 0;

    ghost small = { lit≤ tt };

    ghost narrow = { lit≤ tt };

    ghost table = { lit≤ tt };

    ghost buffer = { lit≤ tt };
}

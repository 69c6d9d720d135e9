// Elements of a prime field written as their numbers.
ghost use Rattle.std.specs.Prelude.{◌≡◌, ℕ, ◌*◌, ◌<◌, ◌≤◌, List, map, length};
ghost use Rattle.std.specs.List.{AllByRecursion};
ghost use Rattle.field.specs.Operations.{ones};
ghost use Rattle.assignments.specs.Assignment.{value_bytes};
ghost use Rattle.writing.specs.Written.{rest, Appends};

use crate::fields::PrimeField;
use field::file_field::FileField;
use writing::writer::Writer;

// The number below the prime: the lone coordinate, which an element of a prime field has.
fn number_of<F: PrimeField>(x: F) -> u64
    ensures { (result < F.prime) × (x ≡ ones F.ops result) }
{
    x.coordinate(0).unwrap_or(0)
}

// Each number in 8 bytes, the least byte first.
pub(crate) fn write_numbers<F: PrimeField>(xs: &[F], out: &mut Writer<'_>)
    requires { 8 * length xs.now ≤ length (rest out.old) }
    ensures { (ns : List ℕ) × (xs.now ≡ map (ones F.ops) ns) × AllByRecursion (λ v. v < F.prime) ns × Appends out.old (value_bytes ns) out.new }
{
    for x in xs {
        out.put_long(number_of(*x));
    }
}

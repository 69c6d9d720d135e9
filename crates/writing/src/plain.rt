// The number of an element that a file can hold.
ghost use Rattle.std.specs.Prelude.{◌≡◌};
ghost use Rattle.writing.specs.Plain.{plain, numbered};

use field::field::Field;
use field::file_field::FileField;

// The number below the prime; None outside the prime field.
pub fn plain_number<F: FileField>(x: F) -> Option<u64>
    ensures { result ≡ plain F.ops F.prime x }
{
    // what makes the number unique
    let _ = F::prime();
    x.number()
}

// The number of an element, 0 where it has none.
pub fn number_of<F: FileField>(x: F) -> u64
    ensures { result ≡ numbered F.ops F.prime x }
{
    plain_number(x).unwrap_or(0)
}

// An assignment file, read into a table.
ghost use Rattle.std.specs.Prelude.{◌≡◌, ◌*◌, map, length, None};
ghost use Rattle.field.specs.Operations.{ones};
ghost use Rattle.assignments.specs.Assigned.{valued, values};
ghost use Rattle.assignments.specs.Read.{Checked, Reads};

use crate::checks::checked;
use field::field::Field;
use field::file_field::FileField;
use frames::number::long;
use refusal::reason::Refusal;
use refusal::refused::Refused;

// The values of a payload, as elements.
fn fill<F: FileField>(payload: &[u8], table: &mut [F])
    requires { (length payload.now ≡ length table.old * 8) × (valued payload.now F.prime (length table.old) 0 ≡ None) }
    ensures { table.new ≡ map (ones F.ops) (values payload.now (length table.old) 0) }
{
    let mut rest = payload;
    for place in table.iter_mut() {
        // there is a value for each place, and it is below the prime
        let (value, after) = long(rest).unwrap();
        *place = F::element(value).unwrap();
        rest = after;
    }
}

// All checks, and then the values.
fn filled<F: FileField>(bytes: &[u8], table: &mut [F]) -> Result<(), Refused>
    ensures { Checked F.ops bytes.now F.prime table.old result table.new }
{
    let places = table.len();
    if places < 1 || places > 3072 {
        return Err(Refusal::WrongLength.at(0));
    }
    let payload = checked(bytes, F::prime(), places)?;
    fill(payload, table);
    Ok(())
}

// Reads an assignment file into a table with a place for each of its values; a refused reading changes nothing.
// `verdict` by the order of the checks, `assignment` by what such a file is.
pub fn read<F: FileField>(bytes: &[u8], table: &mut [F]) -> Result<(), Refused>
    ensures verdict { Checked F.ops bytes.now F.prime table.old result table.new }
    ensures assignment { Reads F.ops bytes.now F.prime (length table.old) result table.new }
{
    filled(bytes, table)
}

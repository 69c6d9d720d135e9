// A call of a list, as a case holds it.
use crate::case::{Case, Malformed};
use field::file_field::FileField;
use sheet::call::Call;

// Which call it is, then its arguments.
pub(crate) fn call<F: FileField>(case: &mut Case<'_>) -> Result<Call<F>, Malformed> {
    match case.word()? {
        0 => Ok(Call::Enter {
            entries: case.length()?,
            matrix: case.word()?,
            row: case.word()?,
            wire: case.word()?,
            coefficient: case.element()?,
        }),
        1 => Ok(Call::Assign {
            values: case.length()?,
            wire: case.word()?,
            value: case.element()?,
        }),
        2 => Ok(Call::Extend {
            entries: case.length()?,
            values: case.length()?,
            out: case.length()?,
        }),
        3 => Ok(Call::Quotient {
            entries: case.length()?,
            values: case.length()?,
            out: case.length()?,
            work: case.length()?,
        }),
        4 => Ok(Call::Public {
            values: case.length()?,
            out: case.length()?,
        }),
        _ => Err(Malformed),
    }
}

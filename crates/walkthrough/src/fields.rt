// The same call over other fields: the field of 97 elements doubled, with θ among entries and values, and the field of 12289 elements.
use crate::print::{show, tell};
use crate::tables::{ShownField, enters, survey_over};
use field::field::Field;
use field::file_field::FileField;
use modular::f97::F97;
use modular::f12289::F12289;
use quadratic::quadratic::Quadratic;
use sheet::call::Call;
use sheet::counts::Counts;
use sheet::head::calls::TABLE_SIZE;
use sheet::matrix::Matrix;
use std::io;

// One row: (a x) x = c, with x on wire 1.
fn one_row<F: FileField>(a: F, x: F, c: F) -> [Call<F>; 4] {
    [
        enters(TABLE_SIZE, Matrix::A, 1, a),
        enters(TABLE_SIZE, Matrix::B, 1, F::one()),
        enters(TABLE_SIZE, Matrix::C, 0, c),
        Call::Assign {
            values: 2,
            wire: 1,
            value: x,
        },
    ]
}

// A sheet of one row and two wires, of which so many are public.
fn survey_row<F: ShownField>(rt: &impl Print, publics: u32, calls: &[Call<F>]) -> io::Result<()> {
    let counts = Counts {
        wires: 2,
        publics,
        rows: 1,
    };
    survey_over(rt, counts, calls, |s| {
        tell(rt, "quotient", s.quotient)?;
        show(rt, "extended values", s.extended)?;
        show(rt, "quotient", s.divided)?;
        show(rt, "public", s.published)
    })
}

pub(crate) fn other_fields(rt: &impl Print) -> io::Result<()> {
    // θ x² = 56 + 29θ has the solution x = 1 + θ, since θ² = 28. Here x is public, so θ stands in the public polynomial too.
    println!(rt; "survey over the field of 97 elements doubled")?;
    let theta = Quadratic::<F97>::top();
    let c = Quadratic::new(F97::new(56), F97::new(29));
    let x = Quadratic::one().add(theta);
    survey_row(rt, 2, &one_row(theta, x, c))?;
    // x · x = 1 has the solution x = 12288
    println!(rt; "survey over the field of 12289 elements")?;
    let one = F12289::one();
    survey_row(rt, 1, &one_row(one, F12289::new(12288), one))
}

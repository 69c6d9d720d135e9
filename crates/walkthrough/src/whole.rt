// The same sheet by one call that takes the whole list of calls, and its quotient multiplied out.
use crate::print::{show, tell};
use crate::tables::{enters, survey_over};
use field::field::Field;
use modular::f97::F97;
use sheet::call::Call;
use sheet::counts::Counts;
use sheet::head::calls::TABLE_SIZE;
use sheet::matrix::Matrix;
use std::io;
use transform::interpolate::interpolate;
use transform::polynomial::Polynomial;

// x · x = 1 with x on wire 1. One call is handed an entry table that is too short, and one would assign to wire 0.
fn listed(x: F97) -> [Call<F97>; 6] {
    let one = F97::one();
    [
        enters(TABLE_SIZE, Matrix::A, 1, one),
        enters(TABLE_SIZE - 1, Matrix::B, 1, one),
        enters(TABLE_SIZE, Matrix::B, 1, one),
        enters(TABLE_SIZE, Matrix::C, 0, one),
        Call::Assign {
            values: 2,
            wire: 1,
            value: x,
        },
        Call::Assign {
            values: 2,
            wire: 0,
            value: x,
        },
    ]
}

fn subtract(u: &mut [F97], w: &[F97]) {
    for (a, b) in u.iter_mut().zip(w) {
        *a = a.add(b.neg());
    }
}

// u² - w and h (X^4 - 1), coefficient by coefficient. The rows of this sheet say, from the first:
// z_0² = p, (x - x)² = s, 0² = q and (x + x)² = 4 (p - q) + s.
fn multiply_out(rt: &impl Print, extended: &[F97], h: &[F97]) -> io::Result<()> {
    let zero = F97::zero();
    let [one, x, p, q, s] = [0, 1, 2, 3, 4].map(|i| extended.get(i).copied().unwrap_or(zero));
    let four = F97::new(4);
    let left = [one, x.add(x.neg()), zero, x.add(x)];
    let right = [p, s, q, four.mul(p.add(q.neg())).add(s)];
    let mut u = [zero; 4];
    let mut w = [zero; 4];
    let mut square = [zero; 7];
    let mut product = [zero; 7];
    tell(rt, "interpolate the left sums", interpolate(&left, &mut u))?;
    tell(
        rt,
        "interpolate the right sums",
        interpolate(&right, &mut w),
    )?;
    tell(
        rt,
        "square u",
        Polynomial::new(&u).product(&Polynomial::new(&u), &mut square),
    )?;
    subtract(&mut square, &w);
    let vanishing = [one.neg(), zero, zero, zero, one];
    tell(
        rt,
        "multiply h by X^4 - 1",
        Polynomial::new(h).product(&Polynomial::new(&vanishing), &mut product),
    )?;
    show(rt, "u² - w", &square)?;
    show(rt, "h (X^4 - 1)", &product)?;
    let same = if Polynomial::new(&square).equals(&Polynomial::new(&product)) {
        "equal"
    } else {
        "different"
    };
    println!(rt; "the two polynomials are {same}")
}

fn survey_with(rt: &impl Print, x: F97) -> io::Result<()> {
    let number = x.value();
    println!(rt; "survey six calls as one list, with x = {number}")?;
    let counts = Counts {
        wires: 2,
        publics: 1,
        rows: 1,
    };
    survey_over(rt, counts, &listed(x), |s| {
        for answer in s.answers {
            tell(rt, "listed call", *answer)?;
        }
        show(rt, "extended values", s.extended)?;
        tell(rt, "quotient", s.quotient)?;
        show(rt, "public", s.published)?;
        if s.quotient.is_ok() {
            show(rt, "quotient", s.divided)?;
            multiply_out(rt, s.extended, s.divided)?;
        }
        Ok(())
    })
}

pub(crate) fn both_witnesses(rt: &impl Print) -> io::Result<()> {
    survey_with(rt, F97::new(96))?;
    survey_with(rt, F97::new(5))
}

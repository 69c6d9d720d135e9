// The polynomial that takes given values at the powers of a root of one.
ghost use Rattle.std.specs.Prelude.{◌≡◌, ◌^◌, ◌&&◌, length, None, ◌==◌};
ghost use Rattle.refusal.specs.Due.{Decided, unless};
ghost use Rattle.field.specs.Operations.{ones, power};
ghost use Rattle.transform.specs.Logarithm.{is_power_of_two, log2};
ghost use Rattle.transform.specs.Outcomes.{Interpolated};
ghost use Rattle.transform.specs.Polynomial.{table, value_at};

use crate::polynomial::Polynomial;
use field::field::Field;
use field::root::subgroup_root;
use refusal::reason::Refusal;
use refusal::refused::Refused;

// Fills `out` with the n coefficients of the polynomial whose value at ω^r is values[r], for the root of one ω of the order n that the field has chosen.
pub fn interpolate<F: Field>(values: &[F], out: &mut [F]) -> Result<(), Refused>
    ensures { Interpolated F.ops values.now out.old out.new result }
{
    let log = shared_log(values.len(), out.len())?;
    let root = subgroup_root::<F>(log)?;
    // neither a root of one nor a power of two is zero
    let step = reciprocal(root);
    let scale = reciprocal(power_of_two::<F>(log));
    fill_coefficients(Polynomial::new(values), step, scale, out);
    Ok(())
}

// The logarithm of a length that is a power of two and that both slices have.
fn shared_log(values: usize, out: usize) -> Result<u32, Refused>
    ensures { Decided (unless (values == out && is_power_of_two values) 5 None) result (λ e. (values ≡ 2 ^ e) × (out ≡ 2 ^ e) × (e ≡ log2 values)) (Unit {0}) }
{
    if values == out && values.is_power_of_two() {
        Ok(values.ilog2())
    } else {
        Err(Refusal::WrongLength.at(0))
    }
}

// 2^e as an element, by doubling one.
fn power_of_two<F: Field>(e: u32) -> F
    ensures { result ≡ ones F.ops (2 ^ e) }
{
    let mut n = F::one();
    for _ in 0..e {
        n = n.add(n);
    }
    n
}

// The inverse of an element that is not zero.
fn reciprocal<F: Field>(x: F) -> F
    requires { ¬ (x ≡ F.ops.zero) }
    ensures { F.ops.mul x result ≡ F.ops.one }
{
    x.inverse().unwrap()
}

// Fills `out` with the scaled values at 1, step, step², .. of the polynomial that has the given values as its coefficients:
// with step = 1/ω and scale = 1/n these are the coefficients sought. Each costs one value and two products.
fn fill_coefficients<F: Field>(values: Polynomial<F>, step: F, scale: F, out: &mut [F])
    ensures { out.new ≡ table (length out.old) (λ j. F.ops.mul scale (value_at F.ops values.entry.coefficients.now (power F.ops step j))) }
{
    let mut point = F::one();
    for coefficient in out.iter_mut() {
        *coefficient = scale.mul(values.value_at(point));
        point = point.mul(step);
    }
}

// Coefficients of products, each as one sum of products.
ghost use Rattle.std.specs.Prelude.{◌≡◌, ◌+◌, ◌-◌, length};
ghost use Rattle.transform.specs.Outcomes.{product_length};
ghost use Rattle.transform.specs.Polynomial.{product_at, table};

use field::field::Field;

// Fills `out` with the coefficients of u v.
pub(crate) fn fill_product<F: Field>(u: &[F], v: &[F], out: &mut [F])
    requires { length out.old ≡ product_length (length u.now) (length v.now) }
    ensures { out.new ≡ table (length out.old) (product_at F.ops u.now v.now) }
{
    for (e, c) in out.iter_mut().enumerate() {
        // u_i v_(e - i) is zero unless i is inside u and e - i inside v
        let first = (e + 1).saturating_sub(v.len());
        let end = u.len().min(e + 1);
        *c = middle(&u[first..end], &v[e + 1 - end..e + 1 - first]);
    }
}

// Fills `out` with the coefficients of u² from n on, for the n coefficients of u.
pub(crate) fn fill_upper_square<F: Field>(u: &[F], out: &mut [F])
    requires { length u.now ≡ length out.old + 1 }
    ensures { out.new ≡ table (length out.old) (λ j. product_at F.ops u.now u.now (length u.now + j)) }
{
    for (j, c) in out.iter_mut().enumerate() {
        // u_i u_(n + j - i) is zero unless both places are above j
        let tail = &u[j + 1..];
        *c = middle(tail, tail);
    }
}

// The middle coefficient of the product of two lists of one length k: a_0 b_(k-1) + a_1 b_(k-2) + .. + a_(k-1) b_0.
fn middle<F: Field>(a: &[F], b: &[F]) -> F
    requires { length a.now ≡ length b.now }
    ensures { result ≡ product_at F.ops a.now b.now (length a.now - 1) }
{
    let mut total = F::zero();
    for (x, y) in a.iter().zip(b.iter().rev()) {
        total = total.add(x.mul(*y));
    }
    total
}

// A wire and its coefficient.
ghost use Rattle.std.specs.Prelude.{◌≡◌};
ghost use Rattle.square.specs.Rows.{only};
ghost use Rattle.square_rows.specs.Combined.{term, no_term};

use field::field::Field;

#[derive(Clone, Copy)]
pub struct Term<F> {
    pub wire: usize,
    pub coefficient: F,
}

impl<F: Field> Term<F> {
    pub(crate) fn new(wire: usize, coefficient: F) -> Term<F>
        ensures { result ≡ term F.ops wire coefficient }
    {
        Term { wire, coefficient }
    }

    // A wire with the coefficient one.
    pub(crate) fn unit(wire: usize) -> Term<F>
        ensures { result ≡ term F.ops wire F.ops.one }
    {
        Term::new(wire, F::one())
    }

    // A term that adds nothing.
    pub(crate) fn none() -> Term<F>
        ensures { result ≡ no_term F.ops }
    {
        Term::new(0, F::zero())
    }

    // What the term adds to the coefficient of wire w.
    pub(crate) fn at(self, w: usize) -> F
        ensures { result ≡ only F.ops self.wire w self.coefficient }
    {
        if self.wire == w {
            self.coefficient
        } else {
            F::zero()
        }
    }
}

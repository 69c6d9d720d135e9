// The terms, each coefficient by one pass over the used entries.
ghost use Rattle.std.specs.Prelude.{◌≡◌, ℕ, ◌<◌, ◌≤◌, ◌≢◌, [], ◌∷◌};
ghost use Rattle.std.specs.Iterator.{YieldsFirst, item_count};
ghost use Rattle.sheet.specs.Shape.{columns};
ghost use Rattle.sheet.specs.Outcomes.{shape_of};
ghost use Rattle.square.specs.Rows.{position};
ghost use Rattle.square.specs.Program.{image};
ghost use Rattle.square_rows.specs.Combined.{matrix_factor, weighted, FirstTerm};
ghost use Rattle.square_rows.specs.Terms.{terms_of, coefficients, terms_left};

use crate::combination::Combination;
use crate::combination::terms::Terms;
use crate::term::Term;
use field::field::Field;
use sheet::entry::Entry;
use sheet::head::Head;
use sheet::matrix::Matrix;

// x times what stands for a wire of the sheet in product rows, at wire w.
fn at_image<F: Field>(head: &Head, wire: usize, x: F, w: usize) -> F
    requires { wire < head.now.wires }
    ensures { result ≡ F.ops.mul x (image F.ops (shape_of head.now) wire w) }
{
    if wire >= head.publics() {
        return if w == wire { x } else { F::zero() };
    }
    let p = head.wires() + 2 * wire;
    if w == p {
        x
    } else if w == p + 1 {
        x.neg()
    } else {
        F::zero()
    }
}

// The wire, where it is not before `from` and is below `stop`; else `stop`.
fn wire_from(wire: usize, from: usize, stop: usize) -> usize
    requires { from ≤ stop }
    ensures within { (from ≤ result) × (result ≤ stop) }
    ensures passed { (w : ℕ) → from ≤ w → w < result → wire ≢ w }
{
    if from <= wire && wire < stop {
        wire
    } else {
        stop
    }
}

impl<F: Field> Combination<F> {
    // What an entry of a matrix counts for.
    fn factor(&self, matrix: u32) -> F
        ensures { result ≡ matrix_factor F.ops self.now matrix }
    {
        match Matrix::try_from(matrix) {
            Ok(Matrix::A) => self.a,
            Ok(Matrix::B) => self.b,
            Ok(Matrix::C) => self.c,
            Err(_) => F::zero(),
        }
    }

    // Its terms by a sheet's used entries.
    pub fn terms<'a>(&'a self, head: &'a Head, used: &'a [Entry<F>]) -> Terms<'a, F>
        ensures { terms_left F.ops result ≡ terms_of F.ops (shape_of head.now) used.now self.now }
    {
        self.terms_from(head, used, 0)
    }

    // Those from a wire on.
    pub fn terms_from<'a>(
        &'a self,
        head: &'a Head,
        used: &'a [Entry<F>],
        from: usize,
    ) -> Terms<'a, F>
        ensures head { result.head.now ≡ head.now }
        ensures used { result.used.now ≡ used.now }
        ensures own { (result.combination.now ≡ self.now) × (result.from ≡ from) }
    {
        Terms {
            head,
            used,
            combination: self,
            from,
        }
    }
}

impl<F: Field> Terms<'_, F> {
    // What an entry adds to the coefficient of wire w.
    fn share(&self, e: Entry<F>, w: usize) -> F
        ensures { result ≡ weighted F.ops (shape_of self.now.head.now) (position F.ops (e ∷ [])) self.now.combination.now w }
    {
        let wire = e.wire as usize;
        let row = self.combination.row;
        let wires = self.head.wires();
        if e.row != row || wire >= wires {
            return F::zero();
        }
        let factor = self.combination.factor(e.matrix);
        at_image(self.head, wire, factor.mul(e.coefficient), w)
    }

    // The coefficient of wire w.
    fn coefficient(&self, w: usize) -> F
        ensures { result ≡ coefficients F.ops self.now w }
    {
        let k = self.combination;
        let mut sum = k.first.at(w).add(k.second.at(w));
        for e in self.used {
            sum = sum.add(self.share(*e, w));
        }
        sum
    }

    // The first wire, from `at` on, to which an entry may add; the count of wires where there is none.
    fn entry_from(&self, e: Entry<F>, at: usize) -> usize
        requires { at ≤ self.now.head.now.columns }
        ensures within { (at ≤ result) × (result ≤ self.now.head.now.columns) }
        ensures passed { (w : ℕ) → at ≤ w → w < result → weighted F.ops (shape_of self.now.head.now) (position F.ops (e ∷ [])) self.now.combination.now w ≡ F.ops.zero }
    {
        let wire = e.wire as usize;
        let stop = self.head.columns();
        let row = self.combination.row;
        let wires = self.head.wires();
        if e.row != row || wire >= wires {
            return stop;
        }
        if wire >= self.head.publics() {
            return wire_from(wire, at, stop);
        }
        let p = wires + 2 * wire;
        wire_from(p, at, stop).min(wire_from(p + 1, at, stop))
    }

    // The first wire, from `at` on, whose coefficient may be other than zero; the count of wires where there is none.
    fn wire_after(&self, at: usize) -> usize
        requires { at ≤ self.now.head.now.columns }
        ensures within { (at ≤ result) × (result ≤ self.now.head.now.columns) }
        ensures passed { (w : ℕ) → at ≤ w → w < result → coefficients F.ops self.now w ≡ F.ops.zero }
    {
        let stop = self.head.columns();
        let k = self.combination;
        let first = wire_from(k.first.wire, at, stop);
        let mut nearest = first.min(wire_from(k.second.wire, at, stop));
        for e in self.used {
            nearest = nearest.min(self.entry_from(*e, at));
        }
        nearest
    }

    // The first that is left.
    pub fn next_term(&self) -> Option<Term<F>>
        ensures { FirstTerm F.ops (columns (shape_of self.now.head.now)) self.now.from (coefficients F.ops self.now) result }
    {
        let stop = self.head.columns();
        let mut at = self.from;
        // no `for`: each step goes to the next wire that an entry may add to
        while at < stop {
            let wire = self.wire_after(at);
            if wire == stop {
                return None;
            }
            let coefficient = self.coefficient(wire);
            if !coefficient.same(F::zero()) {
                return Some(Term { wire, coefficient });
            }
            at = wire + 1;
        }
        None
    }
}

impl<F: Field> Iterator for Terms<'_, F> {
    type Item = Term<F>;

    ghost next_gives = { YieldsFirst (terms_left F.ops) };

    ghost remaining = { item_count (terms_left F.ops) };

    fn next(&mut self) -> Option<Term<F>> {
        let term = self.next_term()?;
        self.from = term.wire + 1;
        Some(term)
    }
}

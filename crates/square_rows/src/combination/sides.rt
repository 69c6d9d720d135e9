// The two sides of each row of the square program.
ghost use Rattle.std.specs.Prelude.{◌≡◌, ℕ};
ghost use Rattle.sheet.specs.Shape.{Shape};
ghost use Rattle.sheet.specs.Outcomes.{shape_of};
ghost use Rattle.square.specs.Program.{kind, U, W};
ghost use Rattle.square_rows.specs.RowKinds.{shown, Within};
ghost use Rattle.square_rows.specs.Combined.{of_row, of_terms, combined};

use crate::combination::Combination;
use crate::kinds::kind_of;
use crate::row_kind::RowKind;
use crate::term::Term;
use field::field::Field;
use sheet::head::Head;
use square::left::one_half;

impl<F: Field> Combination<F> {
    // Two terms alone.
    fn of_terms(first: Term<F>, second: Term<F>) -> Combination<F>
        ensures { result ≡ of_terms F.ops first second }
    {
        Combination {
            second,
            ..Combination::of_row(first, 0, F::zero(), F::zero(), F::zero())
        }
    }

    // A term and the entries of a product row, those of A times a, of B times b and of C times c.
    fn of_row(term: Term<F>, row: u32, a: F, b: F, c: F) -> Combination<F>
        ensures { result ≡ of_row F.ops term row a b c }
    {
        Combination {
            first: term,
            second: Term::none(),
            row,
            a,
            b,
            c,
        }
    }

    // The sum that is squared, by the kind of its row.
    fn left_of(kind: RowKind) -> Combination<F>
        ensures { (S : Shape) (c : ℕ → ℕ → ℕ → F) (w : ℕ) → combined F.ops S c result w ≡ U F.ops S c (shown kind) w }
    {
        let one: F = F::one();
        let half: F = one_half();
        match kind {
            RowKind::PublicPlus(j) => Combination::of_terms(Term::new(j, half), Term::new(0, half)),
            RowKind::PublicMinus(j) => {
                Combination::of_terms(Term::new(j, half), Term::new(0, half.neg()))
            }
            RowKind::RowMinus(i) => Combination::of_row(Term::none(), i, one, one.neg(), F::zero()),
            RowKind::RowPlus(i) => Combination::of_row(Term::none(), i, one, one, F::zero()),
            RowKind::Empty => Combination::of_terms(Term::none(), Term::none()),
        }
    }

    // The sum that the square is to be, by the kind of its row.
    fn right_of(head: &Head, kind: RowKind) -> Combination<F>
        requires { Within (shape_of head.now) kind }
        ensures { (c : ℕ → ℕ → ℕ → F) (w : ℕ) → combined F.ops (shape_of head.now) c result w ≡ W F.ops (shape_of head.now) c (shown kind) w }
    {
        let wires = head.wires();
        // s_0 is behind the sheet's wires and all p and q
        let s = wires + 2 * head.publics();
        match kind {
            RowKind::PublicPlus(j) => Combination::of_terms(
                Term::unit(wires + 2 * j),
                Term::none(),
            ),
            RowKind::PublicMinus(j) => {
                Combination::of_terms(Term::unit(wires + 2 * j + 1), Term::none())
            }
            RowKind::RowMinus(i) => Combination::of_terms(Term::unit(s + i as usize), Term::none()),
            RowKind::RowPlus(i) => {
                let two = F::one().add(F::one());
                Combination::of_row(
                    Term::unit(s + i as usize),
                    i,
                    F::zero(),
                    F::zero(),
                    two.mul(two),
                )
            }
            RowKind::Empty => Combination::of_terms(Term::none(), Term::none()),
        }
    }

    // The sum that row r squares.
    pub fn left(head: &Head, r: usize) -> Combination<F>
        ensures { (c : ℕ → ℕ → ℕ → F) (w : ℕ) → combined F.ops (shape_of head.now) c result w ≡ U F.ops (shape_of head.now) c (kind (shape_of head.now) r) w }
    {
        Combination::left_of(kind_of(head, r))
    }

    // The sum that its square is to be.
    pub fn right(head: &Head, r: usize) -> Combination<F>
        ensures { (c : ℕ → ℕ → ℕ → F) (w : ℕ) → combined F.ops (shape_of head.now) c result w ≡ W F.ops (shape_of head.now) c (kind (shape_of head.now) r) w }
    {
        Combination::right_of(head, kind_of(head, r))
    }
}

// Call by call over the field of 97 elements: the row x · x = 1, first with x = 96, then with x = 5.
use crate::print::{show, tell};
use field::field::Field;
use modular::f97::F97;
use refusal::answer::Answer;
use sheet::counts::Counts;
use sheet::entry::Entry;
use sheet::head::Head;
use sheet::head::calls::{TABLE_SIZE, assign, enter, make};
use sheet::matrix::Matrix;
use square::extend::extend;
use square::row::sums;
use std::io;

fn show_row(
    rt: &impl Print,
    head: &Head,
    entries: &[Entry<F97>],
    values: &[F97],
) -> io::Result<()> {
    match sums(head, entries, values, 0) {
        Ok(s) => {
            let a = s.a.value();
            let b = s.b.value();
            let c = s.c.value();
            let holds = if s.hold() { "holds" } else { "fails" };
            println!(rt; "row 0 {holds}: A-sum {a}, B-sum {b}, C-sum {c}")
        }
        Err(e) => tell(rt, "row 0", Err(e)),
    }
}

// Assigns x to wire 1, extends, and looks at the row.
fn try_value(
    rt: &impl Print,
    head: &Head,
    entries: &[Entry<F97>],
    values: &mut [F97],
    x: F97,
) -> io::Result<()> {
    let number = x.value();
    let assigned = Answer(assign(head, values, 1, x));
    println!(rt; "assign {number} to wire 1: {assigned}")?;
    let mut extended = [F97::zero(); 5];
    tell(rt, "extend", extend(head, entries, values, &mut extended))?;
    show(rt, "extended values", &extended)?;
    show_row(rt, head, entries, values)
}

pub(crate) fn step_by_step(rt: &impl Print) -> io::Result<()> {
    let mut entries = [Entry::<F97>::blank(); TABLE_SIZE];
    let mut values = [F97::zero(); 2];
    let counts = Counts {
        wires: 2,
        publics: 1,
        rows: 1,
    };
    let mut head = match make(counts, &mut values) {
        Ok(head) => head,
        Err(e) => return tell(rt, "make", Err(e)),
    };
    let n = head.n();
    let k = head.k();
    println!(rt; "make a sheet of 2 wires, 1 public, and 1 row: granted, n = {n}, k = {k}")?;
    // x · x = 1, and then an entry in a row that there is not
    let positions = [
        (Matrix::A, 0, 1),
        (Matrix::B, 0, 1),
        (Matrix::C, 0, 0),
        (Matrix::A, 1, 1),
    ];
    for (matrix, row, wire) in positions {
        let entered = Answer(enter(
            &mut head,
            &mut entries,
            matrix.number(),
            row,
            wire,
            F97::one(),
        ));
        println!(rt; "enter 1 at {matrix:?}, row {row}, wire {wire}: {entered}")?;
    }
    try_value(rt, &head, &entries, &mut values, F97::new(96))?;
    try_value(rt, &head, &entries, &mut values, F97::new(5))
}

// A survey over any field of this program, in tables and buffers of its own.
ghost use Rattle.std.specs.Allocator.{FitsBlock};
ghost use Rattle.std.proofs.Common.{lit≤};
ghost use Rattle.sheet.specs.contracts.entry.Entry.{the_row};

use crate::print::tell;
use field::field::Field;
use field::file_field::FileField;
use modular::f97::F97;
use modular::f12289::F12289;
use quadratic::quadratic::Quadratic;
use refusal::refused::Refused;
use runs::lent::Lent;
use runs::survey::survey;
use sheet::call::Call;
use sheet::counts::Counts;
use sheet::entry::Entry;
use sheet::head::calls::{TABLE_SIZE, plan};
use sheet::matrix::Matrix;
use std::io;

// The largest sheet here has two wires, both public, and one row: M = 2 + 2 · 2 + 1, and n = 8. The longest list has six calls.
const WIRES: usize = 2;

const COLUMNS: usize = 7;

const ROWS: usize = 8;

const CALLS: usize = 6;

const WORK: usize = COLUMNS + 4 * ROWS;

const SCRATCH: usize = COLUMNS + ROWS;

// A field of which arrays can be made: the entry table and the working buffer fit in memory.
pub(crate) trait ShownField: FileField {
    ghost table: { FitsBlock (the_row Self.row) 2048 };

    ghost buffer: { FitsBlock Self.row 39 };
}

impl ShownField for F97 {
    ghost table = { lit≤ tt };

    ghost buffer = { lit≤ tt };
}

impl ShownField for Quadratic<F97> {
    ghost table = { lit≤ tt };

    ghost buffer = { lit≤ tt };
}

impl ShownField for F12289 {
    ghost table = { lit≤ tt };

    ghost buffer = { lit≤ tt };
}

// One entry in row 0, by a call that is handed an entry table of this length.
pub(crate) fn enters<F>(entries: usize, matrix: Matrix, wire: u32, coefficient: F) -> Call<F> {
    Call::Enter {
        entries,
        matrix: matrix.number(),
        row: 0,
        wire,
        coefficient,
    }
}

// What a survey answered and wrote.
#[derive(Clone, Copy)]
pub(crate) struct Told<'a, F> {
    pub(crate) answers: &'a [Result<(), Refused>],
    pub(crate) extended: &'a [F],
    pub(crate) divided: &'a [F],
    pub(crate) published: &'a [F],
    // the quotient's answer: extend and public are granted whether rows hold or not
    pub(crate) quotient: Result<(), Refused>,
}

// Surveys a list of calls, and hands what was answered and written to `show`; a refusal is told. Not inlined, so that the tables of one
// survey at a time take stack.
#[inline(never)]
pub(crate) fn survey_over<F: ShownField, S: FnOnce(Told<'_, F>) -> io::Result<()>>(
    rt: &impl Print,
    counts: Counts,
    calls: &[Call<F>],
    show: S,
) -> io::Result<()>
    requires { S.IsAlwaysCallable show }
{
    let head = match plan::<F>(counts) {
        Ok(head) => head,
        Err(e) => return tell(rt, "survey", Err(e)),
    };
    let m = head.wires().min(WIRES);
    let columns = head.columns().min(COLUMNS);
    let n = head.n().min(ROWS);
    let granted: Result<(), Refused> = Ok(());
    let mut answers = [granted; CALLS];
    let mut entries = [Entry::<F>::blank(); TABLE_SIZE];
    let mut values = [F::zero(); WIRES];
    let mut extended = [F::zero(); COLUMNS];
    let mut divided = [F::zero(); ROWS];
    let mut published = [F::zero(); ROWS];
    let mut work = [F::zero(); WORK];
    let mut scratch = [F::zero(); SCRATCH];
    // one place short: what a listed call of a wrong length is handed
    let mut spare_entries = [Entry::<F>::blank(); TABLE_SIZE];
    let mut spare_values = [F::zero(); WIRES];
    let answers = &mut answers[..calls.len().min(CALLS)];
    let extended = &mut extended[..columns];
    let divided = &mut divided[..n.saturating_sub(1)];
    let published = &mut published[..n];
    let lent = Lent {
        answers: &mut *answers,
        entries: &mut entries,
        values: &mut values[..m],
        extended: &mut *extended,
        divided: &mut *divided,
        published: &mut *published,
        work: &mut work[..columns + 4 * n],
        scratch: &mut scratch[..columns + n],
        spare_entries: &mut spare_entries[..TABLE_SIZE - 1],
        spare_values: &mut spare_values[..m.saturating_sub(1)],
    };
    match survey(counts, calls, lent) {
        Ok(surveyed) => show(Told {
            answers,
            extended,
            divided,
            published,
            quotient: surveyed.quotient,
        }),
        Err(e) => tell(rt, "survey", Err(e)),
    }
}

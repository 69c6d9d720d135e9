// A list of calls over a sheet, and what is read from it in the end.
use crate::calls::call;
use crate::case::Case;
use crate::print::Elements;
use field::field::Field;
use field::file_field::FileField;
use refusal::answer::Answer;
use refusal::refused::Refused;
use runs::lent::Lent;
use runs::survey::survey;
use sheet::call::Call;
use sheet::counts::Counts;
use sheet::entry::Entry;
use sheet::head::Head;
use sheet::head::calls::{TABLE_SIZE, plan};
use std::io;

// How long the spares are, of which a call with a wrong length is handed a part.
const SPARE: usize = 2100;

// What is lent for a survey, each with the bit that tells that it is a place too long.
#[derive(Clone, Copy)]
enum Part {
    Answers = 1,
    Entries = 2,
    Values = 4,
    Extended = 8,
    Divided = 16,
    Published = 32,
    Work = 64,
    Scratch = 128,
}

#[derive(Clone, Copy)]
struct Misfits(u32);

impl Misfits {
    // The stated length of a part, or one more.
    fn length(self, part: Part, stated: usize) -> usize {
        if self.0 & part as u32 != 0 {
            stated.saturating_add(1)
        } else {
            stated
        }
    }
}

// The numbers that a survey states lengths by.
#[derive(Clone, Copy)]
struct Sizes {
    wires: usize,
    columns: usize,
    n: usize,
}

// Where there is no such sheet any do.
fn sizes_of<F: FileField>(counts: Counts) -> Sizes {
    let any = Sizes {
        wires: 1,
        columns: 1,
        n: 1,
    };
    plan::<F>(counts).map_or(
        any,
        |head| Sizes {
            wires: head.wires(),
            columns: head.columns(),
            n: head.n(),
        },
    )
}

fn print_head(rt: &impl Print, head: &Head) -> io::Result<()> {
    let n = head.n();
    let k = head.k();
    let columns = head.columns();
    let used = head.used();
    print!(rt; "granted {n} {k} {columns} {used} |")
}

// What a call answered that reads the sheet, and what it wrote.
fn print_result<F: FileField>(
    rt: &impl Print,
    answer: Result<(), Refused>,
    written: &[F],
) -> io::Result<()> {
    match answer {
        Ok(()) => {
            let elements = Elements(written);
            print!(rt; " | granted{elements}")
        }
        Err(e) => print!(rt; " | {e}"),
    }
}

fn print_survey<F: FileField>(
    rt: &HostRuntime,
    counts: Counts,
    misfits: Misfits,
    calls: &[Call<F>],
) -> io::Result<()> {
    let heap = rt.alloc();
    let granted: Result<(), Refused> = Ok(());
    let zero = F::zero();
    let blank = Entry::<F>::blank();
    let Sizes { wires, columns, n } = sizes_of::<F>(counts);
    let work_places = columns.saturating_add(n.saturating_mul(4));
    let scratch_places = columns.saturating_add(n);
    let mut answers = vec![in heap; granted; misfits.length(Part::Answers, calls.len())]?;
    let mut entries = vec![in heap; blank; misfits.length(Part::Entries, TABLE_SIZE)]?;
    let mut values = vec![in heap; zero; misfits.length(Part::Values, wires)]?;
    let mut extended = vec![in heap; zero; misfits.length(Part::Extended, columns)]?;
    let mut divided = vec![in heap; zero; misfits.length(Part::Divided, n.saturating_sub(1))]?;
    let mut published = vec![in heap; zero; misfits.length(Part::Published, n)]?;
    let mut work = vec![in heap; zero; misfits.length(Part::Work, work_places)]?;
    let mut scratch = vec![in heap; zero; misfits.length(Part::Scratch, scratch_places)]?;
    let mut spare_entries = vec![in heap; blank; SPARE]?;
    let mut spare_values = vec![in heap; zero; SPARE]?;
    let lent = Lent {
        answers: &mut answers,
        entries: &mut entries,
        values: &mut values,
        extended: &mut extended,
        divided: &mut divided,
        published: &mut published,
        work: &mut work,
        scratch: &mut scratch,
        spare_entries: &mut spare_entries,
        spare_values: &mut spare_values,
    };
    match survey(counts, calls, lent) {
        Ok(surveyed) => {
            print_head(rt, &surveyed.head)?;
            for answer in &answers {
                let answer = Answer(*answer);
                print!(rt; " {answer}")?;
            }
            print_result(rt, surveyed.extend, &extended)?;
            print_result(rt, surveyed.quotient, &divided)?;
            print_result(rt, surveyed.public, &published)
        }
        Err(e) => print!(rt; "{e}"),
    }
}

// The sheet's numbers, the misfits, and the calls, how many first.
pub(crate) fn answer<F: FileField>(rt: &HostRuntime, mut case: Case<'_>) -> io::Result<()> {
    let counts = case.counts()?;
    let misfits = Misfits(case.word()?);
    let count = case.length()?;
    let calls = case.list(rt.alloc(), count, |c| call::<F>(c))?;
    case.end()?;
    print_survey(rt, counts, misfits, &calls)?;
    println!(rt; "")
}

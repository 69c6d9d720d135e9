// Lists of calls, made one after another over one sheet.
ghost use Rattle.std.specs.Prelude.{◌≡◌, ◌+◌, ◌*◌, ◌<◌, ◌≤◌, length};
ghost use Rattle.sheet.specs.Model.{sheet};
ghost use Rattle.runs.specs.Runs.{Handed, Step, Run, RunsStand};

use field::field::Field;
use refusal::refused::Refused;
use sheet::call::Call;
use sheet::entry::Entry;
use sheet::head::Head;
use sheet::head::calls::{TABLE_SIZE, assign, enter};
use square::extend::extend;
use square::public::public;
use square::quotient::quotient;

// How much of a buffer is handed over where a length is listed: that length where there is room for it, else nothing.
// So where there is room for the stated length, the part has it just where it is listed.
fn part(listed: usize, room: usize) -> usize
    ensures within { result ≤ room }
    ensures fitting { listed ≤ room → result ≡ listed }
    ensures too_long { room < listed → result ≡ 0 }
{
    if listed <= room { listed } else { 0 }
}

// What a call that only reads is handed in a table's place.
fn handed<'a, T>(own: &'a [T], spare: &'a [T], stated: usize, listed: usize) -> &'a [T]
    requires some { 0 < stated }
    requires own { length own.now ≡ stated }
    ensures { Handed stated listed own.now own.now result.now result.now }
{
    if listed == stated {
        own
    } else {
        let n = part(listed, spare.len());
        &spare[0..n]
    }
}

// One call of a list. Tables of the stated length are the sheet's own, others parts of the spares; results go to the scratch buffer.
// The buffers are no struct here: tried, and the borrow checker has no proof of a table in a field that is lent as `&[Entry<F>]`.
fn step<F: Field>(
    head: &mut Head,
    entries: &mut [Entry<F>],
    values: &mut [F],
    scratch: &mut [F],
    work: &mut [F],
    spare_entries: &mut [Entry<F>],
    spare_values: &mut [F],
    call: Call<F>,
) -> Result<(), Refused>
    requires table { length entries.old ≡ 2048 }
    requires places { length values.old ≡ head.old.wires }
    requires room { length scratch.old ≡ head.old.columns + head.old.n }
    requires work { length work.old ≡ head.old.columns + 4 * head.old.n }
    ensures { Step F.ops (sheet head.old entries.old values.old) call result (sheet head.new entries.new values.new) }
{
    match call {
        Call::Enter {
            entries: listed,
            matrix,
            row,
            wire,
            coefficient,
        } => {
            if listed == TABLE_SIZE {
                enter(head, entries, matrix, row, wire, coefficient)
            } else {
                let n = part(listed, spare_entries.len());
                enter(
                    head,
                    &mut spare_entries[0..n],
                    matrix,
                    row,
                    wire,
                    coefficient,
                )
            }
        }
        Call::Assign {
            values: listed,
            wire,
            value,
        } => {
            if listed == head.wires() {
                assign(head, values, wire, value)
            } else {
                let n = part(listed, spare_values.len());
                assign(head, &mut spare_values[0..n], wire, value)
            }
        }
        Call::Extend {
            entries: listed_entries,
            values: listed_values,
            out: listed_out,
        } => {
            let es = handed(&*entries, &*spare_entries, TABLE_SIZE, listed_entries);
            let vs = handed(&*values, &*spare_values, head.wires(), listed_values);
            let n = part(listed_out, scratch.len());
            extend(head, es, vs, &mut scratch[0..n])
        }
        Call::Quotient {
            entries: listed_entries,
            values: listed_values,
            out: listed_out,
            work: listed_work,
        } => {
            let es = handed(&*entries, &*spare_entries, TABLE_SIZE, listed_entries);
            let vs = handed(&*values, &*spare_values, head.wires(), listed_values);
            let n = part(listed_out, scratch.len());
            let w = part(listed_work, work.len());
            quotient(head, es, vs, &mut scratch[0..n], &mut work[0..w])
        }
        Call::Public {
            values: listed_values,
            out: listed_out,
        } => {
            let vs = handed(&*values, &*spare_values, head.wires(), listed_values);
            let n = part(listed_out, scratch.len());
            public(head, vs, &mut scratch[0..n])
        }
    }
}

// The calls of a list, one after another, with their answers.
pub(crate) fn replay<F: Field>(
    head: &mut Head,
    entries: &mut [Entry<F>],
    values: &mut [F],
    scratch: &mut [F],
    work: &mut [F],
    spare_entries: &mut [Entry<F>],
    spare_values: &mut [F],
    calls: &[Call<F>],
    answers: &mut [Result<(), Refused>],
)
    requires table { length entries.old ≡ 2048 }
    requires places { length values.old ≡ head.old.wires }
    requires room { length scratch.old ≡ head.old.columns + head.old.n }
    requires work { length work.old ≡ head.old.columns + 4 * head.old.n }
    requires count { length answers.old ≡ length calls.now }
    ensures { Run F.ops (sheet head.old entries.old values.old) calls.now answers.new (sheet head.new entries.new values.new) }
{
    for (i, call) in calls.iter().enumerate() {
        answers[i] = step(
            head,
            entries,
            values,
            scratch,
            work,
            spare_entries,
            spare_values,
            *call,
        );
    }
}

// Every run that the calls' contracts allow, whoever makes it. The function computes nothing: its contract is the theorem.
pub fn runs_stand<F: Field>()
    ensures { RunsStand F.ops }
{}

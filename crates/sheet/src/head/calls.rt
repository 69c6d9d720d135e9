// Making a sheet and filling it.
ghost use Rattle.std.specs.Prelude.{◌≡◌, ◌≤◌, T, length};
ghost use Rattle.sheet.specs.Rules.{in_limits};
ghost use Rattle.sheet.specs.Outcomes.{Planned, Made, Entered, Assigned, Numbers, counted, first_values};

use crate::counts::Counts;
use crate::entry::Entry;
use crate::head::Head;
use field::field::Field;
use field::root::subgroup_root;
use refusal::reason::Refusal;
use refusal::refused::Refused;

// How many records an entry table has.
pub const TABLE_SIZE: usize = 2048;

fn within_limits(c: Counts) -> bool
    ensures is { result ≡ in_limits (counted c) }
    ensures tells { T result → (1 ≤ c.wires) × (c.wires ≤ 2048) × (1 ≤ c.publics) × (c.publics ≤ 256) × (c.publics ≤ c.wires) × (c.rows ≤ 512) }
{
    (1..=2048).contains(&c.wires)
        && (1..=256).contains(&c.publics)
        && (c.publics <= c.wires && c.rows <= 512)
}

// One on wire 0, zero on every other.
fn reset<F: Field>(values: &mut [F])
    requires { 1 ≤ length values.old }
    ensures { values.new ≡ first_values F.ops (length values.old) }
{
    let zero = F::zero();
    values.fill_with(|| zero);
    values[0] = F::one();
}

// The head of a shape within the limits, with no entry used.
fn head_of(counts: Counts) -> Head
    requires wires { counts.wires ≤ 2048 }
    requires publics { (1 ≤ counts.publics) × (counts.publics ≤ 256) × (counts.publics ≤ counts.wires) }
    requires rows { counts.rows ≤ 512 }
    ensures { Numbers result (counted counts) 0 }
{
    let wires = counts.wires as usize;
    let publics = counts.publics as usize;
    let rows = counts.rows as usize;
    let k = (2 * publics).next_power_of_two();
    let n = (k + 2 * rows).next_power_of_two();
    Head {
        wires,
        publics,
        rows,
        k,
        n,
        log_n: n.ilog2(),
        columns: wires + 2 * publics + rows,
        used: 0,
    }
}

// The head of a sheet of these numbers, before there are values.
pub fn plan<F: Field>(counts: Counts) -> Result<Head, Refused>
    ensures { Planned F.ops (counted counts) result }
{
    if !within_limits(counts) {
        return Err(Refusal::OutOfLimits.at(0));
    }
    let head = head_of(counts);
    let _ = subgroup_root::<F>(head.log_n)?;
    Ok(head)
}

// The same with its value table: one on wire 0, zero on every other.
pub fn make<F: Field>(counts: Counts, values: &mut [F]) -> Result<Head, Refused>
    ensures { Made F.ops (counted counts) values.old result values.new }
{
    let head = plan::<F>(counts)?;
    if values.len() != head.wires {
        return Err(Refusal::WrongLength.at(0));
    }
    reset(values);
    Ok(head)
}

// One entry more, in the next place of the table.
pub fn enter<F: Field>(
    head: &mut Head,
    entries: &mut [Entry<F>],
    matrix: u32,
    row: u32,
    wire: u32,
    coefficient: F,
) -> Result<(), Refused>
    ensures { Entered head.old entries.old matrix row wire coefficient result head.new entries.new }
{
    if entries.len() != TABLE_SIZE {
        return Err(Refusal::WrongLength.at(0));
    }
    if !head.contains(matrix, row, wire) {
        return Err(Refusal::OutOfRange.at(0));
    }
    let at = head.used;
    if at >= TABLE_SIZE {
        return Err(Refusal::TableFull.at(0));
    }
    entries[at] = Entry {
        matrix,
        row,
        wire,
        coefficient,
    };
    head.used = at + 1;
    Ok(())
}

// Another value on a wire; wire 0 keeps its one.
pub fn assign<F: Field>(head: &Head, values: &mut [F], wire: u32, value: F) -> Result<(), Refused>
    ensures { Assigned head.now values.old wire value result values.new }
{
    if values.len() != head.wires {
        return Err(Refusal::WrongLength.at(0));
    }
    if wire == 0 || wire as usize >= head.wires {
        return Err(Refusal::OutOfRange.at(0));
    }
    values[wire as usize] = value;
    Ok(())
}

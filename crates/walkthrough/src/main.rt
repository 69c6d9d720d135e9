// Small tasks worked step by step, each action on a line of its own.
#![tactic(auto)]

mod fields;
mod print;
mod steps;
mod tables;
mod whole;

use std::io;

fn main(rt: HostRuntime) -> io::Result<()> {
    steps::step_by_step(&rt)?;
    whole::both_witnesses(&rt)?;
    fields::other_fields(&rt)
}

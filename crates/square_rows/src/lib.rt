// The rows of the square program, side by side, as linear combinations of its wires that are read term by term.
#![tactic(auto)]

pub mod combination;
mod kinds;
mod row_kind;
pub mod term;

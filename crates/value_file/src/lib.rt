// The values of a square program's wires, written as an assignment file.
#![tactic(auto)]

mod bytes;
pub mod writer;

// Assignment files (.wtns): the values of all wires, read into a lent table.
#![tactic(auto)]

mod checks;
pub mod reader;
pub mod theorem;

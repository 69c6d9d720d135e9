// Constraint files (.r1cs): the file is checked once, then its rows are read from it.
#![tactic(auto)]

pub mod header;
pub mod item;
pub mod reader;
pub mod row;
mod rows;
pub mod theorem;

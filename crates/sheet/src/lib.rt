// A sheet of product rows: its numbers, its entry table and its value table, and the calls that make and fill it.
#![tactic(auto)]

pub mod call;
pub mod counts;
pub mod entry;
pub mod head;
pub mod matrix;

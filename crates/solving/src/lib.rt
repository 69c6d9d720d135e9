// A sheet from its two files, and what its quotient says.
#![tactic(auto)]

pub mod fill;
pub mod open;

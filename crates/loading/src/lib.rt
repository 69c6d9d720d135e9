// Sheets from files: the rows of a constraint file entered into a sheet, and what a reading of values amounts to.
#![tactic(auto)]

pub mod assigns;
pub mod load;
mod rows;

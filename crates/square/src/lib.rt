// The square arithmetic program of a sheet: its values, its quotient and its public polynomial.
#![tactic(auto)]

mod consistent;
pub mod extend;
pub mod left;
pub mod public;
pub mod quotient;
pub mod row;
pub mod row_sums;
pub mod rows;

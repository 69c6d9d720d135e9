// Polynomials over a subgroup of 2-power order.
#![tactic(auto)]

pub mod interpolate;
pub mod polynomial;
mod product;
pub mod theory;

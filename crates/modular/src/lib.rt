// Prime fields: the numbers below a prime.
#![tactic(auto)]

pub mod f12289;
pub mod f97;
pub mod prime;
pub mod residue;

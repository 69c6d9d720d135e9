// Why a call says no: one enum, one table of numbers, one place per refusal.
#![tactic(auto)]

pub mod answer;
pub mod reason;
pub mod refused;

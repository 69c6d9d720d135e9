// The quadratic extension of any field by a square root of its top: again such a field.
#![tactic(auto)]

pub mod quadratic;
pub mod twice;

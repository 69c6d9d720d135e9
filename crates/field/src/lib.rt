// Fields known by their laws: the traits, and what they mean.
#![tactic(auto)]

pub mod field;
pub mod file_field;
pub mod root;

// Numbers and elements written into a lent buffer.
#![tactic(auto)]

pub mod plain;
pub mod put;
pub mod writer;

// The square program of a sheet, written as a constraint file.
#![tactic(auto)]

mod bytes;
mod file;
mod measure;
mod program;
pub mod writer;

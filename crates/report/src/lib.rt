// The text that the program prints, made from the bytes of the two files.
#![tactic(auto)]

mod append;
mod choice;
mod circuit;
mod elements;
mod fields;
mod lines;
mod survey;
pub mod text;
pub mod theorem;

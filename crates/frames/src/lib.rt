// What constraint files and assignment files share: a start, and sections in frames.
#![tactic(auto)]

pub mod format;
pub mod layout;
pub mod number;
pub mod section;
pub mod split;

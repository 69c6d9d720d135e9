// Lists of calls over one sheet, and what stands after any of them.
#![tactic(auto)]

pub mod law;
pub mod lent;
pub mod list;
pub mod survey;
pub mod surveyed;

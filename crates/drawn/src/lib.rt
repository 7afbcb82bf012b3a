#![tactic(auto)]

pub mod answers;
mod arrays;
pub mod edits;
pub mod limits;
pub mod row;
pub mod sheet;

pub use sheet::Drawn;

#![tactic(auto)]

pub mod laws;
mod lines;
pub mod misread;
pub mod reading;
mod tokens;
pub mod writing;

pub use misread::Misread;
pub use reading::read;
pub use writing::write;

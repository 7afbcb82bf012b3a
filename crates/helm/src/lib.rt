#![tactic(auto)]

pub use calls::{begin, finish, hear, steer};
pub use law::records_are_of_the_voyage_made;
pub use turns::{HarbourTurn, OurTurn, Record, Slip, Turn};

pub mod calls;
pub mod law;
mod tally;
pub mod turns;

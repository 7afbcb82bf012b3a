#![tactic(auto)]

pub mod layer;
pub mod limits;
pub mod names;
pub mod numbers;
pub mod questions;

pub use layer::Waiting;
pub use names::Position;
pub use numbers::{arrive, toll};
pub use questions::{
    find_position, first_position, levels, locate, may_be_laid, position_colour, position_degree,
    position_move, position_name, position_number, position_owner, positions, waiting_height,
    waiting_size,
};

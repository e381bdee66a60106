//! A run of the machine, in place.
#![tactic(auto)]

mod laws;
mod piece;
mod run;

pub use laws::piece_in_numbers;
pub use piece::{PIECE_BYTES, Piece};
pub use run::{Paused, advance};

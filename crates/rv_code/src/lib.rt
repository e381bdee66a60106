//! The machine: its instructions and their words, what each asks for, the registers of its calls,
//! and how it stops.
//!
//! `specs/` has the definition of the machine itself: its state, its step, its run.
#![tactic(auto)]

mod arithmetic;
mod asking;
mod call;
mod decoding;
mod effect;
mod encoding;
mod instr;
mod laws;
mod operand;
mod program;
mod rows;
mod stop;

pub use asking::{asks, register};
pub use call::{A0, A7};
pub use decoding::decode;
pub use effect::{Call, Effect};
pub use encoding::encode;
pub use instr::Instr;
pub use laws::{laws_of_runs, registers_in_numbers};
pub use operand::operands;
pub use program::{Bytes, Program, Words};
pub use stop::{Stop, Trap};

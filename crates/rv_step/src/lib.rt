//! One step of the machine, in place, with what it touches.
#![tactic(auto)]

mod cpu;
mod job;
mod laws;
mod limits;
mod noting;
mod one_step;
mod output;
mod perform;
mod record;
mod state;
mod stepped;

pub use cpu::Cpu;
pub use job::Job;
pub use laws::{limits_in_numbers, replay_law};
pub use limits::{BUDGET_LIMIT, GROUP_LIMIT, INPUT_BYTES};
pub use one_step::{step, step_plain};
pub use output::Output;
pub use record::{Guess, Record};
pub use rv_code::{Stop, Trap};
pub use state::State;
pub use stepped::Stepped;

//! A state of the machine.

ghost use Rattle.std.specs.Prelude.{◌≡◌, [], IfOk, true};
ghost use Rattle.rv_code.specs.State.{Running, start as start_of};
ghost use Rattle.rv_step.specs.InPlace.{machine_of};

use crate::cpu::Cpu;
use crate::job::Job;
use bop_ends::OutOfMemory;
use page_image::Image;
use rv_code::Stop;
use std::alloc::Global;

/// Registers, pc and cursor, data and stack, the count of steps and, once it has stopped, how.
#[derive(Drop)]
pub struct State {
    pub cpu: Cpu,
    pub image: Image,
    pub count: u64,
    pub stop: Option<Stop>,
}

impl State {
    /// The state of a job before its first step.
    #[tactic(auto, unfolding(rv_code::specs::State::start))]
    pub fn start(alloc: Global, job: &Job) -> Result<State, OutOfMemory>
        ensures state { IfOk result
            (λ state. machine_of state [] ≡ Running (start_of job.now.program)) }
        ensures count { IfOk result (λ state. state.count ≡ 0) }
        ensures owned { IfOk result (λ state. state.image.owned ≡ true) }
    {
        let image = Image::open(alloc, job.program.bytes.get())?;
        let cpu = Cpu {
            x: [0; 32],
            pc: job.program.entry,
            cursor: 0,
        };
        Ok(State {
            cpu,
            image,
            count: 0,
            stop: None,
        })
    }
}

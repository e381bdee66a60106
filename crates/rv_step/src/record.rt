//! Guesses, and records of what ran from them.

ghost use Rattle.rv_step.specs.ValidRecord.{IsValid};

use crate::cpu::Cpu;
use crate::job::Job;
use crate::output::Output;
use access_log::Log;
use bop_bits::PageSet;
use page_image::Image;
use rv_code::Stop;
use std::sync::Arc;

/// A state from which a task starts, with the count of steps before it and the pages that it has
/// received.
#[derive(Drop)]
pub struct Guess {
    pub cpu: Cpu,
    pub image: Image,
    pub count: u64,
    pub received: PageSet,
}

/// Steps that were taken from a guess, with their end, what they have put out, and their log: `fork`
/// is the number of steps up to the fork, and `late` has the pages that were received after it.
#[derive(Drop)]
pub struct Record {
    pub job: Arc<Job>,
    pub start: Guess,
    pub end: Cpu,
    pub image: Image,
    pub steps: u64,
    pub stop: Option<Stop>,
    pub output: Output,
    pub log: Log,
    pub fork: Option<u64>,
    pub late: PageSet,
    ghost valid: { IsValid job.value.program.classes job.value.program.code job.value.input
        (record { cpu = start.cpu; image = start.image }) (record { cpu = end; image = image })
        steps stop output log fork late.words },
}

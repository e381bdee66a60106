//! The verdict on a record.

ghost use Rattle.std.specs.Prelude.{◌≡◌};
ghost use Rattle.conflict_check.specs.Verdict.{verdict as verdict_of};

use crate::conflict::Conflict;
use crate::pages::memory_conflict;
use crate::registers::core_conflict;
use access_log::Places;
use rv_step::{Job, Record, State};

/// The first thing of which a record has seen what isn't true: pc, registers, cursor, pages. It takes
/// no memory.
pub fn verdict(job: &Job, truth: &State, changed: &Places, done: &Record) -> Option<Conflict>
    ensures { result ≡ verdict_of job.now truth.now changed.now done.now }
{
    match core_conflict(done.log.first(), &done.start.cpu, &truth.cpu) {
        Some(conflict) => Some(conflict),
        None => memory_conflict(job, truth, changed, done),
    }
}

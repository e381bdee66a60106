//! How a command has ended.

ghost use Rattle.std.specs.Prelude.{◌≡◌, ℕ};
ghost use Rattle.bop_top.specs.CommandFaults.{Counts};
ghost use Rattle.bop_top.specs.Statuses.{status_of};
ghost use Rattle.bop_top.specs.TextSays.{refused_outcome};

use crate::Status;
use c_tree::{Place, Undefined};
use low_link::Refused;
use rv_code::Trap;

/// How a command has ended: a status, but for those of faulty words and of a failed report.
#[derive(Clone, Copy, Debug, PartialEq, Eq)]
pub enum Outcome {
    Done(i32),
    Fine,
    LoadFault,
    ProgramTooLong,
    Rejected(Refused),
    ReadFault,
    InputTooLong,
    Budget,
    Trapped(Trap, u32),
    StackFull,
    Undefined(Undefined, Place),
    MoreSteps,
    WriteFault,
    OutOfMemory,
    NotYetBuilt,
}

impl Outcome {
    /// The status that tells it.
    pub fn status(self) -> Status
        ensures { result ≡ status_of self }
    {
        match self {
            Outcome::Done(exit) => Status::Done(exit),
            Outcome::Fine => Status::Fine,
            Outcome::LoadFault => Status::LoadFault,
            Outcome::ProgramTooLong => Status::ProgramTooLong,
            Outcome::Rejected(refused) => Status::Rejected(refused),
            Outcome::ReadFault => Status::ReadFault,
            Outcome::InputTooLong => Status::InputTooLong,
            Outcome::Budget => Status::Budget,
            Outcome::Trapped(trap, pc) => Status::Trapped(trap, pc),
            Outcome::StackFull => Status::StackFull,
            Outcome::Undefined(act, at) => Status::Undefined(act, at),
            Outcome::MoreSteps => Status::MoreSteps,
            Outcome::WriteFault => Status::WriteFault,
            Outcome::OutOfMemory => Status::OutOfMemory,
            Outcome::NotYetBuilt => Status::NotYetBuilt,
        }
    }
}

/// How a command ends whose text is refused.
pub fn outcome_of(refused: Refused) -> Outcome
    ensures outcome { result ≡ refused_outcome refused }
    ensures counts { (h i o : ℕ)
        → Counts result (record { shelf = h; input = i; output = o })
        (record { shelf = h; input = i; output = o }) }
{
    match refused {
        Refused::OutOfMemory => Outcome::OutOfMemory,
        refused => Outcome::Rejected(refused),
    }
}

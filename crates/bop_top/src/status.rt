//! How a call has ended, and what is told of it.

ghost use Rattle.std.specs.Prelude.{◌≡◌, ◌≤◌, length};
ghost use Rattle.bop_top.specs.Statuses.{row, row_of};

use c_tree::{Place, Undefined};
use low_link::Refused;
use rv_code::Trap;

/// How a call has ended.
#[derive(Clone, Copy, Debug, PartialEq, Eq)]
pub enum Status {
    /// The program has exited with this value, or its meaning is that it does.
    Done(i32),
    /// The text is one of the language.
    Fine,
    /// The words ask for nothing that `bop` does.
    BadWords,
    /// The program's file could not be loaded.
    LoadFault,
    /// The text has more than 1,048,576 bytes.
    ProgramTooLong,
    /// The text is at fault.
    Rejected(Refused),
    /// The input could not be read.
    ReadFault,
    /// The input has more than 16,777,216 bytes.
    InputTooLong,
    /// The machine hasn't stopped within the budget.
    Budget,
    /// The machine has trapped, at this pc.
    Trapped(Trap, u32),
    /// A call found no room on the stack.
    StackFull,
    /// The first undefined act, and where it stands.
    Undefined(Undefined, Place),
    /// The steps are used up.
    MoreSteps,
    /// The output could not be written.
    WriteFault,
    /// The command was answered, but its end could not be reported.
    ReportFault,
    /// There was no memory.
    OutOfMemory,
    /// The command isn't built yet.
    NotYetBuilt,
}

/// An end of a call.
#[derive(Clone, Copy, Debug)]
pub enum End {
    Shelf,
    Input,
    Output,
    Report,
}

/// What is told of a status.
#[derive(Clone, Copy, Debug)]
pub struct Row {
    /// Its name in the report.
    pub name: &'static str,
    /// The status with which the process ends.
    pub code: u8,
    /// Whether what was asked for was answered.
    pub answer: bool,
    /// The end that has failed.
    pub fault: Option<End>,
}

impl Row {
    fn new(name: &'static str, code: u8, answer: bool, fault: Option<End>) -> Row
        ensures { result ≡ record {
          name = name.entry;
          code = code;
          answer = answer;
          fault = fault;
        } }
    {
        Row {
            name,
            code,
            answer,
            fault,
        }
    }
}

impl Status {
    /// The row of the status.
    pub(crate) fn row(&self) -> Row
        ensures row { row_of self.now
            ≡ row result.name.now result.code result.answer result.fault }
        ensures short { length result.name.now ≤ 16 }
    {
        match self {
            Status::Done(_) => Row::new("done", 0, true, None),
            Status::Fine => Row::new("fine", 0, true, None),
            Status::BadWords => Row::new("bad-words", 2, false, None),
            Status::LoadFault => Row::new("load-fault", 3, false, Some(End::Shelf)),
            Status::ProgramTooLong => Row::new("program-too-long", 4, false, None),
            Status::Rejected(_) => Row::new("rejected", 5, false, None),
            Status::ReadFault => Row::new("read-fault", 7, false, Some(End::Input)),
            Status::InputTooLong => Row::new("input-too-long", 8, false, None),
            Status::Budget => Row::new("budget", 9, true, None),
            Status::Trapped(_, _) => Row::new("trapped", 10, true, None),
            Status::StackFull => Row::new("stack-full", 11, true, None),
            Status::Undefined(_, _) => Row::new("undefined", 12, true, None),
            Status::MoreSteps => Row::new("more-steps", 13, true, None),
            Status::WriteFault => Row::new("write-fault", 14, false, Some(End::Output)),
            Status::ReportFault => Row::new("report-fault", 15, false, Some(End::Report)),
            Status::OutOfMemory => Row::new("out-of-memory", 18, false, None),
            Status::NotYetBuilt => Row::new("not-yet-built", 19, false, None),
        }
    }

    /// The status with which the process ends.
    pub fn code(&self) -> u8
        ensures { result ≡ (row_of self.now).code }
    {
        self.row().code
    }
}

//! The report: a line about how a command has ended, and lines about its steps and its bytes.

ghost use Rattle.std.specs.Prelude.{◌≡◌, ◌≤◌, ◌<◌, ◌+◌, ◌++◌, length};
ghost use Rattle.arrayvec.specs.ArrayString.{array_string_len};
ghost use Rattle.bop_top.specs.Report.{Reported, report_of, number_line, text_of, detail, act_text, trap_text, placed, kind_text, rejection, unreported as unreported_of};

use crate::Status;
use crate::ending::Figures;
use arrayvec::ArrayString;
use bop_ends::{Failed, Sink};
use c_check::{CheckFault, CheckKind};
use c_expr::ParseFault;
use c_layout::LayoutFault;
use c_token::TokenFault;
use c_tree::{Place, Undefined};
use itoa::Buffer;
use low_link::Refused;
use rv_code::Trap;

/// How many bytes the line about the status has at most.
pub const LINE_BYTES: usize = 128;

/// How many bytes a report has at most.
pub const REPORT_BYTES: usize = 192;

/// Reports how a command has ended, and its figures. Answers how the whole call ends.
pub fn report_status<R: Sink>(inner: Status, told: Figures, report: &mut R) -> Status
    ensures { Reported inner result told (R.content report.old) (R.content report.new)
        (R.faults report.old) (R.faults report.new) }
{
    match report.append(text(inner, told).as_str().as_bytes()) {
        Ok(()) => inner,
        Err(Failed) => unreported(inner),
    }
}

/// How a call ends whose report has failed.
fn unreported(inner: Status) -> Status
    ensures { result ≡ unreported_of inner }
{
    if inner.row().answer {
        return Status::ReportFault;
    }
    inner
}

/// The text of a report. It takes no memory.
fn text(status: Status, told: Figures) -> ArrayString<REPORT_BYTES>
    ensures { result.bytes ≡ report_of status told }
{
    let mut text = ArrayString::new();
    text.push_str("status ");
    push_text(&mut text, status);
    text.push_str("\n");
    push_number(&mut text, "steps", told.steps);
    push_number(&mut text, "bytes", told.bytes);
    text
}

/// Adds the line about a number.
fn push_number(text: &mut ArrayString<REPORT_BYTES>, name: &str, number: Option<u64>)
    requires room { array_string_len text.old ≤ 160 }
    requires short { length name.now ≤ 5 }
    ensures text { text.new.bytes ≡ text.old.bytes ++ number_line name.now number }
    ensures few { array_string_len text.new ≤ array_string_len text.old + 27 }
{
    if let Some(count) = number {
        text.push_str(name);
        text.push_str(" ");
        text.push_str(Buffer::new().format(count));
        text.push_str("\n");
    }
}

/// Adds the text of a status.
fn push_text(line: &mut ArrayString<REPORT_BYTES>, status: Status)
    requires { array_string_len line.old ≤ 8 }
    ensures text { line.new.bytes ≡ line.old.bytes ++ text_of status }
    ensures room { array_string_len line.new < LINE_BYTES }
{
    line.push_str(status.row().name);
    push_detail(line, status);
}

/// Adds what the text of a status has behind its name.
fn push_detail(line: &mut ArrayString<REPORT_BYTES>, status: Status)
    requires { array_string_len line.old ≤ 24 }
    ensures text { line.new.bytes ≡ line.old.bytes ++ detail status }
    ensures room { array_string_len line.new < LINE_BYTES }
{
    match status {
        Status::Done(exit) => {
            line.push_str(" ");
            line.push_str(Buffer::new().format(exit));
        }
        Status::Rejected(refused) => {
            line.push_str(" ");
            push_rejection(line, refused);
        }
        Status::Trapped(trap, pc) => {
            line.push_str(" ");
            line.push_str(trap_name(trap));
            line.push_str(" ");
            line.push_str(Buffer::new().format(pc));
        }
        Status::Undefined(act, at) => {
            line.push_str(" ");
            push_placed(line, act_name(act), at);
        }
        _ => {}
    }
}

/// Adds a place behind the name of what stands there.
fn push_placed(line: &mut ArrayString<REPORT_BYTES>, name: &str, at: Place)
    requires { array_string_len line.old + length name.now ≤ 64 }
    ensures text { line.new.bytes ≡ line.old.bytes ++ placed name.now at }
    ensures room { array_string_len line.new < LINE_BYTES }
{
    line.push_str(name);
    line.push_str(" ");
    line.push_str(Buffer::new().format(at.line));
    line.push_str(" ");
    line.push_str(Buffer::new().format(at.column));
}

fn kind_name(kind: CheckKind) -> &'static str
    ensures name { result.now ≡ kind_text kind }
    ensures short { length result.now ≤ 19 }
{
    match kind {
        CheckKind::Unknown => "unknown",
        CheckKind::Twice => "twice",
        CheckKind::BadType => "bad-type",
        CheckKind::Arguments => "arguments",
        CheckKind::Marker => "marker",
        CheckKind::NoMain => "no-main",
        CheckKind::TooManyParameters => "too-many-parameters",
    }
}

fn act_name(act: Undefined) -> &'static str
    ensures name { result.now ≡ act_text act }
    ensures short { length result.now ≤ 13 }
{
    match act {
        Undefined::Overflow => "overflow",
        Undefined::Divide => "divide",
        Undefined::Shift => "shift",
        Undefined::Access => "access",
        Undefined::Indeterminate => "indeterminate",
        Undefined::Pointer => "pointer",
        Undefined::NoValue => "no-value",
    }
}

fn trap_name(trap: Trap) -> &'static str
    ensures name { result.now ≡ trap_text trap }
    ensures short { length result.now ≤ 11 }
{
    match trap {
        Trap::Fetch => "fetch",
        Trap::Illegal => "illegal",
        Trap::Load => "load",
        Trap::Store => "store",
        Trap::LoadAlign => "load-align",
        Trap::StoreAlign => "store-align",
        Trap::JumpAlign => "jump-align",
        Trap::Break => "break",
        Trap::Call => "call",
    }
}

/// Adds why a text is rejected.
fn push_rejection(line: &mut ArrayString<REPORT_BYTES>, refused: Refused)
    requires { array_string_len line.old ≤ 25 }
    ensures text { line.new.bytes ≡ line.old.bytes ++ rejection refused }
    ensures room { array_string_len line.new < LINE_BYTES }
{
    match refused {
        Refused::Token(TokenFault::BadByte(at)) => push_placed(line, "bad-byte", at),
        Refused::Token(TokenFault::OpenComment(at)) => push_placed(line, "open-comment", at),
        Refused::Token(TokenFault::BadLiteral(at)) => push_placed(line, "bad-literal", at),
        Refused::Token(TokenFault::TooLarge(at)) => push_placed(line, "too-large", at),
        Refused::Token(TokenFault::BadLine(at)) => push_placed(line, "bad-line", at),
        Refused::Parse(ParseFault::Unexpected(at)) => push_placed(line, "unexpected", at),
        Refused::Parse(ParseFault::TooDeep(at)) => push_placed(line, "too-deep", at),
        Refused::Check(CheckFault::Breach(kind, at)) => push_placed(line, kind_name(kind), at),
        Refused::Layout(LayoutFault::DataTooLarge) => line.push_str("data-too-large"),
        Refused::Layout(LayoutFault::FrameTooLarge(at)) => push_placed(line, "frame-too-large", at),
        Refused::CodeTooLong => line.push_str("code-too-long"),
        Refused::Token(TokenFault::OutOfMemory)
        | Refused::Parse(ParseFault::OutOfMemory)
        | Refused::Check(CheckFault::OutOfMemory)
        | Refused::Layout(LayoutFault::OutOfMemory)
        | Refused::OutOfMemory => line.push_str("out-of-memory"),
    }
}

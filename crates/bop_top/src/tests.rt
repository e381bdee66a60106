mod acts;
mod checks;
mod expressions;
mod meanings;
mod runs;

use super::*;
use crate::ending::Figures;
use crate::report::report_status;
use bop_ends::{MemShelf, MemSink, MemSource};
use c_check::{CheckFault, CheckKind};
use c_layout::LayoutFault;
use c_tree::{Place, Undefined};
use low_link::Refused;
use rv_code::Trap;
use std::alloc::Global;
use std::collections::BTreeMap;
use std::test::Fail;

const GREETING: &str = "int main(void){putchar('A');return 0;}";

/// How a call has ended, and what it has left in its source and its sinks.
#[derive(Drop)]
struct Ended {
    status: Status,
    input: MemSource,
    output: MemSink,
    report: MemSink,
}

/// A shelf with this text under the name `p.c`.
fn shelf_with(alloc: Global, text: &str) -> Result<MemShelf, Fail> {
    let mut files = BTreeMap::new(alloc);
    files.insert(
        String::from_str(alloc, "p.c")?,
        text.as_bytes().to_vec(alloc)?,
    )?;
    Ok(MemShelf::new(alloc, files, Vec::new(alloc)))
}

/// A sink that fails as planned.
fn sink_with(alloc: Global, fails: &[(u64, usize)]) -> Result<MemSink, Fail> {
    let sink = MemSink::new(alloc, 10_000, fails.to_vec(alloc)?);
    Ok(sink.ok().ok_or("no memory for a sink")?)
}

/// A source of these bytes, which gives three at once and fails as planned.
fn source_with(alloc: Global, bytes: &[u8], fails: &[u64]) -> Result<MemSource, Fail> {
    Ok(MemSource::new(bytes.to_vec(alloc)?, 3, fails.to_vec(alloc)?))
}

/// What the words ask for, over a shelf with this text, no input, and an output and a report that
/// fail as planned.
fn call(
    alloc: Global,
    words: &[&str],
    text: &str,
    output_fails: &[(u64, usize)],
    report_fails: &[(u64, usize)],
) -> Result<Ended, Fail> {
    let input = source_with(alloc, b"", &[])?;
    call_with(alloc, words, text, input, output_fails, report_fails)
}

/// What they ask for with this input.
fn call_with(
    alloc: Global,
    words: &[&str],
    text: &str,
    input: MemSource,
    output_fails: &[(u64, usize)],
    report_fails: &[(u64, usize)],
) -> Result<Ended, Fail> {
    let mut owned = Vec::new(alloc);
    for word in words {
        owned.push(String::from_str(alloc, word)?)?;
    }
    let mut shelf = shelf_with(alloc, text)?;
    let mut input = input;
    let output = sink_with(alloc, output_fails)?;
    let mut report = sink_with(alloc, report_fails)?;
    let (status, output) = bop_main(alloc, &owned, &mut shelf, &mut input, output, &mut report);
    Ok(Ended {
        status,
        input,
        output,
        report,
    })
}

#[test]
fn faults_and_faulty_words_are_told(rt: HostRuntime) -> Result<(), Fail> {
    let alloc = rt.alloc();
    let full: &[(u64, usize)] = &[(0, 0)];
    let unbuilt = b"status not-yet-built\n".as_slice();
    let rows: [(&[&str], &[(u64, usize)], Status, &[u8]); 13] = [
        (
            &["seq", "other.c"],
            &[],
            Status::LoadFault,
            b"status load-fault\n",
        ),
        (
            &["seq", "p.c"],
            full,
            Status::WriteFault,
            b"status write-fault\nsteps 30\nbytes 0\n",
        ),
        (&[], &[], Status::BadWords, b"status bad-words\n"),
        (&["seq"], &[], Status::BadWords, b"status bad-words\n"),
        (&["seq", ""], &[], Status::BadWords, b"status bad-words\n"),
        (
            &["seq", "-p.c"],
            &[],
            Status::BadWords,
            b"status bad-words\n",
        ),
        (
            &["seq", "p.c", "p.c"],
            &[],
            Status::BadWords,
            b"status bad-words\n",
        ),
        (
            &["Seq", "p.c"],
            &[],
            Status::BadWords,
            b"status bad-words\n",
        ),
        (
            &["run", "p.c", "--workers", "17"],
            &[],
            Status::BadWords,
            b"status bad-words\n",
        ),
        (&["run", "other.c"], full, Status::NotYetBuilt, unbuilt),
        (
            &["demo", "--seed", "0", "--regions", "1"],
            full,
            Status::NotYetBuilt,
            unbuilt,
        ),
        (
            &["replay", "other.c", "--schedule", "other.s"],
            full,
            Status::NotYetBuilt,
            unbuilt,
        ),
        (
            &["source", "--seed", "0", "--regions", "1"],
            full,
            Status::NotYetBuilt,
            unbuilt,
        ),
    ];
    for (row, (words, fails, wanted, line)) in rows.iter().enumerate() {
        let ended = call(alloc, words, GREETING, fails, &[])?;
        assert_eq!(rt; ended.status, *wanted, "row {row}");
        assert_eq!(rt; ended.output.content().len(), 0, "row {row}");
        assert_eq!(rt; ended.report.content(), *line, "row {row}");
    }
    Ok(())
}

#[test]
fn a_failed_report_is_a_fault_of_an_answer_alone(rt: HostRuntime) -> Result<(), Fail> {
    let alloc = rt.alloc();
    let rows: [(&[&str], usize, Status, &[u8], &[u8]); 4] = [
        (&["seq", "p.c"], 0, Status::ReportFault, b"A", b""),
        (
            &["seq", "p.c"],
            11,
            Status::ReportFault,
            b"A",
            b"status done",
        ),
        (&["seq", "other.c"], 0, Status::LoadFault, b"", b""),
        (&["seq"], 9, Status::BadWords, b"", b"status ba"),
    ];
    for (words, kept, wanted, bytes, front) in rows {
        let ended = call(alloc, words, GREETING, &[], &[(0, kept)])?;
        assert_eq!(rt; ended.status, wanted, "{front:?}");
        assert_eq!(rt; ended.output.content(), bytes, "{front:?}");
        assert_eq!(rt; ended.report.content(), front, "{front:?}");
    }
    Ok(())
}

#[test]
fn each_status_has_its_code_and_its_line(rt: HostRuntime) -> Result<(), Fail> {
    let alloc = rt.alloc();
    let place = Place {
        line: 2,
        column: 13,
    };
    let breach = CheckFault::Breach(CheckKind::Marker, place);
    let rejected = Status::Rejected(Refused::Check(breach));
    let too_large = Status::Rejected(Refused::Layout(LayoutFault::DataTooLarge));
    let too_long = Status::Rejected(Refused::CodeTooLong);
    let divided = Status::Undefined(Undefined::Divide, place);
    let rows: [(Status, u8, &str, bool); 20] = [
        (Status::Done(0), 0, "done 0", true),
        (Status::Done(-1), 0, "done -1", true),
        (Status::Done(2147483647), 0, "done 2147483647", true),
        (Status::Done(-2147483648), 0, "done -2147483648", true),
        (Status::Fine, 0, "fine", true),
        (Status::BadWords, 2, "bad-words", false),
        (Status::LoadFault, 3, "load-fault", false),
        (Status::ProgramTooLong, 4, "program-too-long", false),
        (rejected, 5, "rejected marker 2 13", false),
        (too_large, 5, "rejected data-too-large", false),
        (too_long, 5, "rejected code-too-long", false),
        (Status::ReadFault, 7, "read-fault", false),
        (Status::InputTooLong, 8, "input-too-long", false),
        (Status::Budget, 9, "budget", true),
        (Status::StackFull, 11, "stack-full", true),
        (divided, 12, "undefined divide 2 13", true),
        (Status::MoreSteps, 13, "more-steps", true),
        (Status::WriteFault, 14, "write-fault", false),
        (Status::OutOfMemory, 18, "out-of-memory", false),
        (Status::NotYetBuilt, 19, "not-yet-built", false),
    ];
    for (status, code, said, is_replaced) in rows {
        let unreported = if is_replaced {
            Status::ReportFault
        } else {
            status
        };
        let line = format!(in alloc; "status {said}\n")?;
        let mut report = sink_with(alloc, &[])?;
        assert_eq!(rt; status.code(), code, "{said}");
        assert_eq!(rt;
            report_status(status, Figures::none(), &mut report),
            status,
            "{said}"
        );
        assert_eq!(rt; report.content(), line.as_bytes(), "{said}");

        let mut report = sink_with(alloc, &[(0, 3)])?;
        assert_eq!(rt;
            report_status(status, Figures::none(), &mut report),
            unreported,
            "{said}"
        );
        assert_eq!(rt; report.content(), b"sta".as_slice(), "{said}");
    }
    assert_eq!(rt; Status::ReportFault.code(), 15);
    Ok(())
}

#[test]
fn each_trap_has_its_name(rt: HostRuntime) -> Result<(), Fail> {
    let alloc = rt.alloc();
    let traps: [(Trap, &str); 9] = [
        (Trap::Fetch, "fetch"),
        (Trap::Illegal, "illegal"),
        (Trap::Load, "load"),
        (Trap::Store, "store"),
        (Trap::LoadAlign, "load-align"),
        (Trap::StoreAlign, "store-align"),
        (Trap::JumpAlign, "jump-align"),
        (Trap::Break, "break"),
        (Trap::Call, "call"),
    ];
    for (trap, said) in traps {
        let status = Status::Trapped(trap, u32::MAX);
        let text = format!(in alloc; "status trapped {said} 4294967295\nsteps 12\nbytes 3\n")?;
        let mut report = sink_with(alloc, &[])?;
        assert_eq!(rt; status.code(), 10);
        assert_eq!(rt;
            report_status(status, Figures::of_run(12, 3), &mut report),
            status
        );
        assert_eq!(rt; report.content(), text.as_bytes());
    }
    Ok(())
}

#[test]
fn the_longest_figures_have_room(rt: HostRuntime) -> Result<(), Fail> {
    let alloc = rt.alloc();
    let place = Place {
        line: 4294967295,
        column: 4294967295,
    };
    let acts: [(Undefined, &str); 7] = [
        (Undefined::Overflow, "overflow"),
        (Undefined::Divide, "divide"),
        (Undefined::Shift, "shift"),
        (Undefined::Access, "access"),
        (Undefined::Indeterminate, "indeterminate"),
        (Undefined::Pointer, "pointer"),
        (Undefined::NoValue, "no-value"),
    ];
    let longest = u64::MAX;
    for (act, said) in acts {
        let text = format!(in alloc;
            "status undefined {said} 4294967295 4294967295\nsteps {longest}\nbytes {longest}\n"
        )?;
        let status = Status::Undefined(act, place);
        let mut report = sink_with(alloc, &[])?;
        assert_eq!(rt;
            report_status(status, Figures::of_run(u64::MAX, u64::MAX), &mut report),
            status
        );
        assert_eq!(rt; report.content(), text.as_bytes());

        let mut report = sink_with(alloc, &[(0, 50)])?;
        let unreported = Status::ReportFault;
        assert_eq!(rt;
            report_status(status, Figures::of_run(u64::MAX, u64::MAX), &mut report),
            unreported
        );
        let front = text.as_bytes().get(..50).ok_or("a front of the report")?;
        assert_eq!(rt; report.content(), front);
    }
    Ok(())
}

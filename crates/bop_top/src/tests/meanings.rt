//! Programs that are evaluated, and their inputs.

use super::{GREETING, call, call_with, source_with};
use crate::Status;
use bop_ends::MemSource;
use c_tree::{Place, Undefined};
use std::alloc::Global;
use std::test::Fail;

/// A text, its input, the budget where one is named, and what is said of it: the status, the bytes
/// written and the line about the status.
#[derive(Clone, Copy)]
struct Row {
    text: &'static str,
    input: &'static [u8],
    budget: Option<&'static str>,
    status: Status,
    output: &'static [u8],
    said: &'static str,
}

const COPY: &str = "int main(void){int c; while((c=getchar())!=EOF) putchar(c); return 0;}";

const ROWS: [Row; 9] = [
    Row {
        text: GREETING,
        input: b"",
        budget: None,
        status: Status::Done(0),
        output: b"A",
        said: "done 0",
    },
    Row {
        text: "int main(void){}",
        input: b"",
        budget: None,
        status: Status::Done(0),
        output: b"",
        said: "done 0",
    },
    Row {
        text: COPY,
        input: b"\x00\xff\x0a",
        budget: None,
        status: Status::Done(0),
        output: b"\x00\xff\x0a",
        said: "done 0",
    },
    Row {
        text: "int main(void){if(4294967295u+1u==0u) putchar('0'); else putchar('1'); return 0;}",
        input: b"",
        budget: None,
        status: Status::Done(0),
        output: b"0",
        said: "done 0",
    },
    Row {
        text: "int main(void){int a; int b; a=-2147483647-1; b=-1; putchar(a/b==a?'Y':'N'); return 0;}",
        input: b"unread",
        budget: None,
        status: Status::Undefined(
            Undefined::Overflow,
            Place {
                line: 1,
                column: 62,
            },
        ),
        output: b"",
        said: "undefined overflow 1 62",
    },
    Row {
        text: "int main(void){int *p; p=0; *p=1; return 0;}",
        input: b"",
        budget: None,
        status: Status::Undefined(
            Undefined::Access,
            Place {
                line: 1,
                column: 31,
            },
        ),
        output: b"",
        said: "undefined access 1 31",
    },
    Row {
        text: "int main(void){BeginPPR(1); putchar('m'); EndPPR(1); return -7;}",
        input: b"",
        budget: Some("0000000000100"),
        status: Status::Done(-7),
        output: b"m",
        said: "done -7",
    },
    // The start of `main`, the statement, the character and the call.
    Row {
        text: GREETING,
        input: b"",
        budget: Some("4"),
        status: Status::MoreSteps,
        output: b"A",
        said: "more-steps",
    },
    Row {
        text: GREETING,
        input: b"",
        budget: Some("3"),
        status: Status::MoreSteps,
        output: b"",
        said: "more-steps",
    },
];

#[test]
fn programs_mean_what_they_say(rt: HostRuntime) -> Result<(), Fail> {
    let alloc = rt.alloc();
    for row in ROWS {
        let input = source_with(alloc, row.input, &[])?;
        let ended = match row.budget {
            None => call_with(alloc, &["mean", "p.c"], row.text, input, &[], &[])?,
            Some(budget) => {
                let words = ["mean", "p.c", "--budget", budget];
                call_with(alloc, &words, row.text, input, &[], &[])?
            }
        };
        let text = row.text;
        let count = row.output.len();
        let said = row.said;
        let report = format!(in alloc; "status {said}\nbytes {count}\n")?;
        assert_eq!(rt; ended.status, row.status, "{text}");
        assert_eq!(rt; ended.output.content(), row.output, "{text}");
        assert_eq!(rt; ended.report.content(), report.as_bytes(), "{text}");
        assert_eq!(rt; ended.input.left().len(), 0, "{text}");
    }
    Ok(())
}

/// A loop without an end uses up its steps: five each turn, behind the start and the statement.
#[test]
fn a_loop_without_an_end_is_cut(rt: HostRuntime) -> Result<(), Fail> {
    let alloc = rt.alloc();
    let text = "int main(void){while(1) putchar('x');}";
    let words = ["mean", "p.c", "--budget", "1000"];
    let ended = call(alloc, &words, text, &[], &[])?;
    assert_eq!(rt; ended.status, Status::MoreSteps);
    assert_eq!(rt; ended.output.content().len(), 199);
    assert!(rt; ended.output.content().iter().all(|byte| *byte == b'x'));
    assert_eq!(rt;
        ended.report.content(),
        b"status more-steps\nbytes 199\n".as_slice()
    );
    Ok(())
}

/// Frames of 32 bytes fill the stack of 262,144 bytes, of which `main` has 16.
#[test]
fn a_recursion_without_an_end_fills_the_stack(rt: HostRuntime) -> Result<(), Fail> {
    let alloc = rt.alloc();
    let text = "int f(int n){putchar('r'); return f(n+1)+1;} int main(void){return f(0);}";
    let ended = call(alloc, &["mean", "p.c"], text, &[], &[])?;
    assert_eq!(rt; ended.status, Status::StackFull);
    assert_eq!(rt; ended.output.content().len(), 8191);
    assert!(rt; ended.output.content().iter().all(|byte| *byte == b'r'));
    assert_eq!(rt;
        ended.report.content(),
        b"status stack-full\nbytes 8191\n".as_slice()
    );
    Ok(())
}

/// The output is handed to the sink by one call, and by none where it is empty.
#[test]
fn the_output_is_written_at_once(rt: HostRuntime) -> Result<(), Fail> {
    let alloc = rt.alloc();
    let mut source = source_with(alloc, b"abcdefgh", &[])?;
    let words = ["mean", "p.c"];
    let ended = call_with(alloc, &words, COPY, source, &[(1, 0)], &[])?;
    assert_eq!(rt; ended.status, Status::Done(0));
    assert_eq!(rt; ended.output.content(), b"abcdefgh".as_slice());

    source = source_with(alloc, b"abcdefgh", &[])?;
    let ended = call_with(alloc, &words, COPY, source, &[(0, 5)], &[])?;
    assert_eq!(rt; ended.status, Status::WriteFault);
    assert_eq!(rt; ended.output.content(), b"abcde".as_slice());
    assert_eq!(rt; ended.input.left().len(), 0);
    assert_eq!(rt;
        ended.report.content(),
        b"status write-fault\nbytes 0\n".as_slice()
    );

    source = source_with(alloc, b"", &[])?;
    let ended = call_with(alloc, &words, COPY, source, &[(0, 0)], &[])?;
    assert_eq!(rt; ended.status, Status::Done(0));
    Ok(())
}

/// A report that fails is a fault of an answer alone.
#[test]
fn a_meaning_is_reported(rt: HostRuntime) -> Result<(), Fail> {
    let alloc = rt.alloc();
    let words = ["mean", "p.c", "--budget", "1"];
    let ended = call(alloc, &words, GREETING, &[], &[(0, 20)])?;
    assert_eq!(rt; ended.status, Status::ReportFault);
    assert_eq!(rt; ended.report.content(), b"status more-steps\nby".as_slice());
    Ok(())
}

/// So many bytes.
fn bytes_of(alloc: Global, count: usize) -> Result<Vec<u8>, Fail> {
    let mut bytes = Vec::with_capacity(alloc, count)?;
    bytes.resize(count, b'i')?;
    Ok(bytes)
}

/// The longest input is read, and one that is longer by a byte isn't.
#[test]
fn the_longest_input_is_read(rt: HostRuntime) -> Result<(), Fail> {
    let alloc = rt.alloc();
    for command in ["mean", "seq"] {
        let input = MemSource::new(bytes_of(alloc, 16_777_216)?, 65_536, Vec::new(alloc));
        let ended = call_with(alloc, &[command, "p.c"], GREETING, input, &[], &[])?;
        assert_eq!(rt; ended.status, Status::Done(0));
        assert_eq!(rt; ended.output.content(), b"A".as_slice());
        assert_eq!(rt; ended.input.left().len(), 0);
    }
    Ok(())
}

#[test]
fn a_longer_input_is_too_long(rt: HostRuntime) -> Result<(), Fail> {
    let alloc = rt.alloc();
    for command in ["mean", "seq"] {
        let input = MemSource::new(bytes_of(alloc, 16_777_217)?, 65_536, Vec::new(alloc));
        let ended = call_with(alloc, &[command, "p.c"], GREETING, input, &[], &[])?;
        assert_eq!(rt; ended.status, Status::InputTooLong);
        assert_eq!(rt; ended.output.content().len(), 0);
        assert_eq!(rt;
            ended.report.content(),
            b"status input-too-long\n".as_slice()
        );
    }
    Ok(())
}

/// An input that can't be read is a fault, at its first read or behind some bytes.
#[test]
fn an_input_that_fails_is_a_fault(rt: HostRuntime) -> Result<(), Fail> {
    let alloc = rt.alloc();
    let rows: [(&[u64], &[u8]); 3] = [(&[0], b"abcdef"), (&[1], b"def"), (&[2], b"")];
    for (fails, left) in rows {
        for command in ["mean", "seq"] {
            let input = source_with(alloc, b"abcdef", fails)?;
            let ended = call_with(alloc, &[command, "p.c"], GREETING, input, &[], &[])?;
            assert_eq!(rt; ended.status, Status::ReadFault);
            assert_eq!(rt; ended.input.left(), left);
            assert_eq!(rt; ended.output.content().len(), 0);
            assert_eq!(rt; ended.report.content(), b"status read-fault\n".as_slice());
        }
    }
    Ok(())
}

/// The input is read behind a text that is accepted, and by no other command.
#[test]
fn an_input_is_left_alone(rt: HostRuntime) -> Result<(), Fail> {
    let alloc = rt.alloc();
    let bad = "int main(void){return x;}";
    let rows: [(&[&str], &str, &[u8]); 6] = [
        (&["seq", "p.c"], bad, b"status rejected unknown 1 23\n"),
        (&["check", "p.c"], GREETING, b"status fine\n"),
        (&["mean", "p.c"], bad, b"status rejected unknown 1 23\n"),
        (&["mean", "other.c"], GREETING, b"status load-fault\n"),
        (&["mean"], GREETING, b"status bad-words\n"),
        (
            &["mean", "p.c", "--budget", "0"],
            GREETING,
            b"status bad-words\n",
        ),
    ];
    for (row, (words, text, line)) in rows.iter().enumerate() {
        let input = source_with(alloc, b"abcdef", &[0])?;
        let ended = call_with(alloc, words, text, input, &[], &[])?;
        assert_eq!(rt; ended.report.content(), *line, "row {row}");
        assert_eq!(rt; ended.input.left(), b"abcdef".as_slice(), "row {row}");
    }
    Ok(())
}

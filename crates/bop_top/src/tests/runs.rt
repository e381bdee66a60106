//! Programs that are run, and their inputs.

use super::{Ended, GREETING, call, call_with, source_with};
use crate::Status;
use c_check::{CheckFault, CheckKind};
use c_tree::Place;
use low_link::Refused;
use rv_code::Trap;
use std::alloc::Global;
use std::test::Fail;

/// A text, its input, and the value that it exits with and the bytes that it puts out.
type Row = (&'static str, &'static [u8], i32, &'static [u8]);

const ROWS: [Row; 9] = [
    (GREETING, b"", 0, b"A"),
    ("int main(void){}", b"", 0, b""),
    (
        "int main(void){int c; while((c=getchar())!=EOF) putchar(c); return 0;}",
        b"\x00\xff\x0a",
        0,
        b"\x00\xff\x0a",
    ),
    (
        "int main(void){if(4294967295u+1u==0u) putchar('0'); else putchar('1'); return 0;}",
        b"",
        0,
        b"0",
    ),
    (
        "int main(void){int a; int b; a=-2147483647-1; b=-1; putchar(a/b==a?'Y':'N'); return 0;}",
        b"unread",
        0,
        b"Y",
    ),
    (
        "int main(void){int *p; Post(5,p,64); Wait(9); putchar('k'); return 0;}",
        b"",
        0,
        b"k",
    ),
    (SQUARES, b"", 0, b"0\n5050\n10100\n15150\n"),
    (LOOPS, b"", 7, b"03 0123 31 01 2"),
    (KINDS, b"", -3, b"Az!!"),
];

/// Regions that write pages of their own.
const SQUARES: &str = "#include <stdio.h>
#include \"bop.h\"
#define N 4
int part[4096];
int work(int k){int s; int j; s=0; for(j=1;j<=100;j=j+1) s=s+j*k; return s;}
void print(int n){if(n>9) print(n/10); putchar('0'+n%10);}
int main(void){int i; for(i=0;i<N;i=i+1){BeginPPR(7); part[i*1024]=work(i); EndPPR(7);} for(i=0;i<N;i=i+1){print(part[i*1024]); putchar('\\n');} return 0;}";

/// A `continue` goes to the third part of a `for` and to the test of a `do`; a `break` leaves one loop;
/// a local of a `for` ends with it.
const LOOPS: &str = "int i=7;
int main(void){
  for(int i=0;i<4;i=i+1){if(i==1||i==2) continue; putchar('0'+i);}
  putchar(' ');
  int n=0;
  do{putchar('0'+n); n=n+1; if(n==2) continue;}while(n<4);
  putchar(' ');
  while(n>0){n=n-1; if(n%2==0) continue; for(;;){putchar(n==1?'1':'3'); break;}}
  putchar(' ');
  for(n=0;n<9;n++){if(n==2) break; putchar('0'+n);}
  putchar(' '); putchar('0'+n);
  return i;
}";

/// A parameter and a result of a char, a value that isn't used, and a call with eight arguments.
const KINDS: &str = "char low(char c){return c+256;}
int last(int a,int b,int c,int d,int e,int f,int g,int h){return h-a*0-b*0-c*0-d*0-e*0-f*0-g*0;}
void skip(void){return;}
int main(void){
  skip();
  putchar(low(321));
  putchar(last(1,2,3,4,5,6,7,'z'));
  putchar(putchar(289)==33?'!':'?')==33;
  return -3;
}";

/// The numbers of the lines about the steps and the bytes, behind the line about the status.
pub(super) fn figures(ended: &Ended) -> Option<(u64, u64)> {
    let report = str::from_utf8(ended.report.content()).ok()?;
    let (_status, rest) = report.split_once("\n")?;
    let (steps, rest) = rest.split_once("\n")?;
    let (bytes, _end) = rest.split_once("\n")?;
    let steps = steps.strip_prefix("steps ")?.parse::<u64>().ok()?;
    let bytes = bytes.strip_prefix("bytes ")?.parse::<u64>().ok()?;
    Some((steps, bytes))
}

#[test]
fn programs_do_what_they_say(rt: HostRuntime) -> Result<(), Fail> {
    let alloc = rt.alloc();
    for (text, bytes, value, output) in ROWS {
        let input = source_with(alloc, bytes, &[])?;
        let ended = call_with(alloc, &["seq", "p.c"], text, input, &[], &[])?;
        let (steps, count) = figures(&ended).ok_or("no figures")?;
        let report = format!(in alloc; "status done {value}\nsteps {steps}\nbytes {count}\n")?;
        assert_eq!(rt; ended.status, Status::Done(value), "{text}");
        assert_eq!(rt; ended.output.content(), output, "{text}");
        assert_eq!(rt; count, output.len() as u64, "{text}");
        assert_eq!(rt; ended.report.content(), report.as_bytes(), "{text}");
        assert_eq!(rt; ended.input.left().len(), 0, "{text}");
    }
    Ok(())
}

/// A budget of all the steps of a run is enough, and one of a step fewer isn't.
#[test]
fn the_last_step_needs_its_budget(rt: HostRuntime) -> Result<(), Fail> {
    let alloc = rt.alloc();
    let ended = call(alloc, &["seq", "p.c"], GREETING, &[], &[])?;
    let (steps, _bytes) = figures(&ended).ok_or("no figures")?;
    let fewer = steps.saturating_sub(1);
    for (budget, wanted) in [(steps, Status::Done(0)), (fewer, Status::Budget)] {
        let digits = format!(in alloc; "{budget}")?;
        let words = ["seq", "p.c", "--budget", digits.as_str()];
        let ended = call(alloc, &words, GREETING, &[], &[])?;
        assert_eq!(rt; ended.status, wanted);
        assert_eq!(rt; figures(&ended), Some((budget, 1)));
        assert_eq!(rt; ended.output.content(), b"A".as_slice());
    }
    Ok(())
}

/// A loop without an end is cut where its budget ends.
#[test]
fn a_run_is_cut(rt: HostRuntime) -> Result<(), Fail> {
    let alloc = rt.alloc();
    let text = "int main(void){while(1) putchar('x');}";
    let words = ["seq", "p.c", "--budget", "1000"];
    let ended = call(alloc, &words, text, &[], &[])?;
    let (steps, bytes) = figures(&ended).ok_or("no figures")?;
    assert_eq!(rt; ended.status, Status::Budget);
    assert_eq!(rt; steps, 1000);
    assert!(rt; bytes > 3);
    assert_eq!(rt; ended.output.content().len() as u64, bytes);
    assert!(rt; ended.output.content().iter().all(|byte| *byte == b'x'));
    Ok(())
}

/// The frames are of 32 and 16 bytes, so the stack has room for 8,191 calls.
#[test]
fn a_recursion_fills_the_stack(rt: HostRuntime) -> Result<(), Fail> {
    let alloc = rt.alloc();
    let text = "int f(int n){putchar('r'); return f(n+1)+1;} int main(void){return f(0);}";
    for command in ["seq", "mean"] {
        let ended = call(alloc, &[command, "p.c"], text, &[], &[])?;
        assert_eq!(rt; ended.status, Status::StackFull);
        assert_eq!(rt; ended.output.content().len(), 8191);
        assert!(rt; ended.output.content().iter().all(|byte| *byte == b'r'));
    }
    Ok(())
}

/// The output goes on in pieces of 4,096 bytes, of which the second fails.
#[test]
fn an_output_that_fails_has_a_prefix(rt: HostRuntime) -> Result<(), Fail> {
    let alloc = rt.alloc();
    let text = "int main(void){int i; for(i=0;i<10000;i=i+1) putchar('x'); return 0;}";
    let ended = call(alloc, &["seq", "p.c"], text, &[(1, 3)], &[])?;
    let (_steps, bytes) = figures(&ended).ok_or("no figures")?;
    assert_eq!(rt; ended.status, Status::WriteFault);
    assert_eq!(rt; ended.output.content().len(), 4099);
    assert_eq!(rt; bytes, 4096);
    Ok(())
}

/// What C doesn't define ends as the machine does it.
#[test]
fn a_store_nowhere_traps(rt: HostRuntime) -> Result<(), Fail> {
    let alloc = rt.alloc();
    let text = "int main(void){int *p; p=0; *p=1; return 0;}";
    let ended = call(alloc, &["seq", "p.c"], text, &[], &[])?;
    let Status::Trapped(trap, pc) = ended.status else {
        return Err(Fail::from("the program traps"));
    };
    let (steps, _bytes) = figures(&ended).ok_or("no figures")?;
    let report = format!(in alloc; "status trapped store {pc}\nsteps {steps}\nbytes 0\n")?;
    assert_eq!(rt; trap, Trap::Store);
    assert_eq!(rt; ended.report.content(), report.as_bytes());
    Ok(())
}

/// A body of so many statements `;`.
fn body_of(alloc: Global, count: usize) -> Result<String, Fail> {
    let mut text = String::from_str(alloc, "int main(void){")?;
    for _statement in 0..count {
        text.push_str(";")?;
    }
    text.push_str("}")?;
    Ok(text)
}

/// How a command ends with a text.
fn status_of(alloc: Global, command: &str, text: &str) -> Result<Status, Fail> {
    Ok(call(alloc, &[command, "p.c"], text, &[], &[])?.status)
}

/// A text has 7,680 parts at most: here its beginning, its function and its statements.
#[test]
fn a_text_has_few_parts(rt: HostRuntime) -> Result<(), Fail> {
    let alloc = rt.alloc();
    let long = Status::Rejected(Refused::CodeTooLong);
    let most = body_of(alloc, 7_678)?;
    let more = body_of(alloc, 7_679)?;
    for (command, fine) in [
        ("seq", Status::Done(0)),
        ("mean", Status::Done(0)),
        ("check", Status::Fine),
    ] {
        assert_eq!(rt; status_of(alloc, command, &most)?, fine, "{command}");
        assert_eq!(rt; status_of(alloc, command, &more)?, long, "{command}");
    }
    Ok(())
}

/// A text at fault is rejected before anything is taken or written.
#[test]
fn a_text_at_fault_is_rejected(rt: HostRuntime) -> Result<(), Fail> {
    let alloc = rt.alloc();
    let place = Place {
        line: 1,
        column: 16,
    };
    let ended = call(
        alloc,
        &["seq", "p.c"],
        "int main(void){EndPPR(3);return 0;}",
        &[],
        &[],
    )?;
    let breach = CheckFault::Breach(CheckKind::Marker, place);
    assert_eq!(rt; ended.status, Status::Rejected(Refused::Check(breach)));
    assert_eq!(rt; ended.output.content().len(), 0);
    for (text, said) in [
        ("int main(void){return x;}", "unknown 1 23"),
        ("int main(void){return 4294967296;}", "too-large 1 23"),
        ("int main(void){/*", "open-comment 1 16"),
    ] {
        let ended = call(alloc, &["seq", "p.c"], text, &[], &[])?;
        let report = format!(in alloc; "status rejected {said}\n")?;
        assert_eq!(rt; ended.report.content(), report.as_bytes(), "{text}");
    }
    Ok(())
}

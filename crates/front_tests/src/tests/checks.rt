//! Each kind of fault with its place, and what is accepted. A body of `main` is on line 2.

use crate::tests::read::{read_tree, row};
use c_check::{CheckFault, CheckKind, check};
use c_tree::Place;
use std::alloc::Global;
use std::process::Abort;
use std::test::Fail;

/// Why a text isn't accepted, where it isn't.
fn refusal(rt: &impl Abort, alloc: Global, text: &str) -> Result<Option<CheckFault>, Fail> {
    Ok(check(alloc, read_tree(rt, alloc, text)?).err())
}

fn with_body(alloc: Global, body: &str) -> Result<String, Fail> {
    Ok(format!(in alloc; "int main(void){{\n{body}}}")?)
}

const ACCEPTED: &str = "return 0;
int x; {int x; x;} x;
int x; while(1){break;} return x;
BeginPPR(255); {BeginPPR(1); EndPPR(1);} EndPPR(255);
Wait(63);";

#[test]
fn a_tree_without_a_breach_is_accepted(rt: HostRuntime) -> Result<(), Fail> {
    for body in ACCEPTED.lines() {
        let text = with_body(rt.alloc(), body)?;
        assert_eq!(rt; refusal(&rt, rt.alloc(), text.as_str())?, None, "{body}");
    }
    Ok(())
}

const FAULTS: &str = "x; : Unknown 1
{int x;} x; : Unknown 10
int x; int x; : Twice 12
break; : BadType 1
return; : BadType 1
while(1){} break; : BadType 12
main(1); : Arguments 1
Wait(64); : Marker 1
BeginPPR(0); : Marker 1
BeginPPR(0); {EndPPR(0);} : Marker 1
BeginPPR(0); EndPPR(0); BeginPPR(0); : Marker 25
EndPPR(0); BeginPPR(0); : Marker 1";

/// A fault by its name and its column on line 2.
fn fault(text: &str) -> Result<CheckFault, Fail> {
    let (kind, column) = text.split_once(" ").ok_or("a fault has a column")?;
    let kind = match kind {
        "Unknown" => CheckKind::Unknown,
        "Twice" => CheckKind::Twice,
        "BadType" => CheckKind::BadType,
        "Arguments" => CheckKind::Arguments,
        _ => CheckKind::Marker,
    };
    let column = column.parse::<u32>()?;
    Ok(CheckFault::Breach(kind, Place { line: 2, column }))
}

#[test]
fn a_breach_has_its_place(rt: HostRuntime) -> Result<(), Fail> {
    for line in FAULTS.lines() {
        let (body, want) = row(line)?;
        let text = with_body(rt.alloc(), body)?;
        let found = refusal(&rt, rt.alloc(), text.as_str())?;
        assert_eq!(rt; found, Some(fault(want)?), "{body}");
    }
    Ok(())
}

#[test]
fn a_text_has_a_main_without_parameters(rt: HostRuntime) -> Result<(), Fail> {
    let none = CheckFault::Breach(CheckKind::NoMain, Place { line: 1, column: 1 });
    let many = CheckFault::Breach(CheckKind::TooManyParameters, Place { line: 1, column: 5 });
    for (text, want) in [
        ("int f(void){return 0;}", none),
        (
            "int main(int a,int b,int c,int d,int e,int f,int g,int h){return 0;}",
            none,
        ),
        (
            "int main(int a,int b,int c,int d,int e,int f,int g,int h,int i){return 0;}",
            many,
        ),
        ("int f(void){\nx;}", fault("Unknown 1")?),
    ] {
        assert_eq!(rt; refusal(&rt, rt.alloc(), text)?, Some(want), "{text}");
    }
    Ok(())
}

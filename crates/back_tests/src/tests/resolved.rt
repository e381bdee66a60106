//! A text that is resolved within the stack of a test.

use crate::tests::accepted::accepted;
use c_resolve::resolve_text;
use std::alloc::Global;
use std::test::Fail;

/// A program of some 64,000 operators, each the first operand of the next: 65 pairs of
/// parentheses at the left, and after each as many operators of each rank as the levels allow.
fn left_spine(alloc: Global) -> Result<String, Fail> {
    let mut text = String::new(alloc);
    text.push_str("int main(void){return ")?;
    for _ in 0..65 {
        text.push_str("(")?;
    }
    text.push_str("1")?;
    for closed in 0..66u32 {
        for operator in ["*", "+", "<<", "<", "==", "&", "^", "|", "&&", "||"] {
            for _ in 0..3 * closed {
                text.push_str(operator)?;
                text.push_str("1")?;
            }
        }
        if closed < 65 {
            text.push_str(")")?;
        }
    }
    text.push_str(";}")?;
    Ok(text)
}

#[test]
fn long_sums_need_little_stack(rt: HostRuntime) -> Result<(), Fail> {
    let alloc = rt.alloc();
    let text = left_spine(alloc)?;
    let (checked, layout) = accepted(alloc, &text)?;
    let routines = resolve_text(alloc, checked.tree(), &layout)?;
    assert_eq!(rt; routines.all.len(), 1);
    assert_eq!(rt; routines.main, Some(0));
    Ok(())
}

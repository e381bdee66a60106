//! Long lists, and the limit of nesting.

use super::{read, shown};
use std::alloc::Global;
use std::process::Abort;
use std::test::Fail;

/// The text that a line `FIRST|MIDDLE|TIMES|LAST` says, whose middle stands so many times.
fn repeated(alloc: Global, line: &str) -> Result<String, Fail> {
    let (first, line) = line.split_once("|").ok_or("a line without a first part")?;
    let (middle, line) = line.split_once("|").ok_or("a line without a middle")?;
    let (times, last) = line.split_once("|").ok_or("a line without a count")?;
    let mut text = format!(in alloc; "{first}")?;
    for _ in 0..times.parse::<u32>()? {
        text.push_str(middle)?;
    }
    text.push_str(last)?;
    Ok(text)
}

/// Reads the text of each line, and answers how many there are.
fn all_read(rt: &impl Abort, alloc: Global, table: &str) -> Result<u32, Fail> {
    let mut count = 0u32;
    for line in table.lines() {
        let text = repeated(alloc, line)?;
        assert!(rt; read(rt, alloc, text.as_str())?.is_ok(), "at {line}");
        count = count.saturating_add(1);
    }
    Ok(count)
}

const LONG: &str = "\
void f(){|;|100000|}
void f(){|int x;|2000|}
|int f();|2000|
int x|,x|2000|;
int x[1]={1|,1|2000|,};
int f(int|,int|2000|);";

/// The longest text of each form that is read.
const DEEPEST: &str = "\
int |*|200|x,x;
int |*|200|f(){}
int |*|199|f(){;}
int f(int |*|199|x[]);
int |*|197|x[1];
int |*|197|x=1;
int x|[1]|198|;
void f(){|if(1)|197|;}
void f(){int x;|int x;|300|}";

/// The next ones.
const DEEPER: &str = "\
void f(){|{|199| => Unexpected 1:209
void f(){|{|201| => TooDeep 1:210
void f(){|(|201|a;} => TooDeep 1:76
int |*|201|x; => TooDeep 1:206
int |*|202|x; => TooDeep 1:206
int |*|201|; => Unexpected 1:206
int |*|200|f(){;} => TooDeep 1:209
int |*|199|f(){a;} => TooDeep 1:208
int f(int |*|200|x[]); => TooDeep 1:213
int |*|198|x[1]; => TooDeep 1:205
int |*|198|x=1; => TooDeep 1:205
int |*|198|x={1}; => TooDeep 1:206
int x|[1]|199|; => TooDeep 1:601
void f(){|if(1)|199|;} => TooDeep 1:998
void f(){|do |201|; => TooDeep 1:610";

#[test]
fn long_lists_do_not_nest(rt: HostRuntime) -> Result<(), Fail> {
    let count = all_read(&rt, rt.alloc(), LONG)?;
    assert_eq!(rt; count, 6);
    Ok(())
}

#[test]
fn nesting_goes_to_level_200(rt: HostRuntime) -> Result<(), Fail> {
    let count = all_read(&rt, rt.alloc(), DEEPEST)?;
    assert_eq!(rt; count, 9);
    Ok(())
}

#[test]
fn nesting_ends_at_level_200(rt: HostRuntime) -> Result<(), Fail> {
    let alloc = rt.alloc();
    let mut count = 0u32;
    for line in DEEPER.lines() {
        let (line, fault) = line.split_once(" => ").ok_or("a line without an arrow")?;
        let text = repeated(alloc, line)?;
        assert_eq!(rt;
            shown(&rt, alloc, text.as_str())?.as_str(),
            fault,
            "at {line}"
        );
        count = count.saturating_add(1);
    }
    assert_eq!(rt; count, 15);
    Ok(())
}

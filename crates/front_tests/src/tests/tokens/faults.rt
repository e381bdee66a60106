//! Faults, and their places.

use super::{check, shown};
use std::test::Fail;

/// The first fault from the left.
const FAULTS: &str = "int main(void){return 4294967296;} => TooLarge 1:23
int main(void){/* => OpenComment 1:16
/* => OpenComment 1:1
/*/ => OpenComment 1:1
/** => OpenComment 1:1
x /* * / => OpenComment 1:3
a¶ /* b¶ c => OpenComment 2:2
/* */ // */¶/* // => OpenComment 2:1
\"a\" => BadByte 1:1
a\\b => BadByte 1:2
a @ => BadByte 1:3
$ => BadByte 1:1
` => BadByte 1:1
1.5 => BadByte 1:2
\0 => BadByte 1:1
\x7f => BadByte 1:1
x = é => BadByte 1:5
/* é¶@ */ @ => BadByte 2:6
@ 4294967296 => BadByte 1:1
4294967296 @ => TooLarge 1:1
a¶\t4294967296 08 => TooLarge 2:2
08 4294967296 => BadLiteral 1:1
a¶b '' @ => BadLiteral 2:3
a¶#x¶@ => BadLine 2:1
@¶#x => BadByte 1:1
#x¶/* => BadLine 1:1";

#[test]
fn the_first_fault_from_the_left(rt: HostRuntime) -> Result<(), Fail> {
    let alloc = rt.alloc();
    assert_eq!(rt; check(&rt, alloc, FAULTS, false)?, 26);
    let found = shown(&rt, alloc, b"a\n\xff".as_slice(), false)?;
    assert_eq!(rt; found.as_str(), "BadByte 2:1");
    let found = shown(&rt, alloc, b"/*\x80\xff*/ \x80".as_slice(), false)?;
    assert_eq!(rt; found.as_str(), "BadByte 1:8");
    Ok(())
}

//! Lines that begin with `#`.

use super::{check, check_each};
use std::test::Fail;

/// The three forms, with blanks and comments at every place.
const FORMS: &str = "#include <stdio.h> => end@1:19
#include <stdio.h>¶ => end@2:1
#include \"bop.h\"¶ => end@2:1
#include<stdio.h>¶ => end@2:1
#include\"bop.h\"¶ => end@2:1
 \t#\t include \t<stdio.h>\t ¶ => end@2:1
\t # \tinclude\t \"bop.h\" \t¶ => end@2:1
#include <stdio.h>\r¶ => end@2:1
#include <stdio.h> /* a */ /**/¶ => end@2:1
#include <stdio.h>/* a *//* b */// c */ d¶ => end@2:1
#include <stdio.h>/* a */\r// b¶ => end@2:1
#include <stdio.h> \r \t/* a */¶ => end@2:1
#include <stdio.h> // a \r\r¶ => end@2:1
#include \"bop.h\"// => end@1:19
// a¶#include <stdio.h>¶ => end@3:1
#define N 4¶N => 4@2:1 end@2:2
#define N 4\r¶N => 4@2:1 end@2:2
 # define  N\t 4\t¶N => 4@2:1 end@2:2
\t#\tdefine\tN\t0x10U/**/\r/**/ //¶N => 16u@2:1 end@2:2
#define N 4//5¶N => 4@2:1 end@2:2
#define N 4/* * / ** */¶N N => 4@2:1 4@2:3 end@2:4
#define N 037777777777¶N => 4294967295u@2:1 end@2:2
#define _n9 0¶_n9 => 0@2:1 end@2:4
#define include 1¶include => 1@2:1 end@2:8
#define N 4¶#define M 5¶N+M+N2+n => 4@3:1 +@3:2 5@3:3 +@3:4 N2@3:5 +@3:7 n@3:8 end@3:9
N¶#define N 4¶N => N@1:1 4@3:1 end@3:2
#define N 4¶'N'/*N*/ => '78@2:1 end@2:9";

/// Lines that are none of the forms.
const NO_INCLUDES: &str = "#
#¶
# \t
##
# 1
#undef N
#if 1
#pragma
#Define N 4
#define
#include
#include¶
#includes <stdio.h>
#include stdio.h
#include <stdlib.h>
#include < stdio.h>
#include <stdio.h >
#include \"stdio.h\"
#include <bop.h>
#include <stdio.h> x
#include <stdio.h>x
#include <stdio.h> <stdio.h>
#include <stdio.h>;
#include <stdio.h>\r\r¶
#include <stdio.h>\r /**/ \r¶
#include <stdio.h>\x0b
#include <stdio.h>\x0c¶
#include <stdio.h> /* a
#include <stdio.h> /* a¶*/
#include <stdio.h> /
#include/**/<stdio.h>
#/**/include <stdio.h>
#\rinclude <stdio.h>
#include \\¶<stdio.h>";

/// Lines that define nothing.
const NO_DEFINES: &str = "#define N
#define N ¶4
#define 4 N
#define 4 4
#defineN 4
#define N4
#define N/**/4
#define N /**/ 4
#define N 4 5
#define N 4;
#define N 4a
#define N -4
#define N (4)
#define N() 4
#define N(x) 4
#define N 'a'
#define N 08
#define N 0x
#define N 2147483648
#define N 4294967296u
#define N M
#define N int
#define int 4
#define EOF 1
#define Post 1
#define N 4 /*
#define N 4 /* a¶*/
#define N 4\r\r¶
#define N\r4
#define N,4";

/// Where such a line is a fault, and where none begins.
const PLACES: &str = " \t#x => BadLine 1:3
¶¶  # => BadLine 3:3
#define N 4¶#define N 4¶ => BadLine 2:1
#define N 4¶ #define N 5¶ => BadLine 2:2
#define N 4¶#define M N¶ => BadLine 2:1
#define N 4¶#N¶ => BadLine 2:1
/**/#include <stdio.h> => BadByte 1:5
/*¶*/ #include <stdio.h> => BadByte 2:4
\r#include <stdio.h> => BadByte 1:2
\x0b#include <stdio.h> => BadByte 1:2
 \x0c#include <stdio.h> => BadByte 1:3
x #include <stdio.h> => BadByte 1:3";

#[test]
fn the_three_forms(rt: HostRuntime) -> Result<(), Fail> {
    assert_eq!(rt; check(&rt, rt.alloc(), FORMS, true)?, 27);
    Ok(())
}

#[test]
fn no_other_line(rt: HostRuntime) -> Result<(), Fail> {
    let alloc = rt.alloc();
    assert_eq!(rt; check_each(&rt, alloc, NO_INCLUDES, "BadLine 1:1")?, 34);
    assert_eq!(rt; check_each(&rt, alloc, NO_DEFINES, "BadLine 1:1")?, 30);
    assert_eq!(rt; check(&rt, alloc, PLACES, false)?, 12);
    Ok(())
}

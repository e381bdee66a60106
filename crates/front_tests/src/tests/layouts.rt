//! Layouts of small texts, with numbers worked out by hand.

use crate::tests::read::read_tree;
use bop_bits::Classes;
use c_layout::{Layout, LayoutFault, layout_of};
use c_tree::{Binary, CType, Expr, ExprKind, Fun, Item, Name, Place, Stmt, StmtKind, Tree};
use std::alloc::Global;
use std::process::Abort;
use std::test::Fail;

fn row(line: &str) -> Result<(&str, &str), Fail> {
    Ok(line.split_once(" -> ").ok_or("a row has two parts")?)
}

fn layout(rt: &impl Abort, alloc: Global, text: &str) -> Result<Layout, Fail> {
    Ok(layout_of(alloc, &read_tree(rt, alloc, text)?)?)
}

/// Why a text has no layout, where it has none.
fn refusal(rt: &impl Abort, alloc: Global, text: &str) -> Result<Option<LayoutFault>, Fail> {
    Ok(layout_of(alloc, &read_tree(rt, alloc, text)?).err())
}

/// The slots, the size and the places of the first frame.
fn frame(rt: &impl Abort, alloc: Global, text: &str) -> Result<String, Fail> {
    let layout = layout(rt, alloc, text)?;
    if layout.frame_count() == 0 {
        return Ok(String::new(alloc));
    }
    let frame = layout.frame(0);
    let mut shown = format!(in alloc; "{} {}", frame.slots, frame.size)?;
    for place in &frame.places {
        shown.push_str(&format!(in alloc; " {place}")?)?;
    }
    Ok(shown)
}

fn show_globals(alloc: Global, layout: &Layout) -> Result<String, Fail> {
    let mut shown = String::new(alloc);
    for index in 0..8u32 {
        if (index as usize) < layout.global_count() {
            shown.push_str(&format!(in alloc; "{} ", layout.global(index))?)?;
        }
    }
    Ok(shown)
}

const SLOTS: &str = "x -> 1
7 -> 1
'A' -> 1
EOF -> 1
-x -> 1
x++ -> 1
(char)x -> 1
a+b -> 2
a+(b+c) -> 3
a+b+c -> 2
a+b+(c+d) -> 3
a&&b -> 1
a||b&&c -> 1
a&&b+c -> 2
c?a:b -> 1
c?a+b:d -> 2
c?a:d+e -> 2
a=b -> 2
a=b=c -> 3
a[i] -> 2
a[i+(j+k)] -> 4
a[i][j] -> 2
f() -> 1
f(a) -> 1
f(a,b) -> 2
f(a,b,c) -> 3
f(a+b,c) -> 2
f(c,a+b) -> 3
a+f(b,c) -> 3
f(a)+b -> 2";

#[test]
fn each_form_has_its_slots(rt: HostRuntime) -> Result<(), Fail> {
    let alloc = rt.alloc();
    for line in SLOTS.lines() {
        let (expr, want) = row(line)?;
        let text = format!(in alloc; "void g(void){{{expr};}}")?;
        let found = layout(&rt, alloc, text.as_str())?;
        assert_eq!(rt; found.frame_count(), 1);
        if found.frame_count() == 1 {
            assert_eq!(rt; found.frame(0).slots, want.parse::<u32>()?, "{expr}");
        }
    }
    Ok(())
}

const FRAMES: &str = "(void){;} -> 0 16
(void){Wait(0);} -> 0 16
(int i){;} -> 0 16 0
(int i,int*p){;} -> 0 16 0 4
(int i,int a[],char c){;} -> 0 32 0 4 8
(int i){return x;} -> 1 16 4
(int i,int j){return x+y;} -> 2 32 8 12
(void){char c;} -> 0 16 0
(void){char c; int i;} -> 0 16 0 4
(void){char c[5]; int i; char d[3];} -> 1 32 4 12 16
(void){int a[3][2]; char*p; char*q[2];} -> 1 48 4 28 32
(void){int a[n]; char c;} -> 1 16 4 4
(char c){char d[3]; 1+2;} -> 2 32 8 12
(void){int i=x;} -> 1 16 4
(void){int a[2]={1,2+3};} -> 2 32 8
(void){if(c){int i;}} -> 1 16 4
(void){if(c){int i;}else{char d;}} -> 1 32 4 8
(void){while(c){int i;}} -> 1 16 4
(void){do{int i;}while(c);} -> 1 16 4
(void){for(int i;i<n;i++){char c;}} -> 2 32 8 12
(void){for(x;i<n;i++);} -> 2 16
(void){{int i;;char c;}} -> 0 16 0 4
(void){{int i;a+(b+c);}break;} -> 3 32 12";

#[test]
fn frames_have_slots_parameters_and_locals(rt: HostRuntime) -> Result<(), Fail> {
    let alloc = rt.alloc();
    for line in FRAMES.lines() {
        let (rest, want) = row(line)?;
        let text = format!(in alloc; "void f{rest}")?;
        let found = frame(&rt, alloc, text.as_str())?;
        assert_eq!(rt; found.as_str(), want, "{rest}");
    }
    Ok(())
}

const DECLARED: &str = "int f(int i);
void g(void){;}
int a;
int h(int i,int j){return x;}
void k(void);";

#[test]
fn functions_that_are_only_declared_have_no_frame(rt: HostRuntime) -> Result<(), Fail> {
    let found = layout(&rt, rt.alloc(), DECLARED)?;
    assert_eq!(rt; found.frame_count(), 2);
    if found.frame_count() == 2 {
        assert_eq!(rt; found.frame(0).size, 16);
        assert_eq!(rt; found.frame(1).size, 32);
    }
    Ok(())
}

fn classes(checked_from: u32, private_from: u32, private_to: u32) -> Classes {
    Classes {
        checked_from,
        private_from,
        private_to,
    }
}

const SECTIONS: &str = "BOP_PRIVATE char a; BOP_PRIVATE int b;
char c; int d; char e;
BOP_CHECKED char*f;
int g;
BOP_PRIVATE char h[3]; BOP_PRIVATE unsigned i[2][2];
BOP_CHECKED char j; BOP_CHECKED char k;";

#[test]
fn each_section_begins_on_a_new_page(rt: HostRuntime) -> Result<(), Fail> {
    let found = layout(&rt, rt.alloc(), SECTIONS)?;
    assert_eq!(rt;
        show_globals(rt.alloc(), &found)?.as_str(),
        "1056768 1056772 1048576 1048580 1048584 1052672 1048588 1056776 "
    );
    assert_eq!(rt; found.classes(), classes(1, 2, 3));
    Ok(())
}

#[test]
fn sections_take_the_pages_that_they_need(rt: HostRuntime) -> Result<(), Fail> {
    let rows = [
        ("void f(void){;}", classes(0, 0, 0)),
        ("char a[4096];", classes(1, 1, 1)),
        ("char a[4097];", classes(2, 2, 2)),
        (
            "BOP_CHECKED int a[1024]; BOP_PRIVATE char b;",
            classes(0, 1, 2),
        ),
        ("BOP_PRIVATE int a[2048]; char b;", classes(1, 1, 3)),
        ("char a[2883584];", classes(704, 704, 704)),
    ];
    for (text, want) in rows {
        let found = layout(&rt, rt.alloc(), text)?;
        assert_eq!(rt; found.classes(), want, "{text}");
    }
    Ok(())
}

#[test]
fn data_end_before_the_stack(rt: HostRuntime) -> Result<(), Fail> {
    for text in [
        "char a[2883585];",
        "char a[2883584]; BOP_PRIVATE char b;",
        "BOP_CHECKED int a[720897];",
        "BOP_PRIVATE int a[65536][65536];",
        "int a[4294967295u][4294967295u][4294967295u];",
        "int a[4000000000u]; BOP_CHECKED int b[4000000000u]; BOP_PRIVATE int c[4000000000u];",
        "void f(void){char a[70000];} char b[2883585];",
    ] {
        let found = refusal(&rt, rt.alloc(), text)?;
        assert_eq!(rt; found, Some(LayoutFault::DataTooLarge), "{text}");
    }
    let text = "int a[0][4294967295u]; int b; BOP_PRIVATE int c[719872];";
    let found = layout(&rt, rt.alloc(), text)?;
    assert_eq!(rt;
        show_globals(rt.alloc(), &found)?.as_str(),
        "1048576 1048576 1052672 "
    );
    Ok(())
}

#[test]
fn frames_have_at_most_65536_bytes(rt: HostRuntime) -> Result<(), Fail> {
    for (text, want) in [
        ("void f(void){char a[65524];}", "1 65536 4"),
        ("void f(int i){return x;char a[65520];}", "1 65536 4 8"),
    ] {
        assert_eq!(rt; frame(&rt, rt.alloc(), text)?.as_str(), want);
    }
    for text in [
        "int a;\nvoid f(void){char b[65525];}",
        "void f(void){char a[65524];}\nvoid g(int i){return x;char a[65521];}\nvoid h(void){int a[70000];}",
        "void f(void);\nvoid g(void){int a[4294967295u][4294967295u];int b[4294967295u];}",
    ] {
        let place = Place { line: 2, column: 6 };
        let found = refusal(&rt, rt.alloc(), text)?;
        assert_eq!(rt; found, Some(LayoutFault::FrameTooLarge(place)), "{text}");
    }
    Ok(())
}

/// A sum of 70,001 operands, each within the one before.
fn long_sum(alloc: Global) -> Result<Expr, Fail> {
    let place = Place { line: 1, column: 1 };
    let mut sum = Expr {
        kind: ExprKind::Eof,
        place,
    };
    for _index in 0..70_000 {
        let one = Expr {
            kind: ExprKind::Number(CType::Int, 1),
            place,
        };
        let kind = ExprKind::Binary(Binary::Plus, Box::new(alloc, sum)?, Box::new(alloc, one)?);
        sum = Expr { kind, place };
    }
    Ok(sum)
}

#[test]
fn long_sums_need_little_stack(rt: HostRuntime) -> Result<(), Fail> {
    let alloc = rt.alloc();
    let place = Place { line: 1, column: 1 };
    let mut body = Vec::new(alloc);
    body.push(Stmt {
        kind: StmtKind::Expr(long_sum(alloc)?),
        place,
    })?;
    let mut items = Vec::new(alloc);
    items.push(Item::Fun(Fun {
        base: CType::Int,
        stars: 0,
        name: Name::of(b"f".to_vec(alloc)?),
        place,
        params: Vec::new(alloc),
        body: Some(body),
    }))?;
    let layout = layout_of(alloc, &Tree { items })?;
    assert!(rt; layout.frame_count() > 0);
    assert_eq!(rt; layout.frame(0).slots, 2);
    Ok(())
}

/// A call with more arguments than a frame has slots.
#[test]
fn slots_are_bounded_by_the_frame(rt: HostRuntime) -> Result<(), Fail> {
    for (count, want) in [(16_382u32, true), (16_383u32, false), (20_000u32, false)] {
        let mut text = String::new(rt.alloc());
        text.push_str("void g(void){f(0")?;
        for _index in 1..count {
            text.push_str(",1")?;
        }
        text.push_str(");}")?;
        let found = refusal(&rt, rt.alloc(), text.as_str())?;
        assert_eq!(rt; found.is_none(), want, "{count}");
    }
    Ok(())
}

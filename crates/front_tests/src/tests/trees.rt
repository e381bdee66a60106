//! What no clause says: that erasing succeeds, how it answers on a tree with a marker in each place, and that a
//! deep tree is copied and dropped within the stack of a test.

use c_tree::{
    Binary, CType, Callee, Count, Expr, ExprKind, First, Fun, Init, Item, Keep, Marker, Name,
    Param, Place, Step, Stmt, StmtKind, Tree, Unary, Var, erase,
};
use std::alloc::{AllocError, Global};
use std::test::Fail;

fn at(column: u32) -> Place {
    Place { line: 1, column }
}

fn number(value: u32) -> Expr {
    let kind = ExprKind::Number(CType::Int, value);
    Expr { kind, place: at(9) }
}

fn name(alloc: Global, bytes: &[u8]) -> Result<Name, AllocError> {
    Ok(Name::of(Vec::from_slice(alloc, bytes)?))
}

fn function(alloc: Global, params: Vec<Param>, body: Option<Vec<Stmt>>) -> Result<Item, Fail> {
    Ok(Item::Fun(Fun {
        base: CType::Int,
        stars: 0,
        name: name(alloc, b"main")?,
        place: at(5),
        params,
        body,
    }))
}

/// An expression whose first operand is `first`, of one of the seven forms that have one.
fn around(alloc: Global, turn: u32, first: Expr) -> Result<Expr, Fail> {
    let first = Box::new(alloc, first)?;
    let kind = match turn % 7 {
        0 => ExprKind::Unary(Unary::Minus, first),
        1 => ExprKind::Step(Step::RaiseLast, first),
        2 => ExprKind::Cast(CType::Char, first),
        3 => ExprKind::Binary(Binary::Plus, first, Box::new(alloc, number(turn))?),
        4 => {
            let second = Box::new(alloc, number(turn))?;
            ExprKind::Conditional(first, second, Box::new(alloc, number(0))?)
        }
        5 => ExprKind::Assign(None, first, Box::new(alloc, number(turn))?),
        _ => ExprKind::Index(first, Box::new(alloc, number(turn))?),
    };
    Ok(Expr {
        kind,
        place: at(turn),
    })
}

/// 70,000 expressions, each the first operand of the next.
fn deep(alloc: Global) -> Result<Tree, Fail> {
    let mut e = number(0);
    for turn in 0..70_000 {
        e = around(alloc, turn, e)?;
    }
    let mut body = Vec::new(alloc);
    body.push(Stmt {
        kind: StmtKind::Return(Some(e)),
        place: at(1),
    })?;
    let mut items = Vec::new(alloc);
    items.push(function(alloc, Vec::new(alloc), Some(body))?)?;
    Ok(Tree { items })
}

#[test]
fn erases_and_drops_a_deep_tree(rt: HostRuntime) -> Result<(), Fail> {
    let tree = deep(rt.alloc())?;
    let bare = erase(rt.alloc(), &tree)?;
    assert_eq!(rt; bare.items.len(), 1);
    Ok(())
}

/// A marker, or where the tree is to be bare the empty statement at its place.
fn mark(bare: bool, marker: Marker, column: u32) -> Stmt {
    let kind = if bare {
        StmtKind::Empty
    } else {
        StmtKind::Marker(marker)
    };
    Stmt {
        kind,
        place: at(column),
    }
}

fn post(alloc: Global) -> Result<Marker, Fail> {
    let count = Count::Name(name(alloc, b"n")?, at(7));
    Ok(Marker::Post(3, name(alloc, b"a")?, at(6), count))
}

fn put(body: &mut Vec<Stmt>, kind: StmtKind, column: u32) -> Result<(), Fail> {
    body.push(Stmt {
        kind,
        place: at(column),
    })?;
    Ok(())
}

fn var(alloc: Global) -> Result<Var, Fail> {
    let mut sizes = Vec::new(alloc);
    sizes.push(number(2))?;
    let mut values = Vec::new(alloc);
    values.push(number(1))?;
    Ok(Var {
        base: CType::Unsigned,
        stars: 1,
        name: name(alloc, b"a")?,
        place: at(3),
        sizes,
        init: Some(Init::Many(values)),
    })
}

/// `putchar(f(1), EOF, 'a')`, which no text reads as right, but which is a tree.
fn call(alloc: Global) -> Result<Expr, Fail> {
    let mut inner = Vec::new(alloc);
    inner.push(number(1))?;
    let mut args = Vec::new(alloc);
    let called = Callee::Name(name(alloc, b"f")?);
    args.push(Expr {
        kind: ExprKind::Call(called, inner),
        place: at(4),
    })?;
    args.push(Expr {
        kind: ExprKind::Eof,
        place: at(5),
    })?;
    args.push(Expr {
        kind: ExprKind::Character(97),
        place: at(6),
    })?;
    Ok(Expr {
        kind: ExprKind::Call(Callee::Putchar, args),
        place: at(2),
    })
}

/// Statements with a part, each part a marker.
fn parts(alloc: Global, bare: bool, body: &mut Vec<Stmt>) -> Result<(), Fail> {
    let yes = Box::new(alloc, mark(bare, Marker::Wait(2), 20))?;
    let no = Box::new(alloc, mark(bare, post(alloc)?, 21))?;
    put(body, StmtKind::If(number(1), yes, Some(no)), 22)?;
    let alone = Box::new(alloc, mark(bare, Marker::Wait(4), 23))?;
    put(body, StmtKind::If(number(2), alone, None), 24)?;
    let turn = Box::new(alloc, mark(bare, post(alloc)?, 25))?;
    put(body, StmtKind::While(number(3), turn), 26)?;
    let once = Box::new(alloc, mark(bare, Marker::Begin(5), 27))?;
    put(body, StmtKind::Do(once, number(4)), 28)?;
    let last = Box::new(alloc, mark(bare, Marker::End(5), 29))?;
    let first = First::Expr(number(5));
    put(body, StmtKind::For(first, Some(number(6)), None, last), 30)
}

/// Each form of statement, with a marker in each place that can hold one.
fn every_form(alloc: Global, bare: bool) -> Result<Vec<Stmt>, Fail> {
    let mut body = Vec::new(alloc);
    body.push(mark(bare, Marker::Begin(1), 10))?;
    let mut inner = Vec::new(alloc);
    inner.push(mark(bare, post(alloc)?, 11))?;
    put(&mut inner, StmtKind::Empty, 12)?;
    put(&mut body, StmtKind::Block(inner), 13)?;
    parts(alloc, bare, &mut body)?;
    let mut vars = Vec::new(alloc);
    vars.push(var(alloc)?)?;
    put(&mut body, StmtKind::Vars(vars), 14)?;
    put(&mut body, StmtKind::Expr(call(alloc)?), 15)?;
    put(&mut body, StmtKind::Break, 16)?;
    put(&mut body, StmtKind::Continue, 17)?;
    put(&mut body, StmtKind::Return(None), 18)?;
    body.push(mark(bare, Marker::End(1), 19))?;
    Ok(body)
}

fn text(alloc: Global, bare: bool) -> Result<Tree, Fail> {
    let mut vars = Vec::new(alloc);
    vars.push(var(alloc)?)?;
    let mut params = Vec::new(alloc);
    params.push(Param {
        base: CType::Char,
        stars: 1,
        name: None,
        place: at(8),
        array: true,
    })?;
    let mut items = Vec::new(alloc);
    items.push(Item::Vars(Keep::Private, vars))?;
    items.push(function(alloc, params, None)?)?;
    let body = every_form(alloc, bare)?;
    items.push(function(alloc, Vec::new(alloc), Some(body))?)?;
    Ok(Tree { items })
}

#[test]
fn erases_markers_and_nothing_else(rt: HostRuntime) -> Result<(), Fail> {
    let wanted = format!(in rt.alloc(); "{:?}", text(rt.alloc(), true)?)?;
    for bare in [false, true] {
        let erased = erase(rt.alloc(), &text(rt.alloc(), bare)?)?;
        let shown = format!(in rt.alloc(); "{erased:?}")?;
        assert_eq!(rt; shown.as_str(), wanted.as_str());
    }
    Ok(())
}

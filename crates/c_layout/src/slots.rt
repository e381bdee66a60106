//! Slots of expressions and statements.

ghost use Rattle.std.specs.Prelude.{◌≡◌, ◌+◌, ◌<◌, ◌≤◌, max, map, option_map, MatchOption, if◌then◌else◌};
ghost use Rattle.std.specs.Option.{option_copied};
ghost use Rattle.c_tree.specs.declared.tree.Expr.{size-Expr};
ghost use Rattle.c_tree.specs.Groups.{group, is_logic};
ghost use Rattle.c_tree.specs.View.{expr_of, exprs_of, init_of, var_of, first_of, stmt_of, stmts_of, boxed_stmt_of, else_of};
ghost use Rattle.c_layout.specs.private.Capped.{few};
ghost use Rattle.c_layout.specs.Slots.{slots, slots_from, most, optional, init_slots, declarators_slots, beginning_slots, statement_slots, else_slots, body_slots};

use crate::limits::MANY;
use c_tree::{Binary, Expr, ExprKind, First, Init, Stmt, StmtKind, Var};

/// The slots of what stands beside the first operand of an expression, and that operand; without one, all slots.
#[derive(Clone, Copy)]
struct Parted<'a> {
    beside: u32,
    first: Option<&'a Expr>,
}

/// The slots of an operand while another value is kept.
fn behind_one(slots: u32) -> u32
    requires { slots ≤ MANY }
    ensures { result ≡ few (1 + slots) }
{
    (1 + slots).min(MANY)
}

/// The slots of a right operand.
fn right(op: Binary, slots: u32) -> u32
    requires { slots ≤ MANY }
    ensures { result ≡ few (if is_logic (group op) then slots else 1 + slots) }
{
    if op.group().is_logic() {
        slots
    } else {
        behind_one(slots)
    }
}

#[cycle(slots)]
#[tactic(auto, using(c_tree::proofs::ViewLemmas::views))]
fn part(e: &Expr) -> Parted
    ensures slots { MatchOption (option_copied result.first)
        (result.beside ≡ few (slots (expr_of e.now)))
        (λ a. max result.beside (few (slots (expr_of a))) ≡ few (slots (expr_of e.now))) }
    ensures smaller { MatchOption (option_copied result.first) (Unit {0})
        (λ a. size-Expr a < size-Expr e.now) }
{
    match &e.kind {
        ExprKind::Name(_) => Parted {
            beside: 1,
            first: None,
        },
        ExprKind::Number(_, _) => Parted {
            beside: 1,
            first: None,
        },
        ExprKind::Character(_) => Parted {
            beside: 1,
            first: None,
        },
        ExprKind::Eof => Parted {
            beside: 1,
            first: None,
        },
        ExprKind::Unary(_, a) => Parted {
            beside: 0,
            first: Some(a),
        },
        ExprKind::Step(_, a) => Parted {
            beside: 0,
            first: Some(a),
        },
        ExprKind::Cast(_, a) => Parted {
            beside: 0,
            first: Some(a),
        },
        ExprKind::Binary(op, a, b) => Parted {
            beside: right(*op, slots(b)),
            first: Some(a),
        },
        ExprKind::Conditional(c, a, b) => Parted {
            beside: slots(a).max(slots(b)),
            first: Some(c),
        },
        ExprKind::Assign(_, a, b) => Parted {
            beside: behind_one(slots(b)),
            first: Some(a),
        },
        ExprKind::Index(a, b) => Parted {
            beside: behind_one(slots(b)),
            first: Some(a),
        },
        ExprKind::Call(_, args) => Parted {
            beside: argument_slots(args).max(1),
            first: None,
        },
    }
}

/// The slots of an expression. First operands are followed in a loop: a text can have some 64,000 of them, each within the one before.
#[cycle(slots)]
pub(crate) fn slots(e: &Expr) -> u32
    ensures { result ≡ few (slots (expr_of e.now)) }
{
    let mut most = 0;
    let mut end = e;
    loop {
        let parted = part(end);
        most = most.max(parted.beside);
        let Some(first) = parted.first else {
            return most;
        };
        end = first;
    }
}

#[cycle(slots)]
fn argument_slots(args: &[Expr]) -> u32
    ensures { result ≡ few (slots_from 0 (exprs_of args.now)) }
{
    let mut most: u32 = 0;
    let mut at: u32 = 0;
    for arg in args {
        most = most.max((at + slots(arg)).min(MANY));
        at = (at + 1).min(MANY);
    }
    most
}

/// The most slots of some expressions.
fn most(list: &[Expr]) -> u32
    ensures { result ≡ few (most (exprs_of list.now)) }
{
    let mut most: u32 = 0;
    for e in list {
        most = most.max(slots(e));
    }
    most
}

fn optional(e: &Option<Expr>) -> u32
    ensures { result ≡ few (optional (option_map expr_of e.now)) }
{
    match e {
        None => 0,
        Some(e) => slots(e),
    }
}

fn init_slots(init: &Option<Init>) -> u32
    ensures { result ≡ few (init_slots (option_map init_of init.now)) }
{
    match init {
        None => 0,
        Some(Init::One(e)) => slots(e),
        Some(Init::Many(list)) => most(list),
    }
}

fn var_slots(vars: &[Var]) -> u32
    ensures { result ≡ few (declarators_slots (map var_of vars.now)) }
{
    let mut greatest: u32 = 0;
    for v in vars {
        greatest = greatest.max(most(&v.sizes)).max(init_slots(&v.init));
    }
    greatest
}

fn first_slots(first: &First) -> u32
    ensures { result ≡ few (beginning_slots (first_of first.now)) }
{
    match first {
        First::Nothing => 0,
        First::Vars(vars) => var_slots(vars),
        First::Expr(e) => slots(e),
    }
}

#[cycle(statements)]
fn else_slots(other: &Option<Box<Stmt>>) -> u32
    ensures { result ≡ few (else_slots (else_of boxed_stmt_of other.now)) }
{
    match other {
        None => 0,
        Some(s) => stmt_slots(s),
    }
}

#[cycle(statements)]
#[tactic(auto, using(c_tree::proofs::ViewLemmas::views))]
fn stmt_slots(s: &Stmt) -> u32
    ensures { result ≡ few (statement_slots (stmt_of s.now)) }
{
    match &s.kind {
        StmtKind::Empty => 0,
        StmtKind::Expr(e) => slots(e),
        StmtKind::Vars(vars) => var_slots(vars),
        StmtKind::Block(body) => body_slots(body),
        StmtKind::Marker(_) => 0,
        StmtKind::If(test, yes, no) => slots(test).max(stmt_slots(yes)).max(else_slots(no)),
        StmtKind::While(test, body) => slots(test).max(stmt_slots(body)),
        StmtKind::Do(body, test) => stmt_slots(body).max(slots(test)),
        StmtKind::For(first, test, step, body) => first_slots(first)
            .max(optional(test))
            .max(optional(step))
            .max(stmt_slots(body)),
        StmtKind::Return(value) => optional(value),
        StmtKind::Break => 0,
        StmtKind::Continue => 0,
    }
}

/// The slots of a function's body.
#[cycle(statements)]
pub(crate) fn body_slots(body: &[Stmt]) -> u32
    ensures { result ≡ few (body_slots (stmts_of body.now)) }
{
    let mut most: u32 = 0;
    for s in body {
        most = most.max(stmt_slots(s));
    }
    most
}

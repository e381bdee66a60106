//! Statements (C11 6.8).

ghost use Rattle.std.specs.Prelude.{◌≡◌, ◌&&◌, not, true, false, None, OnOk, option_map};
ghost use Rattle.c_tree.specs.Breach.{Adds};
ghost use Rattle.c_tree.specs.Breaches.{may_take};
ghost use Rattle.c_tree.specs.Rules.{is_nought};
ghost use Rattle.c_tree.specs.Scope.{entered};
ghost use Rattle.c_tree.specs.Shapes.{is_void};
ghost use Rattle.c_tree.specs.Statements.{behind, behind_beginning, test_breaches, optional_test_breaches, unused_breaches, beginning_breaches, return_breaches, statement_breaches, else_breaches, body_breaches};
ghost use Rattle.c_tree.specs.View.{expr_of, ty_of, first_of, boxed_stmt_of, else_of, stmt_of, stmts_of};
ghost use Rattle.c_types.specs.Env.{scope_of};
ghost use Rattle.c_rules.specs.Seen.{seen_some};
ghost use Rattle.c_check.specs.private.Checking.{scope_in, Notes};
ghost use Rattle.c_check.specs.private.Parts.{head_breaches};

use crate::checker::Checker;
use crate::declarator::check_declarators;
use crate::marker::check_marker;
use c_rules::{Seen, is_void, may_take, note};
use c_tree::{Broken, CType, Expr, First, Least, OutOfMemory, Place, Stmt, StmtKind, Storage, Use};
use c_types::{Env, is_nought, may_test, walk};

/// Notes what a condition breaks.
#[tactic(auto, using(c_tree::proofs::LeastBreach::append_rules))]
fn check_test(test: &Expr, place: Place, env: &Env, least: &mut Least)
    ensures { Adds least.old least.new (test_breaches (scope_of env.now) (expr_of test.now) place) }
{
    let ty = walk(test, env, Use::Value, least);
    note(least, may_test(ty), Broken::Mismatch, place);
}

fn check_optional_test(test: &Option<Expr>, place: Place, env: &Env, least: &mut Least)
    ensures { Adds least.old least.new
        (optional_test_breaches (scope_of env.now) (option_map expr_of test.now) place) }
{
    if let Some(test) = test {
        check_test(test, place, env, least);
    }
}

/// Notes what an expression breaks whose value isn't used.
fn check_unused(e: &Option<Expr>, env: &Env, least: &mut Least)
    ensures { Adds least.old least.new
        (unused_breaches (scope_of env.now) (option_map expr_of e.now)) }
{
    if let Some(e) = e {
        let _ty = walk(e, env, Use::Discarded, least);
    }
}

/// A function with a result returns a value of a type.
fn may_return(gives: &CType, nought: bool, ty: Option<Seen>) -> bool
    ensures { result ≡ (not (is_void (ty_of gives.now))
        && may_take (ty_of gives.now) nought (seen_some ty.entry)) }
{
    !is_void(gives) && may_take(Seen::of(gives), nought, ty)
}

/// Notes what a `return` breaks (6.8.6.4).
#[tactic(auto, using(c_tree::proofs::LeastBreach::append_rules))]
fn check_return(value: &Option<Expr>, gives: &CType, place: Place, env: &Env, least: &mut Least)
    ensures { Adds least.old least.new
        (return_breaches (scope_of env.now) (ty_of gives.now)
        (option_map expr_of value.now) place) }
{
    match value {
        None => note(least, is_void(gives), Broken::Mismatch, place),
        Some(e) => {
            let ty = walk(e, env, Use::Value, least);
            let right = may_return(gives, is_nought(e), ty);
            note(least, right, Broken::Mismatch, place);
        }
    }
}

/// Notes what a `for` begins with and breaks. The names that it declares are then in scope.
fn check_first(checker: &mut Checker, first: &First) -> Result<(), OutOfMemory>
    ensures scope { OnOk result
        (scope_in checker.new ≡ behind_beginning (first_of first.now) (scope_in checker.old)) }
    ensures least { OnOk result
        (Notes checker.old checker.new (beginning_breaches (scope_in checker.old) (first_of first.now))) }
{
    match first {
        First::Nothing => Ok(()),
        First::Vars(vars) => check_declarators(checker, Storage::Automatic, vars),
        First::Expr(e) => {
            let _ty = walk(e, &checker.env, Use::Discarded, &mut checker.least);
            Ok(())
        }
    }
}

/// Notes what the head of a `for` breaks. The names that it declares are then in scope.
#[tactic(auto, using(c_tree::proofs::LeastBreach::append_rules))]
fn check_for_head(
    checker: &mut Checker,
    first: &First,
    test: &Option<Expr>,
    step: &Option<Expr>,
    place: Place,
) -> Result<(), OutOfMemory>
    ensures scope { OnOk result
        (scope_in checker.new ≡ behind_beginning (first_of first.now) (scope_in checker.old)) }
    ensures least { OnOk result
        (Notes checker.old checker.new
        (head_breaches (first_of first.now) (option_map expr_of test.now)
        (option_map expr_of step.now) place (scope_in checker.old))) }
{
    check_first(checker, first)?;
    check_optional_test(test, place, &checker.env, &mut checker.least);
    check_unused(step, &checker.env, &mut checker.least);
    Ok(())
}

/// Notes what a statement breaks in a function that gives a type. The names that it declares are then in scope.
#[cycle(statement)]
#[tactic(auto, using(c_tree::proofs::ViewLemmas::views, c_tree::proofs::LeastBreach::append_rules))]
fn check_stmt(
    checker: &mut Checker,
    s: &Stmt,
    gives: &CType,
    in_loop: bool,
) -> Result<(), OutOfMemory>
    ensures scope { OnOk result (scope_in checker.new ≡ behind (stmt_of s.now) (scope_in checker.old)) }
    ensures least { OnOk result
        (Notes checker.old checker.new
        (statement_breaches (ty_of gives.now) in_loop (stmt_of s.now) (scope_in checker.old))) }
{
    match &s.kind {
        StmtKind::Empty => {}
        StmtKind::Expr(e) => {
            let _ty = walk(e, &checker.env, Use::Discarded, &mut checker.least);
        }
        StmtKind::Vars(vars) => check_declarators(checker, Storage::Automatic, vars)?,
        StmtKind::Block(body) => check_block(checker, body, gives, in_loop)?,
        StmtKind::Marker(marker) => check_marker(marker, s.place, &checker.env, &mut checker.least),
        StmtKind::If(test, then, other) => {
            check_test(test, s.place, &checker.env, &mut checker.least);
            check_inner(checker, then, gives, in_loop)?;
            check_else(checker, other, gives, in_loop)?;
        }
        StmtKind::While(test, body) => {
            check_test(test, s.place, &checker.env, &mut checker.least);
            check_inner(checker, body, gives, true)?;
        }
        StmtKind::Do(body, test) => {
            check_inner(checker, body, gives, true)?;
            check_test(test, s.place, &checker.env, &mut checker.least);
        }
        StmtKind::For(first, test, step, body) => {
            checker.env.enter()?;
            check_for_head(checker, first, test, step, s.place)?;
            check_inner(checker, body, gives, true)?;
            checker.env.leave();
        }
        StmtKind::Return(value) => check_return(
            value,
            gives,
            s.place,
            &checker.env,
            &mut checker.least,
        ),
        StmtKind::Break | StmtKind::Continue => {
            note(&mut checker.least, in_loop, Broken::Mismatch, s.place);
        }
    }
    Ok(())
}

/// Notes what a block breaks.
#[cycle(statement)]
fn check_block(
    checker: &mut Checker,
    body: &[Stmt],
    gives: &CType,
    in_loop: bool,
) -> Result<(), OutOfMemory>
    ensures scope { OnOk result (scope_in checker.new ≡ scope_in checker.old) }
    ensures least { OnOk result
        (Notes checker.old checker.new
        (body_breaches (ty_of gives.now) in_loop (stmts_of body.now)
        (entered (scope_in checker.old)))) }
{
    checker.env.enter()?;
    check_body(checker, body, gives, in_loop)?;
    checker.env.leave();
    Ok(())
}

/// Notes what a statement breaks that is a block of its own.
#[cycle(statement)]
fn check_inner(
    checker: &mut Checker,
    s: &Stmt,
    gives: &CType,
    in_loop: bool,
) -> Result<(), OutOfMemory>
    ensures scope { OnOk result (scope_in checker.new ≡ scope_in checker.old) }
    ensures least { OnOk result
        (Notes checker.old checker.new
        (statement_breaches (ty_of gives.now) in_loop (stmt_of s.now)
        (entered (scope_in checker.old)))) }
{
    checker.env.enter()?;
    check_stmt(checker, s, gives, in_loop)?;
    checker.env.leave();
    Ok(())
}

/// Notes what stands behind an `else` and breaks a rule.
#[cycle(statement)]
fn check_else(
    checker: &mut Checker,
    other: &Option<Box<Stmt>>,
    gives: &CType,
    in_loop: bool,
) -> Result<(), OutOfMemory>
    ensures scope { OnOk result (scope_in checker.new ≡ scope_in checker.old) }
    ensures least { OnOk result
        (Notes checker.old checker.new
        (else_breaches (ty_of gives.now) in_loop (else_of boxed_stmt_of other.now)
        (scope_in checker.old))) }
{
    match other {
        None => Ok(()),
        Some(s) => check_inner(checker, s, gives, in_loop),
    }
}

/// Notes what statements one after another break.
#[cycle(statement)]
#[tactic(auto, using(c_tree::proofs::LeastBreach::append_rules))]
pub(crate) fn check_body(
    checker: &mut Checker,
    body: &[Stmt],
    gives: &CType,
    in_loop: bool,
) -> Result<(), OutOfMemory>
    ensures outer { OnOk result ((scope_in checker.new).outer ≡ (scope_in checker.old).outer) }
    ensures least { OnOk result
        (Notes checker.old checker.new
        (body_breaches (ty_of gives.now) in_loop (stmts_of body.now) (scope_in checker.old))) }
{
    for s in body {
        check_stmt(checker, s, gives, in_loop)?;
    }
    Ok(())
}

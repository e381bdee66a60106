//! Constants: their type and value, and what is no constant.

ghost use Rattle.std.specs.Prelude.{◌≡◌, ◌&&◌, true, false, is_some, option_map, Some, None};
ghost use Rattle.std.specs.Option.{option_copied};
ghost use Rattle.c_tree.specs.declared.breach.Least.{Least};
ghost use Rattle.c_tree.specs.View.{expr_of, ty_of};
ghost use Rattle.c_tree.specs.Breach.{least_of, Adds};
ghost use Rattle.c_tree.specs.Shapes.{common, is_unsigned, is_integer};
ghost use Rattle.c_tree.specs.Arithmetic.{converted, given, unary_word};
ghost use Rattle.c_tree.specs.Constant.{unary_shape, binary_shape, integer_shape, constant_shape, is_unsigned_act, on_one, needs_second, binary_value, chosen, value_of, is_ready, act_breaches, foreign_name, foreign, constant_breaches};
ghost use Rattle.c_rules.specs.IntegerTypes.{integer};
ghost use Rattle.c_types.specs.Env.{scope_of};
ghost use Rattle.c_rules.specs.Spine.{constant_operand, below, down};

use crate::env::Env;
use crate::typing::walk;
use c_rules::{
    Along, Integer, LIMIT, binary_type, binary_value, convert, descend, follow, is_arithmetic,
    is_integer, is_ready, is_unsigned_act, needs_second, note, unary_word,
};
use c_tree::{Binary, Broken, CType, END_OF_FILE, Expr, ExprKind, Least, Name, Place, Unary, Use};

/// What is known of an expression as a constant: its type, and its value where it has one.
#[derive(Clone, Copy, Debug, PartialEq, Eq)]
pub struct Evaluation {
    pub ty: Integer,
    pub value: Option<u32>,
}

/// Notes an act that is evaluated and undefined.
fn note_act(live: bool, ready: bool, value: Option<u32>, at: Place, least: &mut Least)
    ensures { Adds least.old least.new (act_breaches live ready value at) }
{
    note(
        least,
        !(live && ready) || value.is_some(),
        Broken::NotConstant,
        at,
    );
}

fn evaluate_unary(
    op: Unary,
    first: Evaluation,
    live: bool,
    at: Place,
    least: &mut Least,
) -> Evaluation
    ensures ty { integer result.ty ≡ unary_shape op (integer first.ty) }
    ensures value { result.value
        ≡ on_one (λ x. given (unary_word op (is_unsigned (integer first.ty)) x)) first.value }
    ensures least { Adds least.old least.new
        (act_breaches live (is_some first.value) result.value at) }
{
    let value = match first.value {
        None => None,
        Some(x) => unary_word(op, first.ty.is_unsigned(), x).ok(),
    };
    note_act(live, first.value.is_some(), value, at, least);
    let ty = match op {
        Unary::Not => Integer::Int,
        _ => first.ty.promote(),
    };
    Evaluation { ty, value }
}

fn evaluate_cast(to: &CType, first: Evaluation) -> Evaluation
    ensures ty { integer result.ty ≡ integer_shape (ty_of to.now) }
    ensures value { result.value ≡ on_one (λ x. Some (converted (ty_of to.now) x)) first.value }
{
    let value = match first.value {
        None => None,
        Some(x) => Some(convert(x, to)),
    };
    Evaluation {
        ty: Integer::of(to),
        value,
    }
}

fn evaluate_binary(
    op: Binary,
    left: Evaluation,
    right: Evaluation,
    live: bool,
    at: Place,
    least: &mut Least,
) -> Evaluation
    ensures ty { integer result.ty ≡ binary_shape op (integer left.ty) (integer right.ty) }
    ensures value { result.value
        ≡ binary_value op (is_unsigned_act op (integer left.ty) (integer right.ty)) left.value
        right.value }
    ensures least { Adds least.old least.new
        (act_breaches live (is_ready op left.value right.value) result.value at) }
{
    let unsigned = is_unsigned_act(op, left.ty, right.ty);
    let value = binary_value(op, unsigned, left.value, right.value);
    note_act(
        live,
        is_ready(op, left.value, right.value),
        value,
        at,
        least,
    );
    Evaluation {
        ty: binary_type(op, left.ty, right.ty),
        value,
    }
}

fn is_left(test: Option<u32>) -> bool
    ensures { result ≡ chosen false test true false }
{
    match test {
        None => false,
        Some(x) => x != 0,
    }
}

fn is_right(test: Option<u32>) -> bool
    ensures { result ≡ chosen false test false true }
{
    match test {
        None => false,
        Some(x) => x == 0,
    }
}

fn evaluate_conditional(test: Option<u32>, left: Evaluation, right: Evaluation) -> Evaluation
    ensures ty { integer result.ty ≡ common (integer left.ty) (integer right.ty) }
    ensures value { result.value ≡ chosen None test left.value right.value }
{
    let value = match test {
        None => None,
        Some(x) => { if x == 0 { right.value } else { left.value } }
    };
    Evaluation {
        ty: left.ty.common(right.ty),
        value,
    }
}

const NO_CONSTANT: Evaluation = Evaluation {
    ty: Integer::Int,
    value: None,
};

fn note_name(name: &Name, env: Option<&Env>, at: Place, least: &mut Least)
    ensures { Adds least.old least.new
        (foreign_name (option_map scope_of (option_copied env.entry)) name.now at) }
{
    match env {
        None => note(least, false, Broken::NotConstant, at),
        Some(env) => {
            if env.find(name).is_some() {
                note(least, false, Broken::NotConstant, at);
            } else {
                note(least, false, Broken::Unknown, at);
            }
        }
    }
}

/// Notes what a node breaks that is no form of a constant, and no name.
#[tactic(auto, using(c_tree::proofs::LeastBreach::append_rules))]
fn note_foreign(e: &Expr, env: Option<&Env>, least: &mut Least)
    ensures { Adds least.old least.new
        (foreign (option_map scope_of (option_copied env.entry)) (expr_of e.now) e.now.place) }
{
    if let Some(env) = env {
        let _ty = walk(e, env, Use::Value, least);
    }
    note(least, false, Broken::NotConstant, e.place);
}

/// What is known of an expression without an operand of a constant.
#[tactic(auto, using(c_tree::proofs::ViewLemmas::views, c_tree::proofs::LeastBreach::append_rules))]
fn evaluate_leaf(e: &Expr, live: bool, env: Option<&Env>, least: &mut Least) -> Evaluation
    requires { constant_operand (expr_of e.now) ≡ None }
    ensures ty { integer result.ty ≡ constant_shape (expr_of e.now) }
    ensures value { result.value ≡ value_of (expr_of e.now) }
    ensures least { Adds least.old least.new
        (constant_breaches (option_map scope_of (option_copied env.entry)) live (expr_of e.now)) }
{
    match &e.kind {
        ExprKind::Number(ty, n) => {
            if is_integer(ty) {
                Evaluation {
                    ty: Integer::of(ty),
                    value: Some(*n),
                }
            } else {
                note_foreign(e, env, least);
                NO_CONSTANT
            }
        }
        ExprKind::Character(code) => Evaluation {
            ty: Integer::Int,
            value: Some(*code),
        },
        ExprKind::Eof => Evaluation {
            ty: Integer::Int,
            value: Some(END_OF_FILE),
        },
        ExprKind::Name(name) => {
            note_name(name, env, e.place, least);
            NO_CONSTANT
        }
        ExprKind::Unary(_, _)
        | ExprKind::Cast(_, _)
        | ExprKind::Step(_, _)
        | ExprKind::Assign(_, _, _)
        | ExprKind::Index(_, _)
        | ExprKind::Call(_, _) => {
            note_foreign(e, env, least);
            NO_CONSTANT
        }
        _ => unreachable!(),
    }
}

/// What is known of an expression from what is known of its first operand, whose breaches were noted.
#[cycle(constants)]
#[tactic(auto, using(c_tree::proofs::ViewLemmas::views, c_tree::proofs::LeastBreach::append_rules))]
fn evaluate_above(
    e: &Expr,
    first: Evaluation,
    live: bool,
    env: Option<&Env>,
    least: &mut Least,
) -> Evaluation
    requires ty { integer first.ty ≡ constant_shape (below Along.Constants (expr_of e.now)) }
    requires value { first.value ≡ value_of (below Along.Constants (expr_of e.now)) }
    ensures ty { integer result.ty ≡ constant_shape (expr_of e.now) }
    ensures value { result.value ≡ value_of (expr_of e.now) }
    ensures least { (start : Least)
        → least.old ≡ least_of start
        (constant_breaches (option_map scope_of (option_copied env.entry)) live
        (below Along.Constants (expr_of e.now)))
        → least.new ≡ least_of start
        (constant_breaches (option_map scope_of (option_copied env.entry)) live
        (expr_of e.now)) }
{
    match &e.kind {
        ExprKind::Unary(op, _) => {
            if is_arithmetic(*op) {
                evaluate_unary(*op, first, live, e.place, least)
            } else {
                first
            }
        }
        ExprKind::Cast(to, _) => {
            if is_integer(to) {
                evaluate_cast(to, first)
            } else {
                first
            }
        }
        ExprKind::Binary(op, _, b) => {
            let needed = live && needs_second(*op, first.value);
            let second = evaluate(b, needed, env, least);
            evaluate_binary(*op, first, second, live, e.place, least)
        }
        ExprKind::Conditional(_, a, b) => {
            let is_left_live = live && is_left(first.value);
            let is_right_live = live && is_right(first.value);
            let left = evaluate(a, is_left_live, env, least);
            let right = evaluate(b, is_right_live, env, least);
            evaluate_conditional(first.value, left, right)
        }
        ExprKind::Name(_) => first,
        ExprKind::Number(_, _) => first,
        ExprKind::Character(_) => first,
        ExprKind::Eof => first,
        ExprKind::Step(_, _) => first,
        ExprKind::Assign(_, _, _) => first,
        ExprKind::Index(_, _) => first,
        ExprKind::Call(_, _) => first,
    }
}

/// What is known of an expression from an operand so many steps further down, whose breaches were noted.
#[cycle(constants)]
fn rise(
    e: &Expr,
    count: u32,
    end: Evaluation,
    live: bool,
    env: Option<&Env>,
    least: &mut Least,
) -> Evaluation
    requires ty { integer end.ty ≡ constant_shape (down Along.Constants count (expr_of e.now)) }
    requires value { end.value ≡ value_of (down Along.Constants count (expr_of e.now)) }
    ensures ty { integer result.ty ≡ constant_shape (expr_of e.now) }
    ensures value { result.value ≡ value_of (expr_of e.now) }
    ensures least { (start : Least)
        → least.old ≡ least_of start
        (constant_breaches (option_map scope_of (option_copied env.entry)) live
        (down Along.Constants count (expr_of e.now)))
        → least.new ≡ least_of start
        (constant_breaches (option_map scope_of (option_copied env.entry)) live
        (expr_of e.now)) }
{
    let mut known = end;
    let mut left = count;
    while 0 < left {
        left -= 1;
        let node = descend(Along::Constants, e, left);
        known = evaluate_above(node, known, live, env, least);
    }
    known
}

/// What is known of an expression as a constant. What breaks the rules of one goes into `least`: undefined acts where the
/// expression is evaluated, and with an environment also what is broken within nodes that are no form of a constant.
#[cycle(constants)]
pub fn evaluate(e: &Expr, live: bool, env: Option<&Env>, least: &mut Least) -> Evaluation
    ensures ty { integer result.ty ≡ constant_shape (expr_of e.now) }
    ensures value { result.value ≡ value_of (expr_of e.now) }
    ensures least { Adds least.old least.new
        (constant_breaches (option_map scope_of (option_copied env.entry)) live (expr_of e.now)) }
{
    let lowest = follow(Along::Constants, e);
    if lowest.count < LIMIT {
        let end = evaluate_leaf(lowest.end, live, env, least);
        rise(e, lowest.count, end, live, env, least)
    } else {
        let end = evaluate(lowest.end, live, env, least);
        rise(e, lowest.count, end, live, env, least)
    }
}

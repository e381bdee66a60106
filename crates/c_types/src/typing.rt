//! Types of expressions, and the least breach in them.

ghost use Rattle.std.specs.Prelude.{◌≡◌, ◌&&◌, true, option_map, Some, None};
ghost use Rattle.std.specs.Option.{option_copied};
ghost use Rattle.c_tree.specs.declared.breach.Least.{Least};
ghost use Rattle.c_tree.specs.View.{expr_of, exprs_of};
ghost use Rattle.c_tree.specs.Breach.{least_of, unless, Adds};
ghost use Rattle.c_tree.specs.Rules.{is_place, is_nought, is_at, address_type, where_right, step_rule, index_rule};
ghost use Rattle.c_tree.specs.Typing.{type_at, all_taken, object, one, both, unary_type, is_test};
ghost use Rattle.c_tree.specs.Breaches.{breaches, breaches_in, name_breaches, unary_breaches, place_breaches, possible_one, possible_both, possible_test, same_count, all_possible};
ghost use Rattle.c_types.specs.Env.{scope_of, known};
ghost use Rattle.c_rules.specs.Seen.{seen_some, is_flat, part_rule, rule_of, is_contents};
ghost use Rattle.c_types.specs.Call.{parameters};
ghost use Rattle.c_tree.specs.FirstOperand.{first_operand};
ghost use Rattle.c_rules.specs.Spine.{below, down};

use crate::call::{Parameters, Passed, Target, type_call};
use crate::env::{Env, Known};
use c_rules::{
    Along, Base, LIMIT, PartRule, Rule, Seen, descend, follow, index_result, is_integer, note,
    operand,
};
use c_tree::{Broken, CType, Expr, ExprKind, Least, Place, Unary, Use};

/// Whether an expression is a place.
#[tactic(auto, using(c_tree::proofs::ViewLemmas::views))]
pub fn is_place(e: &Expr) -> bool
    ensures { result ≡ is_place (expr_of e.now) }
{
    match &e.kind {
        ExprKind::Name(_) => true,
        ExprKind::Unary(op, _) => matches!(op, Unary::At),
        ExprKind::Index(_, _) => true,
        ExprKind::Number(_, _) => false,
        ExprKind::Character(_) => false,
        ExprKind::Eof => false,
        ExprKind::Step(_, _) => false,
        ExprKind::Cast(_, _) => false,
        ExprKind::Binary(_, _, _) => false,
        ExprKind::Conditional(_, _, _) => false,
        ExprKind::Assign(_, _, _) => false,
        ExprKind::Call(_, _) => false,
    }
}

/// Whether an expression is the literal 0.
#[tactic(auto, using(c_tree::proofs::ViewLemmas::views))]
pub fn is_nought(e: &Expr) -> bool
    ensures { result ≡ is_nought (expr_of e.now) }
{
    match &e.kind {
        ExprKind::Number(ty, n) => is_integer(ty) && *n == 0,
        ExprKind::Name(_) => false,
        ExprKind::Character(_) => false,
        ExprKind::Eof => false,
        ExprKind::Unary(_, _) => false,
        ExprKind::Step(_, _) => false,
        ExprKind::Cast(_, _) => false,
        ExprKind::Binary(_, _, _) => false,
        ExprKind::Conditional(_, _, _) => false,
        ExprKind::Assign(_, _, _) => false,
        ExprKind::Index(_, _) => false,
        ExprKind::Call(_, _) => false,
    }
}

fn type_name<'a>(found: Option<&'a Known>, place: Place, least: &mut Least) -> Option<Seen<'a>>
    ensures ty { seen_some result ≡ object (option_map known (option_copied found.entry)) }
    ensures flat { is_flat result ≡ true }
    ensures least { Adds least.old least.new
        (name_breaches (option_map known (option_copied found.entry)) place) }
{
    match found {
        None => {
            note(least, false, Broken::Unknown, place);
            None
        }
        Some(Known::Object(ty)) => Some(Seen::of(ty)),
        Some(Known::Function { .. }) => {
            note(least, false, Broken::Mismatch, place);
            None
        }
    }
}

/// The type of the address of a place.
pub fn address_of<'a>(place: bool, ty: Option<Seen<'a>>) -> Option<Seen<'a>>
    requires { place ≡ true → is_flat ty ≡ true }
    ensures { seen_some result ≡ address_type place (seen_some ty.entry) }
{
    if !place {
        return None;
    }
    match ty {
        Some(Seen::Is(to)) => Some(Seen::To(to)),
        _ => None,
    }
}

/// A rule on one value.
fn part<'a>(
    rule: PartRule<'a>,
    ty: Option<Seen<'a>>,
    at: Place,
    least: &mut Least,
) -> Option<Seen<'a>>
    ensures ty { seen_some result ≡ one (part_rule rule.entry) (seen_some ty.entry) }
    ensures flat { is_contents rule.entry ≡ true → is_flat result ≡ true }
    ensures least { Adds least.old least.new
        (unless (possible_one (part_rule rule.entry) (seen_some ty.entry)) Broken.Mismatch at) }
{
    note(least, rule.possible(ty), Broken::Mismatch, at);
    rule.one(ty)
}

fn type_unary<'a>(
    op: Unary,
    of_place: bool,
    ty: Option<Seen<'a>>,
    at: Place,
    least: &mut Least,
) -> Option<Seen<'a>>
    requires { of_place ≡ true → is_flat ty ≡ true }
    ensures ty { seen_some result ≡ unary_type op of_place (seen_some ty.entry) }
    ensures flat { is_at op ≡ true → is_flat result ≡ true }
    ensures least { Adds least.old least.new (unary_breaches op of_place (seen_some ty.entry) at) }
{
    match op {
        Unary::Address => {
            note(least, of_place, Broken::NotAPlace, at);
            address_of(of_place, ty)
        }
        Unary::Plus => part(PartRule::Unary(Unary::Plus), ty, at, least),
        Unary::Minus => part(PartRule::Unary(Unary::Minus), ty, at, least),
        Unary::Not => part(PartRule::Unary(Unary::Not), ty, at, least),
        Unary::Flip => part(PartRule::Unary(Unary::Flip), ty, at, least),
        Unary::At => part(PartRule::Unary(Unary::At), ty, at, least),
    }
}

/// Notes what a node breaks that needs a place.
fn note_place(place: bool, possible: bool, at: Place, least: &mut Least)
    ensures { Adds least.old least.new (place_breaches place possible at) }
{
    if place {
        note(least, possible, Broken::Mismatch, at);
    } else {
        note(least, false, Broken::NotAPlace, at);
    }
}

/// A type, where a node is right.
pub fn where_right<'a>(right: bool, ty: Option<Seen<'a>>) -> Option<Seen<'a>>
    ensures { seen_some result ≡ where_right right (seen_some ty.entry) }
{
    if right { ty } else { None }
}

fn type_step<'a>(
    place: bool,
    ty: Option<Seen<'a>>,
    at: Place,
    least: &mut Least,
) -> Option<Seen<'a>>
    ensures ty { seen_some result ≡ where_right place (one step_rule (seen_some ty.entry)) }
    ensures least { Adds least.old least.new
        (place_breaches place (possible_one step_rule (seen_some ty.entry)) at) }
{
    note_place(place, PartRule::Step.possible(ty), at, least);
    where_right(place, PartRule::Step.one(ty))
}

/// A rule on two values.
fn parts<'a>(
    rule: Rule,
    left: Option<Seen<'a>>,
    right: Option<Seen<'a>>,
    at: Place,
    least: &mut Least,
) -> Option<Seen<'a>>
    ensures ty { seen_some result
        ≡ both (rule_of rule) (seen_some left.entry) (seen_some right.entry) }
    ensures least { Adds least.old least.new
        (unless (possible_both (rule_of rule) (seen_some left.entry) (seen_some right.entry))
        Broken.Mismatch at) }
{
    note(least, rule.possible(left, right), Broken::Mismatch, at);
    rule.both(left, right)
}

fn type_index<'a>(
    left: Option<Seen<'a>>,
    right: Option<Seen<'a>>,
    at: Place,
    least: &mut Least,
) -> Option<Seen<'a>>
    ensures ty { seen_some result ≡ both index_rule (seen_some left.entry) (seen_some right.entry) }
    ensures flat { is_flat result ≡ true }
    ensures least { Adds least.old least.new
        (unless (possible_both index_rule (seen_some left.entry) (seen_some right.entry))
        Broken.Mismatch at) }
{
    note(
        least,
        Rule::Index.possible(left, right),
        Broken::Mismatch,
        at,
    );
    match (left, right) {
        (Some(left), Some(right)) => index_result(left, right),
        _ => None,
    }
}

/// Whether a value may be a condition.
pub fn may_test(test: Option<Seen>) -> bool
    ensures { result ≡ possible_test (seen_some test.entry) }
{
    match test {
        None => true,
        Some(test) => test.decay().is_scalar(),
    }
}

/// Whether a value is a condition.
pub fn is_test(test: Option<Seen>) -> bool
    ensures { result ≡ is_test (seen_some test.entry) }
{
    match test {
        None => false,
        Some(test) => test.decay().is_scalar(),
    }
}

fn type_conditional<'a>(
    rule: Rule,
    test: Option<Seen>,
    left: Option<Seen<'a>>,
    right: Option<Seen<'a>>,
    at: Place,
    least: &mut Least,
) -> Option<Seen<'a>>
    ensures ty { seen_some result
        ≡ where_right (is_test (seen_some test.entry))
        (both (rule_of rule) (seen_some left.entry) (seen_some right.entry)) }
    ensures least { Adds least.old least.new
        (unless (possible_test (seen_some test.entry)
        && possible_both (rule_of rule) (seen_some left.entry) (seen_some right.entry))
        Broken.Mismatch at) }
{
    let possible = may_test(test) && rule.possible(left, right);
    note(least, possible, Broken::Mismatch, at);
    where_right(is_test(test), rule.both(left, right))
}

fn type_assign<'a>(
    place: bool,
    rule: Rule,
    left: Option<Seen<'a>>,
    right: Option<Seen<'a>>,
    at: Place,
    least: &mut Least,
) -> Option<Seen<'a>>
    ensures ty { seen_some result
        ≡ where_right place (both (rule_of rule) (seen_some left.entry) (seen_some right.entry)) }
    ensures least { Adds least.old least.new
        (place_breaches place (possible_both (rule_of rule) (seen_some left.entry)
        (seen_some right.entry)) at) }
{
    note_place(place, rule.possible(left, right), at, least);
    where_right(place, rule.both(left, right))
}

/// The breaches of a call's arguments, and whether the parameters take them.
#[cycle(types)]
fn type_arguments<'a>(
    args: &'a [Expr],
    taken: Parameters<'a>,
    env: &'a Env,
    least: &mut Least,
) -> Passed
    ensures counts { result.counts ≡ same_count (parameters taken.entry) (exprs_of args.now) }
    ensures fits { result.fits
        ≡ all_possible (scope_of env.now) (parameters taken.entry) (exprs_of args.now) }
    ensures typed { result.typed
        ≡ all_taken (scope_of env.now) (parameters taken.entry) (exprs_of args.now) }
    ensures least { Adds least.old least.new (breaches_in (scope_of env.now) (exprs_of args.now)) }
{
    let mut passed = Passed {
        counts: true,
        fits: true,
        typed: true,
    };
    let mut rest = taken;
    for arg in args {
        let ty = walk(arg, env, Use::Value, least);
        passed = rest.pass(passed, is_nought(arg), ty);
        rest = rest.others();
    }
    rest.end(passed)
}

/// The type of an expression without a first operand.
#[cycle(types)]
#[tactic(auto, using(c_tree::proofs::ViewLemmas::views, c_tree::proofs::LeastBreach::append_rules))]
fn type_leaf<'a>(e: &'a Expr, env: &'a Env, used: Use, least: &mut Least) -> Option<Seen<'a>>
    requires { first_operand (expr_of e.now) ≡ None }
    ensures ty { seen_some result ≡ type_at (scope_of env.now) (expr_of e.now) }
    ensures flat { is_place (expr_of e.now) ≡ true → is_flat result ≡ true }
    ensures least { Adds least.old least.new (breaches (scope_of env.now) used (expr_of e.now)) }
{
    match &e.kind {
        ExprKind::Name(x) => type_name(env.find(x), e.place, least),
        ExprKind::Number(ty, _) => Some(Seen::of(ty)),
        ExprKind::Character(_) => Some(Seen::Is(Base::Int)),
        ExprKind::Eof => Some(Seen::Is(Base::Int)),
        ExprKind::Call(callee, args) => {
            let target = Target::of(callee, env);
            let passed = type_arguments(args.as_slice(), target.parameters(), env, least);
            type_call(target, used, passed, e.place, least)
        }
        _ => unreachable!(),
    }
}

/// The type of an expression from that of its first operand, whose breaches were noted.
#[cycle(types)]
#[tactic(auto, using(c_tree::proofs::ViewLemmas::views, c_tree::proofs::LeastBreach::append_rules))]
fn type_above<'a>(
    e: &'a Expr,
    first: Option<Seen<'a>>,
    env: &'a Env,
    least: &mut Least,
) -> Option<Seen<'a>>
    requires ty { seen_some first
        ≡ type_at (scope_of env.now) (below Along.Operands (expr_of e.now)) }
    requires flat { is_place (below Along.Operands (expr_of e.now)) ≡ true → is_flat first ≡ true }
    ensures ty { seen_some result ≡ type_at (scope_of env.now) (expr_of e.now) }
    ensures flat { is_place (expr_of e.now) ≡ true → is_flat result ≡ true }
    ensures least { (start : Least)
        → least.old ≡ least_of start
        (breaches (scope_of env.now) Use.Value (below Along.Operands (expr_of e.now)))
        → least.new ≡ least_of start (breaches (scope_of env.now) Use.Value (expr_of e.now)) }
{
    match &e.kind {
        ExprKind::Name(_) => first,
        ExprKind::Number(_, _) => first,
        ExprKind::Character(_) => first,
        ExprKind::Eof => first,
        ExprKind::Call(_, _) => first,
        ExprKind::Unary(op, a) => type_unary(*op, is_place(a), first, e.place, least),
        ExprKind::Step(_, a) => type_step(is_place(a), first, e.place, least),
        ExprKind::Cast(to, _) => part(PartRule::Cast(to), first, e.place, least),
        ExprKind::Binary(op, a, b) => {
            let second = walk(b, env, Use::Value, least);
            let rule = Rule::Binary(*op, is_nought(a), is_nought(b));
            parts(rule, first, second, e.place, least)
        }
        ExprKind::Conditional(_, a, b) => {
            let left = walk(a, env, Use::Value, least);
            let right = walk(b, env, Use::Value, least);
            let rule = Rule::Conditional(is_nought(a), is_nought(b));
            type_conditional(rule, first, left, right, e.place, least)
        }
        ExprKind::Assign(how, a, b) => {
            let second = walk(b, env, Use::Value, least);
            let rule = Rule::Assign(*how, is_nought(b));
            type_assign(is_place(a), rule, first, second, e.place, least)
        }
        ExprKind::Index(_, b) => {
            let second = walk(b, env, Use::Value, least);
            type_index(first, second, e.place, least)
        }
    }
}

/// The type of an expression from that of an operand so many steps further down, whose breaches were noted.
#[cycle(types)]
fn rise<'a>(
    e: &'a Expr,
    count: u32,
    end: Option<Seen<'a>>,
    env: &'a Env,
    least: &mut Least,
) -> Option<Seen<'a>>
    requires ty { seen_some end
        ≡ type_at (scope_of env.now) (down Along.Operands count (expr_of e.now)) }
    requires flat { is_place (down Along.Operands count (expr_of e.now)) ≡ true
        → is_flat end ≡ true }
    ensures ty { seen_some result ≡ type_at (scope_of env.now) (expr_of e.now) }
    ensures flat { is_place (expr_of e.now) ≡ true → is_flat result ≡ true }
    ensures least { (start : Least)
        → least.old ≡ least_of start
        (breaches (scope_of env.now) Use.Value (down Along.Operands count (expr_of e.now)))
        → least.new ≡ least_of start (breaches (scope_of env.now) Use.Value (expr_of e.now)) }
{
    let mut ty = end;
    let mut left = count;
    while 0 < left {
        left -= 1;
        let node = descend(Along::Operands, e, left);
        ty = type_above(node, ty, env, least);
    }
    ty
}

/// The type of an expression, where it has one. Its breaches go into `least`. Of a call it says whether the value is used.
#[cycle(types)]
pub fn walk<'a>(e: &'a Expr, env: &'a Env, used: Use, least: &mut Least) -> Option<Seen<'a>>
    ensures ty { seen_some result ≡ type_at (scope_of env.now) (expr_of e.now) }
    ensures flat { is_place (expr_of e.now) ≡ true → is_flat result ≡ true }
    ensures least { Adds least.old least.new (breaches (scope_of env.now) used (expr_of e.now)) }
{
    let Some(_first) = operand(Along::Operands, e) else {
        return type_leaf(e, env, used, least);
    };
    let lowest = follow(Along::Operands, e);
    if lowest.count < LIMIT {
        let end = type_leaf(lowest.end, env, Use::Value, least);
        rise(e, lowest.count, end, env, least)
    } else {
        let end = walk(lowest.end, env, Use::Value, least);
        rise(e, lowest.count, end, env, least)
    }
}

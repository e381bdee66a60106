//! How many parts a text has, by which the words of its code are bounded.

ghost use Rattle.std.specs.Prelude.{◌≡◌, ◌↔◌, ◌≤◌, ◌+◌, ◌<◌, ◌∷◌, List, length, map, option_map, MatchOption, IsTrue};
ghost use Rattle.std.specs.Option.{option_copied};
ghost use Rattle.c_tree.specs.declared.tree.Expr.{size-Expr};
ghost use Rattle.c_tree.specs.Item.{Item as PureItem};
ghost use Rattle.c_tree.specs.View.{expr_of, exprs_of, init_of, var_of, first_of, stmt_of, stmts_of, boxed_stmt_of, else_of, fun_of, item_of, items_of};
ghost use Rattle.low_expr.specs.Bound.{nodes, nodes_of_all};
ghost use Rattle.low_stmt.specs.CodeBound.{count_optional, count_init, count_declarators, count_first, count_stmt, count_else, count_stmts, count_body, count_items, count_text};
ghost use Rattle.low_stmt.specs.private.CappedCount.{capped};

use c_tree::{Expr, ExprKind, First, Fun, Init, Item, Stmt, StmtKind, Tree, Var};

/// The most nodes, statements, declarators, parameters and functions of a text that has a program,
/// with the beginning of the program.
pub const MOST_PARTS: u32 = 7_680;

/// More parts than that. No sum goes further.
const MANY: u32 = 7_681;

fn plus(a: u32, b: u32) -> u32
    requires a { a ≤ MANY }
    requires b { b ≤ MANY }
    ensures { result ≡ capped (a + b) }
{
    (a + b).min(MANY)
}

/// The nodes of an expression beside those of its first operand, and that operand.
#[derive(Clone, Copy)]
struct Parted<'a> {
    beside: u32,
    first: Option<&'a Expr>,
}

#[cycle(nodes)]
#[tactic(auto, using(c_tree::proofs::ViewLemmas::views))]
fn part(e: &Expr) -> Parted
    ensures limit { result.beside ≤ MANY }
    ensures nodes { MatchOption (option_copied result.first)
        (result.beside ≡ capped (nodes (expr_of e.now)))
        (λ a. capped (result.beside + nodes (expr_of a)) ≡ capped (nodes (expr_of e.now))) }
    ensures smaller { MatchOption (option_copied result.first) (Unit {0})
        (λ a. size-Expr a < size-Expr e.now) }
{
    match &e.kind {
        ExprKind::Name(_) => Parted {
            beside: 1,
            first: None,
        },
        ExprKind::Number(_, _) => Parted {
            beside: 1,
            first: None,
        },
        ExprKind::Character(_) => Parted {
            beside: 1,
            first: None,
        },
        ExprKind::Eof => Parted {
            beside: 1,
            first: None,
        },
        ExprKind::Unary(_, a) => Parted {
            beside: 1,
            first: Some(a),
        },
        ExprKind::Step(_, a) => Parted {
            beside: 1,
            first: Some(a),
        },
        ExprKind::Cast(_, a) => Parted {
            beside: 1,
            first: Some(a),
        },
        ExprKind::Binary(_, a, b) => Parted {
            beside: plus(1, nodes(b)),
            first: Some(a),
        },
        ExprKind::Conditional(c, a, b) => Parted {
            beside: plus(1, plus(nodes(a), nodes(b))),
            first: Some(c),
        },
        ExprKind::Assign(_, a, b) => Parted {
            beside: plus(1, nodes(b)),
            first: Some(a),
        },
        ExprKind::Index(a, b) => Parted {
            beside: plus(1, nodes(b)),
            first: Some(a),
        },
        ExprKind::Call(_, args) => Parted {
            beside: plus(1, nodes_of_all(args)),
            first: None,
        },
    }
}

/// The nodes of an expression. First operands are followed in a loop: a text can have some 64,000
/// of them, each within the one before.
#[cycle(nodes)]
fn nodes(e: &Expr) -> u32
    ensures { result ≡ capped (nodes (expr_of e.now)) }
{
    let mut count = 0;
    let mut end = e;
    loop {
        let parted = part(end);
        count = plus(count, parted.beside);
        let Some(first) = parted.first else {
            return count;
        };
        end = first;
    }
}

#[cycle(nodes)]
fn nodes_of_all(list: &[Expr]) -> u32
    ensures { result ≡ capped (nodes_of_all (exprs_of list.now)) }
{
    let mut count = 0;
    for e in list {
        count = plus(count, nodes(e));
    }
    count
}

fn optional(e: &Option<Expr>) -> u32
    ensures { result ≡ capped (count_optional (option_map expr_of e.now)) }
{
    match e {
        None => 0,
        Some(e) => nodes(e),
    }
}

fn init_parts(init: &Option<Init>) -> u32
    ensures { result ≡ capped (count_init (option_map init_of init.now)) }
{
    match init {
        None => 0,
        Some(Init::One(e)) => nodes(e),
        Some(Init::Many(list)) => nodes_of_all(list),
    }
}

fn var_parts(vars: &[Var]) -> u32
    ensures { result ≡ capped (count_declarators (map var_of vars.now)) }
{
    let mut count = 0;
    for v in vars {
        let given = plus(nodes_of_all(&v.sizes), init_parts(&v.init));
        count = plus(count, plus(1, given));
    }
    count
}

fn first_parts(first: &First) -> u32
    ensures { result ≡ capped (count_first (first_of first.now)) }
{
    match first {
        First::Nothing => 0,
        First::Vars(vars) => var_parts(vars),
        First::Expr(e) => nodes(e),
    }
}

#[cycle(statements)]
fn else_parts(other: &Option<Box<Stmt>>) -> u32
    ensures { result ≡ capped (count_else (else_of boxed_stmt_of other.now)) }
{
    match other {
        None => 0,
        Some(s) => stmt_parts(s),
    }
}

/// The parts of a statement. A block counts itself, and a declaration by its declarators alone.
#[cycle(statements)]
#[tactic(auto, using(c_tree::proofs::ViewLemmas::views))]
fn stmt_parts(s: &Stmt) -> u32
    ensures { result ≡ capped (count_stmt (stmt_of s.now)) }
{
    match &s.kind {
        StmtKind::Empty => 1,
        StmtKind::Expr(e) => plus(1, nodes(e)),
        StmtKind::Vars(vars) => var_parts(vars),
        StmtKind::Block(body) => plus(1, body_parts(body)),
        StmtKind::Marker(_) => 1,
        StmtKind::If(test, yes, no) => {
            let branches = plus(stmt_parts(yes), else_parts(no));
            plus(1, plus(nodes(test), branches))
        }
        StmtKind::While(test, body) => plus(1, plus(nodes(test), stmt_parts(body))),
        StmtKind::Do(body, test) => plus(1, plus(stmt_parts(body), nodes(test))),
        StmtKind::For(first, test, step, body) => {
            let front = plus(first_parts(first), optional(test));
            plus(1, plus(front, plus(optional(step), stmt_parts(body))))
        }
        StmtKind::Return(value) => plus(1, optional(value)),
        StmtKind::Break => 1,
        StmtKind::Continue => 1,
    }
}

/// The parts of a function's body, or of what is in a block.
#[cycle(statements)]
fn body_parts(body: &[Stmt]) -> u32
    ensures { result ≡ capped (count_stmts (stmts_of body.now)) }
{
    let mut count = 0;
    for s in body {
        count = plus(count, stmt_parts(s));
    }
    count
}

fn fun_parts(f: &Fun) -> u32
    ensures { result
        ≡ capped (1 + length (fun_of f.now).parameters + count_body (fun_of f.now).body) }
{
    let params = f.params.len().min(MANY as usize) as u32;
    let body = match &f.body {
        None => 0,
        Some(body) => body_parts(body),
    };
    plus(1, plus(params, body))
}

fn item_parts(item: &Item) -> u32
    ensures parts { (rest : List PureItem) → capped (result + count_items rest)
        ≡ capped (count_items (item_of item.now ∷ rest)) }
    ensures limit { result ≤ MANY }
{
    match item {
        Item::Vars(_, vars) => var_parts(vars),
        Item::Fun(f) => fun_parts(f),
    }
}

/// Whether a text has no more parts than one that has a program.
pub fn has_few_parts(tree: &Tree) -> bool
    ensures { IsTrue result ↔ count_text (items_of tree.now) ≤ MOST_PARTS }
{
    let mut count = 1;
    for item in &tree.items {
        count = plus(count, item_parts(item));
    }
    count <= MOST_PARTS
}

//! The frame of a function.

ghost use Rattle.std.specs.Prelude.{◌≡◌, ◌≤◌, ◌++◌, true, false, nat_lt, map, option_map, IfOk, OnOk, MatchOption};
ghost use Rattle.c_tree.specs.View.{var_of, first_of, stmt_of, stmts_of, boxed_stmt_of, else_of, param_of};
ghost use Rattle.c_layout.specs.declared.limits.TheConstants.{FRAME_BYTES};
ghost use Rattle.c_layout.specs.private.Capped.{narrow};
ghost use Rattle.c_layout.specs.Frames.{beginning_locals, locals, else_locals, body_locals, room_of, room_of_parameter, rooms, offsets_from, end_from, frame_of};
ghost use Rattle.c_layout.specs.LayoutAnswers.{planned_of};

use crate::limits::{FRAME_BYTES, WIDE};
use crate::sizes::{round_up, size};
use crate::slots::body_slots;
use c_tree::{First, OutOfMemory, Param, Stmt, StmtKind, Var};
use std::alloc::Global;

/// The frame of a function.
#[derive(Debug, Drop)]
pub struct Frame {
    /// How many bytes it has.
    pub size: u32,
    /// How many slots of 4 bytes stand at its begin.
    pub slots: u32,
    /// The offsets of the parameters and then of the locals, in order of declaration.
    pub places: Vec<u32>,
}

/// A local's bytes, rounded up to 4.
#[tactic(auto, using(crate::proofs::Narrow::narrowed))]
fn room(v: &Var) -> u32
    ensures { result ≡ narrow (room_of (var_of v.now)) }
{
    round_up(4, size(v)).min(WIDE)
}

fn push_vars(vars: &[Var], out: &mut Vec<u32>) -> Result<(), OutOfMemory>
    ensures { OnOk result (out.new.items
        ≡ out.old.items ++ map narrow (map room_of (map var_of vars.now))) }
{
    for v in vars {
        out.push(room(v))?;
    }
    Ok(())
}

fn push_first(first: &First, out: &mut Vec<u32>) -> Result<(), OutOfMemory>
    ensures { OnOk result (out.new.items
        ≡ out.old.items ++ map narrow (map room_of (beginning_locals (first_of first.now)))) }
{
    match first {
        First::Nothing => Ok(()),
        First::Vars(vars) => push_vars(vars, out),
        First::Expr(_) => Ok(()),
    }
}

#[cycle(statements)]
fn push_else(other: &Option<Box<Stmt>>, out: &mut Vec<u32>) -> Result<(), OutOfMemory>
    ensures { OnOk result (out.new.items
        ≡ out.old.items ++ map narrow
        (map room_of (else_locals (else_of boxed_stmt_of other.now)))) }
{
    match other {
        None => Ok(()),
        Some(s) => push_stmt(s, out),
    }
}

#[cycle(statements)]
#[tactic(auto, using(c_tree::proofs::ViewLemmas::views))]
fn push_stmt(s: &Stmt, out: &mut Vec<u32>) -> Result<(), OutOfMemory>
    ensures { OnOk result (out.new.items
        ≡ out.old.items ++ map narrow (map room_of (locals (stmt_of s.now)))) }
{
    match &s.kind {
        StmtKind::Empty => Ok(()),
        StmtKind::Expr(_) => Ok(()),
        StmtKind::Vars(vars) => push_vars(vars, out),
        StmtKind::Block(body) => push_body(body, out),
        StmtKind::Marker(_) => Ok(()),
        StmtKind::If(_, yes, no) => {
            push_stmt(yes, out)?;
            push_else(no, out)
        }
        StmtKind::While(_, body) => push_stmt(body, out),
        StmtKind::Do(body, _) => push_stmt(body, out),
        StmtKind::For(first, _, _, body) => {
            push_first(first, out)?;
            push_stmt(body, out)
        }
        StmtKind::Return(_) => Ok(()),
        StmtKind::Break => Ok(()),
        StmtKind::Continue => Ok(()),
    }
}

#[cycle(statements)]
fn push_body(body: &[Stmt], out: &mut Vec<u32>) -> Result<(), OutOfMemory>
    ensures { OnOk result (out.new.items
        ≡ out.old.items ++ map narrow (map room_of (body_locals (stmts_of body.now)))) }
{
    for s in body {
        push_stmt(s, out)?;
    }
    Ok(())
}

fn parameter_rooms(alloc: Global, params: &[Param]) -> Result<Vec<u32>, OutOfMemory>
    ensures { IfOk result (λ out. out.items
        ≡ map narrow (map room_of_parameter (map param_of params.now))) }
{
    let mut out = Vec::new(alloc);
    for _param in params {
        out.push(4)?;
    }
    Ok(out)
}

/// The bytes of the parameters and then of the locals.
fn rooms(alloc: Global, params: &[Param], body: &[Stmt]) -> Result<Vec<u32>, OutOfMemory>
    ensures { IfOk result (λ out. out.items
        ≡ map narrow (rooms (map param_of params.now) (stmts_of body.now))) }
{
    let mut out = parameter_rooms(alloc, params)?;
    push_body(body, &mut out)?;
    Ok(out)
}

/// Offsets of things that follow each other, and where they end.
#[derive(Drop)]
struct Line {
    places: Vec<u32>,
    end: u32,
}

fn line_up(alloc: Global, rooms: &[u32], from: u32) -> Result<Line, OutOfMemory>
    requires { from ≤ WIDE }
    ensures places { IfOk result (λ l. l.places.items ≡ map narrow (offsets_from from rooms.now)) }
    ensures end { IfOk result (λ l. l.end ≡ narrow (end_from from rooms.now)) }
{
    let mut places = Vec::new(alloc);
    let mut at = from;
    for room in rooms {
        places.push(at)?;
        at = at.saturating_add(*room).min(WIDE);
    }
    Ok(Line { places, end: at })
}

/// The frame of a function, unless it is too large.
pub(crate) fn frame_of(
    alloc: Global,
    params: &[Param],
    body: &[Stmt],
) -> Result<Option<Frame>, OutOfMemory>
    ensures { IfOk result (λ frame. MatchOption frame
        (nat_lt FRAME_BYTES (frame_of (map param_of params.now) (stmts_of body.now)).size ≡ true)
        (λ f. (planned_of f ≡ frame_of (map param_of params.now) (stmts_of body.now))
        × (nat_lt FRAME_BYTES (frame_of (map param_of params.now) (stmts_of body.now)).size
        ≡ false))) }
{
    let slots = body_slots(body);
    let rooms = rooms(alloc, params, body)?;
    let line = line_up(alloc, &rooms, 4 * slots)?;
    let size = round_up(16, line.end + 8);
    if size > FRAME_BYTES {
        return Ok(None);
    }
    Ok(Some(Frame {
        size,
        slots,
        places: line.places,
    }))
}

//! Conflicts in pc, registers and cursor.

ghost use Rattle.std.specs.Prelude.{◌≡◌, ◌<◌};
ghost use Rattle.access_log.specs.Held.{has};
ghost use Rattle.conflict_check.specs.Verdict.{core_conflict as core_conflict_of, register_conflict as register_conflict_of, cursor_conflict as cursor_conflict_of};
ghost use Rattle.value_check.specs.FirstOf.{first_of};

use crate::conflict::Conflict;
use access_log::{Places, Spot};
use rv_step::Cpu;

/// The first conflict of pc, registers and cursor.
pub(crate) fn core_conflict(first: &Places, seen: &Cpu, now: &Cpu) -> Option<Conflict>
    ensures { result ≡ core_conflict_of (has first.now) seen.now now.now }
{
    if seen.pc != now.pc {
        return Some(Conflict::Pc(seen.pc, now.pc));
    }
    match registers_conflict(first, seen, now) {
        Some(conflict) => Some(conflict),
        None => cursor_conflict(first, seen, now),
    }
}

fn registers_conflict(first: &Places, seen: &Cpu, now: &Cpu) -> Option<Conflict>
    ensures { result ≡ first_of (register_conflict_of (has first.now) seen.now now.now) 32 }
{
    for r in 1..32u8 {
        if let Some(conflict) = register_conflict(first, seen, now, r) {
            return Some(conflict);
        }
    }
    None
}

fn register_conflict(first: &Places, seen: &Cpu, now: &Cpu, r: u8) -> Option<Conflict>
    requires some { 0 < r }
    requires below { r < 32 }
    ensures { result ≡ register_conflict_of (has first.now) seen.now now.now r }
{
    let (seen, now) = (seen.x[r as usize], now.x[r as usize]);
    if seen != now && first.has(Spot::Register(r)) {
        Some(Conflict::Register(r, seen, now))
    } else {
        None
    }
}

fn cursor_conflict(first: &Places, seen: &Cpu, now: &Cpu) -> Option<Conflict>
    ensures { result ≡ cursor_conflict_of (has first.now) seen.now now.now }
{
    if seen.cursor != now.cursor && first.has(Spot::Cursor) {
        Some(Conflict::Cursor(seen.cursor, now.cursor))
    } else {
        None
    }
}

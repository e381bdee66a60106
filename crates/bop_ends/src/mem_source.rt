//! A source in memory, which fails as planned.

ghost use Rattle.std.specs.Prelude.{◌≡◌, ◌↔◌, ◌++◌, ◌+◌, ◌-◌, ◌^◌, ◌≤◌, Some, drop, min, take, vec_len, if◌then◌else◌, IfOk, IsErr, IsTrue, OnErr};
ghost use Rattle.std.specs.Io.{ReadsAtMost};
ghost use Rattle.std.specs.Io.KnownBytes.{ReadConsumes};
ghost use Rattle.bop_ends.specs.Ends.{HasCause, RaisedOnce};

use crate::faults::Faults;
use crate::plan::is_planned;
use crate::{Failed, Source};

/// A source that gives these bytes, at most so many at once. Its calls are numbered from 0, and
/// those that the plan lists fail. Bytes that are given stay in memory.
#[derive(Drop)]
pub struct MemSource {
    content: Vec<u8>,
    at: usize,
    piece: usize,
    fails: Vec<u64>,
    calls: u64,
    faults: Faults,
    ghost within: { at ≤ vec_len content },
    ghost gives: { 1 ≤ piece },
}

impl MemSource {
    ghost use Rattle.bop_ends.specs.MemSource.{mem_source_left, mem_source_piece, mem_source_plan, mem_source_calls, mem_source_faults};

    /// A source that has the whole content left. It takes no memory.
    pub fn new(content: Vec<u8>, piece: usize, fails: Vec<u64>) -> MemSource
        requires gives { 1 ≤ piece }
        ensures left { mem_source_left result ≡ content.items }
        ensures piece { mem_source_piece result ≡ piece }
        ensures plan { mem_source_plan result ≡ fails.items }
        ensures calls { mem_source_calls result ≡ 0 }
        ensures faults { mem_source_faults result ≡ 0 }
    {
        MemSource {
            content,
            at: 0,
            piece,
            fails,
            calls: 0,
            faults: Faults::none(),
        }
    }

    /// The bytes that are left.
    pub fn left(&self) -> &[u8]
        ensures { result.now ≡ mem_source_left self.now }
    {
        &self.content[self.at..]
    }
}

impl Source for MemSource {
    ghost use Rattle.bop_ends.specs.MemSource.{mem_source_left, mem_source_faults, next_fails, moved_by, TakesRead};

    ghost left = { λ source. Some (mem_source_left source) };

    ghost faults = { λ source. mem_source_faults source };

    fn read(&mut self, into: &mut [u8]) -> Result<usize, Failed>
        // What holds of every source.
        ensures bound { ReadsAtMost result into.new }
        ensures bytes { ReadConsumes (Some (mem_source_left self.old))
            (Some (mem_source_left self.new)) result into.new }
        ensures cause { HasCause (mem_source_faults self.old) (mem_source_faults self.new) result }

        // It fails where that is planned, and nowhere else.
        ensures fails { IsErr result ↔ IsTrue (next_fails self.old) }
        ensures count { IfOk result (λ count. count ≡ moved_by self.old into.old) }
        ensures moved { into.new ≡ take (moved_by self.old into.old) (mem_source_left self.old)
            ++ drop (moved_by self.old into.old) into.old }
        ensures rest { mem_source_left self.new
            ≡ drop (moved_by self.old into.old) (mem_source_left self.old) }
        ensures call { TakesRead self.old self.new }

        // A failure is counted once.
        ensures counted { OnErr result
            (RaisedOnce (mem_source_faults self.old) (mem_source_faults self.new)) }
    {
        let planned = is_planned(&self.fails, self.calls);
        self.calls = self.calls.saturating_add(1);
        if planned {
            self.faults.raise();
            return Err(Failed);
        }
        let left = &self.content[self.at..];
        let count = self.piece.min(left.len()).min(into.len());
        into[..count].copy_from_slice(&left[..count]);
        self.at += count;
        Ok(count)
    }
}

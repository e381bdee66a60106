//! A sink in memory, which fails as planned.

ghost use Rattle.std.specs.Prelude.{◌≡◌, ◌↔◌, ◌++◌, ◌≤◌, [], Some, length, take, vec_len, vec_capacity, IfOk, IsOk, IsNone, OnErr};
ghost use Rattle.bop_ends.specs.Ends.{AppendsPiece, HasCause, RaisedOnce};

use crate::faults::Faults;
use crate::plan::planned_failure;
use crate::{Failed, OutOfMemory, Sink};
use std::alloc::Global;

/// A sink with room for so many bytes. Its calls are numbered from 0, and the pair (c, m) of the
/// plan lets call c fail after m bytes of its piece, or after the whole piece where m is longer.
/// An append past the room keeps what fits, and is a fault too.
#[derive(Drop)]
pub struct MemSink {
    content: Vec<u8>,
    room: usize,
    fails: Vec<(u64, usize)>,
    calls: u64,
    faults: Faults,
    ghost within: { vec_len content ≤ room },
    ghost reserved: { room ≤ vec_capacity content },
}

impl MemSink {
    ghost use Rattle.bop_ends.specs.MemSink.{mem_sink_content, mem_sink_room, mem_sink_plan, mem_sink_calls, mem_sink_faults};

    /// An empty sink. It takes the memory for its whole room at once, and an append takes none.
    pub fn new(alloc: Global, room: usize, fails: Vec<(u64, usize)>) -> Result<MemSink, OutOfMemory>
        ensures content { IfOk result (λ sink. mem_sink_content sink ≡ []) }
        ensures room { IfOk result (λ sink. mem_sink_room sink ≡ room) }
        ensures plan { IfOk result (λ sink. mem_sink_plan sink ≡ fails.items) }
        ensures calls { IfOk result (λ sink. mem_sink_calls sink ≡ 0) }
        ensures faults { IfOk result (λ sink. mem_sink_faults sink ≡ 0) }
    {
        match Vec::with_capacity(alloc, room) {
            Ok(content) => Ok(MemSink {
                content,
                room,
                fails,
                calls: 0,
                faults: Faults::none(),
            }),
            Err(_) => Err(OutOfMemory),
        }
    }

    /// The bytes that it holds.
    pub fn content(&self) -> &[u8]
        ensures { result.now ≡ mem_sink_content self.now }
    {
        &self.content
    }
}

impl Sink for MemSink {
    ghost use Rattle.bop_ends.specs.MemSink.{mem_sink_content, mem_sink_faults, next_failure, room_left, kept_of, TakesCall};

    ghost content = { λ sink. Some (mem_sink_content sink) };

    ghost faults = { λ sink. mem_sink_faults sink };

    fn append(&mut self, piece: &[u8]) -> Result<(), Failed>
        // What holds of every sink.
        ensures bytes { AppendsPiece (Some (mem_sink_content self.old))
            (Some (mem_sink_content self.new)) result piece.now }
        ensures cause { HasCause (mem_sink_faults self.old) (mem_sink_faults self.new) result }

        // It fails where that is planned or the room is too small, and nowhere else.
        ensures fails { IsOk result
            ↔ (IsNone (next_failure self.old) × (length piece.now ≤ room_left self.old)) }
        ensures kept { mem_sink_content self.new
            ≡ mem_sink_content self.old ++ take (kept_of self.old piece.now) piece.now }
        ensures call { TakesCall self.old self.new }

        // A failure is counted once.
        ensures counted { OnErr result
            (RaisedOnce (mem_sink_faults self.old) (mem_sink_faults self.new)) }
    {
        let planned = planned_failure(&self.fails, self.calls);
        self.calls = self.calls.saturating_add(1);
        let room = self.room - self.content.len();
        let kept = planned.unwrap_or(piece.len()).min(room).min(piece.len());
        let stored = self.content.extend_from_slice(&piece[..kept]);
        if planned.is_none() && kept == piece.len() && stored.is_ok() {
            return Ok(());
        }
        self.faults.raise();
        Err(Failed)
    }
}

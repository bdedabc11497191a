ghost use Rattle.std.specs.Prelude.{◌≡◌, ◌<◌, ◌≤◌, ◌↔◌, IfOk, OnErr, IsErr, Some, length};
ghost use Rattle.std.specs.Io.KnownBytes.{WriteAppends};
ghost use Rattle.spy_io.specs.Causes.{HasCause, counted, ended_after, has_failed};

use crate::counts::ended_after;
use crate::{Failed, Memory, Sink};
use std::alloc::Global;
use std::marker::Model;

/// A sink over bytes in memory. It takes them in pieces while there is room, and fails at stated calls.
#[derive(Drop)]
pub struct MemSink {
    held: Vec<u8>,
    room: usize,
    cut: usize,
    failing: Vec<u64>,
    calls: u64,
    faults: u64,
    ended: u64,
}

impl Model for MemSink {
    ghost use Rattle.std.specs.Prelude.{length, vec_capacity, ◌≤◌};
    ghost use Rattle.spy_io.specs.MemorySink.{SinkState};

    ghost Value = { SinkState };

    ghost view = { λ s. record {
      held = s.held.items;
      room = s.room;
      cut = s.cut;
      failing = s.failing.items;
      calls = s.calls;
      faults = s.faults;
      ended = s.ended;
    } };

    ghost invariant = { λ s. (length s.held.items ≤ s.room) × (s.room ≤ vec_capacity s.held) × (1 ≤ s.cut) };
}

impl MemSink {
    ghost use Rattle.spy_io.specs.MemorySink.{fresh_sink};

    /// An empty sink with room for `room` bytes, which is reserved here, so that `put` takes no memory. A call
    /// takes at most `cut` bytes. Calls are numbered from 1, and those whose numbers are in `failing` fail.
    pub fn with_room(
        alloc: Global,
        room: usize,
        cut: usize,
        failing: Vec<u64>,
    ) -> Result<MemSink, Memory>
        requires { 1 ≤ cut }
        ensures { IfOk result (λ sink. sink ≡ fresh_sink room cut failing.items) }
    {
        Ok(MemSink {
            held: Vec::with_capacity(alloc, room)?,
            room,
            cut,
            failing,
            calls: 0,
            faults: 0,
            ended: 0,
        })
    }

    /// The bytes held.
    pub fn held(&self) -> &[u8]
        ensures { result.now ≡ self.now.held }
    {
        &self.held
    }

    /// Counts a call that fails.
    fn fail(&mut self) -> Failed
        ensures { self.new ≡ record self.old {
          faults = counted self.old.faults;
          ended = counted self.old.ended;
        } }
    {
        self.faults = self.faults.saturating_add(1);
        self.ended = ended_after(self.ended, true);
        Failed
    }
}

impl Sink for MemSink {
    ghost use Rattle.spy_io.specs.MemorySink.{IsRefused, taken_count, after_taking, after_fault};

    ghost held = { λ s. Some s.held };

    ghost faults = { λ s. s.faults };

    ghost ended = { λ s. s.ended };

    fn put(&mut self, piece: &[u8]) -> Result<usize, Failed>
        // What each sink does.
        ensures bound { IfOk result (λ n. n ≤ length piece.now) }
        ensures progress { IfOk result (λ n. 0 < length piece.now → 0 < n) }
        ensures bytes { WriteAppends (Some self.old.held) (Some self.new.held) result piece.now }
        ensures cause { HasCause self.old.faults self.new.faults result }
        ensures ended { self.new.ended ≡ ended_after self.old.ended (has_failed result) }

        // When this one fails, and how many bytes it takes otherwise.
        ensures fails { IsErr result ↔ IsRefused self.old piece.now }
        ensures count { IfOk result (λ n. n ≡ taken_count self.old piece.now) }
        ensures ok { IfOk result (λ n. self.new ≡ after_taking self.old piece.now n) }
        ensures err { OnErr result (self.new ≡ after_fault self.old) }
    {
        self.calls = self.calls.saturating_add(1);
        if self.failing.contains(&self.calls) {
            return Err(self.fail());
        }
        if self.held.len() == self.room && !piece.is_empty() {
            return Err(self.fail());
        }
        self.ended = ended_after(self.ended, false);
        let count = self.cut.min(piece.len()).min(self.room - self.held.len());
        match self.held.extend_from_slice(&piece[..count]) {
            Ok(()) => Ok(count),
            Err(_) => unreachable!(),
        }
    }
}

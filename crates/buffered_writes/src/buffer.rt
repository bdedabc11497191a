//! A buffer in front of a sink.

ghost use Rattle.std.specs.Prelude.{◌≡◌, ◌≤◌, ◌++◌, [], true, false, IfOk, OnOk, OnErr};
ghost use Rattle.std.specs.Io.KnownBytes.{Appends};
ghost use Rattle.spy_io.specs.Causes.{Grows, HasCause};
ghost use Rattle.buffered_writes.specs.Sending.{IsSent};

use memory::Memory;
use spy_io::{Sink, WriteFault, write_all};
use std::alloc::Global;
use std::marker::Model;

/// Bytes that are kept back on their way to a sink. Each call that may write names the sink.
#[derive(Drop)]
pub struct Buffered {
    kept: Vec<u8>,
}

impl Model for Buffered {
    ghost use Rattle.std.specs.Prelude.{List, ℕ};

    ghost Value = { List ℕ };

    ghost view = { λ b. b.kept.items };
}

impl Buffered {
    /// A buffer with room for so many bytes. The memory is taken here, and no other call takes any.
    pub fn with_room(alloc: Global, room: usize) -> Result<Buffered, Memory>
        ensures { IfOk result (λ buffer. buffer ≡ []) }
    {
        Ok(Buffered {
            kept: Vec::with_capacity(alloc, room)?,
        })
    }

    /// Keeps the piece back, if there is room for it.
    fn keep(&mut self, piece: &[u8]) -> bool
        ensures kept { result ≡ true → self.new ≡ self.old ++ piece.now }
        ensures refused { result ≡ false → self.new ≡ self.old }
    {
        if self.kept.capacity() - self.kept.len() < piece.len() {
            return false;
        }
        self.kept.extend_from_slice(piece).is_ok()
    }

    /// Writes all that is kept back. Whatever comes of it, nothing is kept back then.
    pub fn flush<K: Sink>(&mut self, sink: &mut K) -> Result<(), WriteFault>
        ensures all { OnOk result (Appends (K.held sink.old) (K.held sink.new) self.old) }
        ensures part { OnErr result (Grows (K.held sink.old) (K.held sink.new) self.old) }
        ensures emptied { self.new ≡ [] }
        ensures cause { HasCause (K.faults sink.old) (K.faults sink.new) result }

        // No call follows one that failed.
        ensures not_ended { OnOk result (K.ended sink.old ≡ 0 → K.ended sink.new ≡ 0) }
        ensures once { K.ended sink.old ≡ 0 → K.ended sink.new ≤ 1 }
    {
        let written = write_all(sink, &self.kept);
        self.kept.clear();
        written
    }

    /// Puts the piece behind what is kept back, and writes where there is no room for both. After a failed
    /// write the sink holds a part of the two that is not all, and nothing is kept back.
    #[tactic(auto, using(crate::proofs::lemmas::Sent::emptied_first, crate::proofs::lemmas::Sent::written_through, crate::proofs::lemmas::Sent::part_longer, crate::proofs::lemmas::Sent::part_behind))]
    pub fn put<K: Sink>(&mut self, sink: &mut K, piece: &[u8]) -> Result<(), WriteFault>
        ensures sent { OnOk result (IsSent (K.held sink.old) (K.held sink.new) (self.old ++ piece.now) self.new) }
        ensures part { OnErr result (Grows (K.held sink.old) (K.held sink.new) (self.old ++ piece.now)) }
        ensures forgotten { OnErr result (self.new ≡ []) }
        ensures cause { HasCause (K.faults sink.old) (K.faults sink.new) result }

        // No call follows one that failed.
        ensures not_ended { OnOk result (K.ended sink.old ≡ 0 → K.ended sink.new ≡ 0) }
        ensures once { K.ended sink.old ≡ 0 → K.ended sink.new ≤ 1 }
    {
        if self.keep(piece) {
            return Ok(());
        }
        self.flush(sink)?;
        if self.keep(piece) {
            return Ok(());
        }
        write_all(sink, piece)?;
        Ok(())
    }
}

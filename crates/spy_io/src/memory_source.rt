ghost use Rattle.std.specs.Prelude.{◌≡◌, ◌≤◌, ◌↔◌, IfOk, OnErr, IsErr, Some, drop};
ghost use Rattle.std.specs.Io.{ReadsAtMost};
ghost use Rattle.std.specs.Io.KnownBytes.{ReadConsumes};
ghost use Rattle.spy_io.specs.Causes.{HasCause, ended_after, idle_after, is_last};

use crate::counts::{ended_after, idle_after};
use crate::{Failed, Source};
use std::marker::Model;

/// A source over bytes in memory. It gives them in pieces, and fails at stated calls.
#[derive(Drop)]
pub struct MemSource {
    bytes: Vec<u8>,
    at: usize,
    cut: usize,
    failing: Vec<u64>,
    calls: u64,
    faults: u64,
    ended: u64,
    idle: u64,
}

impl Model for MemSource {
    ghost use Rattle.std.specs.Prelude.{drop, length, ◌≤◌};
    ghost use Rattle.spy_io.specs.MemorySource.{SourceState};

    ghost Value = { SourceState };

    ghost view = { λ s. record {
      left = drop s.at s.bytes.items;
      cut = s.cut;
      failing = s.failing.items;
      calls = s.calls;
      faults = s.faults;
      ended = s.ended;
      idle = s.idle;
    } };

    ghost invariant = { λ s. (s.at ≤ length s.bytes.items) × (1 ≤ s.cut) };
}

impl MemSource {
    ghost use Rattle.spy_io.specs.MemorySource.{fresh_source};

    /// A source of these bytes. A call gives at most `cut` of them. Calls are numbered from 1, and those whose
    /// numbers are in `failing` fail.
    pub fn new(bytes: Vec<u8>, cut: usize, failing: Vec<u64>) -> MemSource
        requires { 1 ≤ cut }
        ensures { result ≡ fresh_source bytes.items cut failing.items }
    {
        MemSource {
            bytes,
            at: 0,
            cut,
            failing,
            calls: 0,
            faults: 0,
            ended: 0,
            idle: 0,
        }
    }

    /// The bytes left.
    pub fn left(&self) -> &[u8]
        ensures { result.now ≡ self.now.left }
    {
        &self.bytes[self.at..]
    }
}

impl Source for MemSource {
    ghost use Rattle.spy_io.specs.MemorySource.{IsFailing, given_count, after_giving, after_fault};

    ghost left = { λ s. Some s.left };

    ghost faults = { λ s. s.faults };

    ghost ended = { λ s. s.ended };

    ghost idle = { λ s. s.idle };

    fn take(&mut self, into: &mut [u8]) -> Result<usize, Failed>
        // What each source does.
        ensures bound { ReadsAtMost result into.new }
        ensures bytes { ReadConsumes (Some self.old.left) (Some self.new.left) result into.new }
        ensures rest { IfOk result (λ n. drop n into.new ≡ drop n into.old) }
        ensures cause { HasCause self.old.faults self.new.faults result }
        ensures ended { self.new.ended ≡ ended_after self.old.ended (is_last result into.old) }
        ensures idle { self.new.idle ≡ idle_after self.old.idle into.old }

        // When this one fails, and how many bytes it gives otherwise.
        ensures fails { IsErr result ↔ IsFailing self.old }
        ensures count { IfOk result (λ n. n ≡ given_count self.old into.old) }
        ensures ok { IfOk result (λ n. self.new ≡ after_giving self.old n into.old) }
        ensures err { OnErr result (self.new ≡ after_fault self.old into.old) }
    {
        self.calls = self.calls.saturating_add(1);
        self.idle = idle_after(self.idle, into);
        if self.failing.contains(&self.calls) {
            self.faults = self.faults.saturating_add(1);
            self.ended = ended_after(self.ended, true);
            return Err(Failed);
        }
        let count = self.cut.min(into.len()).min(self.bytes.len() - self.at);
        self.ended = ended_after(self.ended, count == 0 && !into.is_empty());
        into[..count].copy_from_slice(&self.bytes[self.at..self.at + count]);
        self.at += count;
        Ok(count)
    }
}

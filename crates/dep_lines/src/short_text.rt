//! Texts of few bytes, whose memory is taken when they are made.

ghost use Rattle.std.specs.Prelude.{◌≡◌, ◌+◌, ◌≤◌, ◌++◌, [], length, decimal, IfOk};

use itoa::Buffer;
use memory::Memory;
use std::alloc::Global;
use std::marker::Model;

/// How many bytes a text may have.
const ROOM: usize = 96;

/// A text of at most 96 bytes. Only `new` takes memory.
#[derive(Drop)]
pub(crate) struct ShortText {
    bytes: Vec<u8>,
}

impl Model for ShortText {
    ghost use Rattle.std.specs.Prelude.{List, ℕ, ◌≤◌, vec_capacity};

    ghost Value = { List ℕ };

    ghost view = { λ t. t.bytes.items };

    ghost invariant = { λ t. 96 ≤ vec_capacity t.bytes };
}

impl ShortText {
    /// The text of no byte.
    pub(crate) fn new(alloc: Global) -> Result<ShortText, Memory>
        ensures { IfOk result (λ t. t ≡ []) }
    {
        Ok(ShortText {
            bytes: Vec::with_capacity(alloc, ROOM)?,
        })
    }

    /// The bytes.
    pub(crate) fn as_slice(&self) -> &[u8]
        ensures { result.now ≡ self.now }
    {
        &self.bytes
    }

    /// Takes all bytes off.
    pub(crate) fn clear(&mut self)
        ensures text { self.new ≡ [] }
        ensures length { length self.new ≡ 0 }
    {
        self.bytes.clear();
    }

    /// Adds some bytes.
    pub(crate) fn push(&mut self, piece: &[u8])
        requires { length self.old + length piece.now ≤ 96 }
        ensures text { self.new ≡ self.old ++ piece.now }
        ensures length { length self.new ≡ length self.old + length piece.now }
    {
        match self.bytes.extend_from_slice(piece) {
            Ok(()) => {}
            Err(_) => unreachable!(),
        }
    }

    /// Adds a number of 32 bits, which has at most 10 digits.
    pub(crate) fn push_small(&mut self, n: u32)
        requires { length self.old ≤ 86 }
        ensures text { self.new ≡ self.old ++ decimal n }
        ensures length { length self.new ≤ length self.old + 10 }
    {
        let mut buffer = Buffer::new();
        self.push(buffer.format(n).as_bytes());
    }

    /// Adds a number of 64 bits, which has at most 20 digits.
    pub(crate) fn push_large(&mut self, n: u64)
        requires { length self.old ≤ 76 }
        ensures text { self.new ≡ self.old ++ decimal n }
        ensures length { length self.new ≤ length self.old + 20 }
    {
        let mut buffer = Buffer::new();
        self.push(buffer.format(n).as_bytes());
    }
}

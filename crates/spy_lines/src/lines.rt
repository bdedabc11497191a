ghost use Rattle.std.specs.Prelude.{◌≡◌, ◌+◌, ◌≤◌, ◌^◌, ◌++◌, ◌↔◌, ◌==◌, [], length, All, count_by, OnOk, OnErr, IfOk, IfErr, IsErr, IsTrue};
ghost use Rattle.spy_lines.specs.LinesOf.{with_ends, IsLine, IsUnended};

use crate::line_list::{LineList, count_feeds};
use memory::Memory;
use std::alloc::Global;
use std::marker::Model;

/// The last line, with this number from 1, has no line feed.
#[derive(Clone, Copy, PartialEq, Eq)]
pub struct NoNewline {
    pub line: u32,
}

/// Bytes that come in pieces.
#[derive(Drop)]
pub struct Lines {
    bytes: Vec<u8>,
}

impl Model for Lines {
    ghost use Rattle.std.specs.Prelude.{List, ℕ, ◌≤◌, ◌^◌, length};

    ghost Value = { List ℕ };

    ghost view = { λ l. l.bytes.items };

    ghost invariant = { λ l. length l.bytes.items ≤ 2 ^ 26 };
}

fn is_unended(bytes: &[u8]) -> bool
    ensures { IsTrue result ↔ IsUnended bytes.now }
{
    match bytes.last() {
        Some(last) => *last != b'\n',
        None => false,
    }
}

impl Lines {
    /// No bytes so far.
    pub fn new(alloc: Global) -> Lines
        ensures { result ≡ [] }
    {
        Lines {
            bytes: Vec::new(alloc),
        }
    }

    /// All bytes at once. They are kept as they are, and no memory is taken.
    pub fn of(bytes: Vec<u8>) -> Lines
        requires { length bytes.items ≤ 2 ^ 26 }
        ensures { result ≡ bytes.items }
    {
        Lines { bytes }
    }

    /// Takes the next piece.
    pub fn feed(&mut self, piece: &[u8]) -> Result<(), Memory>
        requires { length self.old + length piece.now ≤ 2 ^ 26 }
        ensures ok { OnOk result (self.new ≡ self.old ++ piece.now) }
        ensures err { OnErr result (self.new ≡ self.old) }
    {
        self.bytes.extend_from_slice(piece)?;
        Ok(())
    }

    /// The lines of all the bytes, which are one list however the bytes were cut (`one_list_of_lines`).
    pub fn finish(self) -> Result<LineList, NoNewline>
        ensures bytes { IfOk result (λ lines. with_ends lines ≡ self) }
        ensures lines { IfOk result (λ lines. All IsLine lines) }
        ensures unended { IsErr result ↔ IsUnended self }
        ensures line { IfErr result (λ e. e.line ≡ count_by (λ b. b == 10) self + 1) }
    {
        if is_unended(&self.bytes) {
            return Err(NoNewline {
                line: count_feeds(&self.bytes) as u32 + 1,
            });
        }
        Ok(LineList::from_bytes(self.bytes))
    }
}

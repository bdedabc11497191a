//! Lines gone over in order, of which each is kept or passed over.

ghost use Rattle.std.specs.Prelude.{◌≡◌, ◌+◌, ◌≤◌, ◌++◌, [], length, take, drop, slice_get};
ghost use Rattle.std.specs.Option.{option_map};
ghost use Rattle.spy_lines.specs.LinesOf.{lines_of, with_ends};

use memchr::memchr;
use std::marker::Model;

/// The lines of a text, gone over in order: each is kept or passed over.
///
/// The kept lines move to the front of the text's own bytes, so that they take no memory.
#[derive(Drop)]
pub struct KeptLines {
    bytes: Vec<u8>,
    /// So many bytes at the front are kept.
    to: usize,
    /// The next line begins here.
    at: usize,
    /// So many bytes has the next line with its line feed, or 0 where there is none.
    len: usize,
}

impl Model for KeptLines {
    ghost use Rattle.std.specs.Prelude.{◌≡◌, ◌+◌, ◌≤◌, length, take, drop};
    ghost use Rattle.spy_lines.specs.LinesOf.{lines_of, with_ends};
    ghost use Rattle.spy_lines.specs.Kept.{Keeping};

    ghost Value = { Keeping };

    ghost view = { λ k. record { kept = take k.to k.bytes.items; rest = lines_of (drop k.at k.bytes.items) } };

    ghost invariant = { λ k. (k.to ≤ k.at) × (k.at + k.len ≤ length k.bytes.items)
        × (k.len ≡ length (with_ends (take 1 (lines_of (drop k.at k.bytes.items))))) };
}

/// How many bytes the first line has with its line feed, or 0 where there is no line.
fn line_len(bytes: &[u8]) -> usize
    ensures { result ≡ length (with_ends (take 1 (lines_of bytes.now))) }
{
    match memchr(b'\n', bytes) {
        Some(end) => end + 1,
        None => 0,
    }
}

/// Moves bytes down from one place to another.
fn move_down(bytes: &mut [u8], from: usize, to: usize, count: usize)
    requires down { to ≤ from }
    requires inside { from + count ≤ length bytes.old }
    ensures moved { take (to + count) bytes.new ≡ take to bytes.old ++ take count (drop from bytes.old) }
    ensures behind { drop (from + count) bytes.new ≡ drop (from + count) bytes.old }
{
    // Bytes that stand where they are wanted, as all do before the first line that is passed over.
    if to == from {
        return;
    }
    bytes.copy_within(from..from + count, to);
}

impl KeptLines {
    /// No line of a text is kept so far.
    pub(crate) fn of(bytes: Vec<u8>) -> KeptLines
        ensures kept { result.kept ≡ [] }
        ensures rest { result.rest ≡ lines_of bytes.items }
    {
        let len = line_len(&bytes);
        KeptLines {
            bytes,
            to: 0,
            at: 0,
            len,
        }
    }

    /// The next line, without its line feed, if there is one.
    pub fn line(&self) -> Option<&[u8]>
        ensures { option_map (λ line. line.now) result ≡ slice_get self.now.rest 0 }
    {
        let end = self.len.checked_sub(1)?;
        Some(&self.bytes[self.at..self.at + end])
    }

    /// Keeps the next line with its line feed, if there is one.
    pub fn keep(&mut self)
        ensures kept { self.new.kept ≡ self.old.kept ++ with_ends (take 1 self.old.rest) }
        ensures rest { self.new.rest ≡ drop 1 self.old.rest }
    {
        move_down(&mut self.bytes, self.at, self.to, self.len);
        self.to += self.len;
        self.at += self.len;
        self.len = line_len(&self.bytes[self.at..]);
    }

    /// Passes over the next line, if there is one.
    pub fn pass(&mut self)
        ensures kept { self.new.kept ≡ self.old.kept }
        ensures rest { self.new.rest ≡ drop 1 self.old.rest }
    {
        self.at += self.len;
        self.len = line_len(&self.bytes[self.at..]);
    }

    /// The kept lines, one after the other, each with its line feed.
    pub fn finish(self) -> Vec<u8>
        ensures { result.items ≡ self.kept }
    {
        let mut bytes = self.bytes;
        bytes.truncate(self.to);
        bytes
    }
}

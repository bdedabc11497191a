ghost use Rattle.std.specs.Prelude.{◌≡◌, ◌≤◌, ◌^◌, ◌==◌, [], length, slice_get, count_by};
ghost use Rattle.std.specs.Iterator.{YieldsFirstRef, item_count};
ghost use Rattle.std.specs.Option.{option_map};
ghost use Rattle.spy_lines.specs.LinesOf.{lines_of};

use crate::kept::KeptLines;
use memchr::{memchr, memchr_iter};
use std::marker::Model;

/// The lines of a text, each without its line feed.
#[derive(Drop)]
pub struct LineList {
    bytes: Vec<u8>,
}

impl Model for LineList {
    ghost use Rattle.std.specs.Prelude.{List, ℕ, ◌≤◌, ◌^◌, length};
    ghost use Rattle.spy_lines.specs.LinesOf.{lines_of};

    ghost Value = { List (List ℕ) };

    ghost view = { λ l. lines_of l.bytes.items };

    ghost invariant = { λ l. length l.bytes.items ≤ 2 ^ 26 };
}

/// How many line feeds there are.
pub(crate) fn count_feeds(bytes: &[u8]) -> usize
    ensures { result ≡ count_by (λ b. b == 10) bytes.now }
{
    memchr_iter(b'\n', bytes).count()
}

impl LineList {
    /// The lines of a text, which ends by a line feed: bytes after the last one are of no line.
    pub(crate) fn from_bytes(bytes: Vec<u8>) -> LineList
        requires { length bytes.items ≤ 2 ^ 26 }
        ensures { result ≡ lines_of bytes.items }
    {
        LineList { bytes }
    }

    /// How many lines there are. It counts them, in one pass over the bytes.
    pub fn len(&self) -> usize
        ensures count { result ≡ length self.now }
        // A text has 2^26 bytes at most, and so no more lines.
        ensures few { result ≤ 2 ^ 26 }
    {
        count_feeds(&self.bytes)
    }

    /// The line at place `k`, from 0, or `None` past the last line.
    /// It goes through the lines before: who wants all of them takes `iter`.
    pub fn line(&self, k: usize) -> Option<&[u8]>
        ensures { option_map (λ line. line.now) result ≡ slice_get self.now k }
    {
        self.iter().nth(k)
    }

    /// The lines in order, found one by one in one pass over the bytes.
    pub fn iter(&self) -> LineIter<'_>
        ensures lines { result ≡ self.now }
        ensures few { length result ≤ 2 ^ 26 }
    {
        LineIter { rest: &self.bytes }
    }

    /// The same lines, to keep some of them and pass over the others. It takes no memory.
    pub fn keeping(self) -> KeptLines
        ensures kept { result.kept ≡ [] }
        ensures rest { result.rest ≡ self }
        ensures few { length result.rest ≤ 2 ^ 26 }
    {
        KeptLines::of(self.bytes)
    }
}

/// The lines that are left of a text, in order.
#[derive(Drop)]
pub struct LineIter<'a> {
    rest: &'a [u8],
}

impl<'a> Model for LineIter<'a> {
    ghost use Rattle.std.specs.Prelude.{List, ℕ};
    ghost use Rattle.spy_lines.specs.LinesOf.{lines_of};

    ghost Value = { List (List ℕ) };

    ghost view = { λ l. lines_of l.rest.now };
}

impl<'a> Iterator for LineIter<'a> {
    type Item = &'a [u8];

    ghost next_gives = { YieldsFirstRef (λ lines. lines) };

    ghost remaining = { item_count (λ lines. lines) };

    fn next(&mut self) -> Option<&'a [u8]> {
        let end = memchr(b'\n', self.rest)?;
        let line = &self.rest[..end];
        self.rest = &self.rest[end + 1..];
        Some(line)
    }
}

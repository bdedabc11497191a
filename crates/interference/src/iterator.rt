//! The pairs of items that interfere, one after the other.

ghost use Rattle.std.specs.Prelude.{◌≡◌, ◌≤◌, ◌<◌, ◌+◌, ◌-◌, ◌^◌, [], IfNone, IfSome};
ghost use Rattle.std.specs.Iterator.{YieldsFirst, item_count};
ghost use Rattle.interference.specs.Pairing.{asked_of, left, StartsLeft};
ghost use Rattle.interference.specs.Remembering.{AreRight};
ghost use Rattle.interference.specs.Searching.{IsSearch};
ghost use Rattle.interference.specs.Stretched.{StartsWith};

use crate::pair::Pair;
use crate::partners::{alike_end, next_partner, remembered_pair};
use crate::recent::Recent;
use crate::search::Search;
use crate::stretch::Stretch;
use point_set::PointSet;
use std::marker::Model;

/// The pairs that are left, in order: by the first item, and then by the second. No call takes memory.
#[derive(Drop)]
pub struct Pairs<'l, 'a, P: PointSet + Copy> {
    search: Search<'l, 'a, P>,
    memory: Recent,
    a: usize,
    from: usize,
}

impl<'l, 'a, P: PointSet + Copy> Model for Pairs<'l, 'a, P> {
    ghost use Rattle.std.specs.Prelude.{List, ◌≤◌, ◌<◌, ◌^◌, length};
    ghost use Rattle.interference.specs.Remembering.{AreRight};
    ghost use Rattle.interference.specs.declared.pair.Pair.{Pair};
    ghost use Rattle.interference.specs.Pairing.{left, asked_of};
    ghost use Rattle.interference.specs.Searching.{IsSearch};

    ghost Value = { List Pair };

    ghost view = { λ s. left (asked_of s.search.asked) s.search.items.now s.a s.from };

    // The items are few enough to be counted.
    ghost invariant = { λ s. (s.a ≤ s.from) × (length s.search.items.now < 2 ^ 64) × IsSearch s.search
        × AreRight s.search.items.now s.memory.answers };
}

/// The first pair that is left. It stays a call, so that what calls it stays small.
#[inline(never)]
fn first_left<'a, P: PointSet + Copy>(
    search: &Search<'_, 'a, P>,
    memory: &mut Recent,
    start: usize,
    start_from: usize,
) -> Option<Pair>
    requires search { IsSearch search.now }
    requires memory { AreRight search.now.items.now memory.old.answers }
    requires order { start ≤ start_from }
    ensures none { IfNone result (left (asked_of search.now.asked) search.now.items.now start start_from ≡ []) }
    ensures some { IfSome result (StartsLeft (asked_of search.now.asked) search.now.items.now start start_from) }
    ensures memory { AreRight search.now.items.now memory.new.answers }
{
    let mut from = start_from;
    for a in start..search.items.len() {
        if let Some(pair) = next_partner(search, memory, a, from) {
            return Some(pair);
        }
        from = a.saturating_add(2);
    }
    None
}

/// The same, where most often the next item is of a kind that was met before.
#[inline]
fn next_left<'a, P: PointSet + Copy>(
    search: &Search<'_, 'a, P>,
    memory: &mut Recent,
    a: usize,
    from: usize,
) -> Option<Pair>
    requires search { IsSearch search.now }
    requires memory { AreRight search.now.items.now memory.old.answers }
    requires order { a ≤ from }
    ensures none { IfNone result (left (asked_of search.now.asked) search.now.items.now a from ≡ []) }
    ensures some { IfSome result (StartsLeft (asked_of search.now.asked) search.now.items.now a from) }
    ensures memory { AreRight search.now.items.now memory.new.answers }
{
    match remembered_pair(search, memory, a, from) {
        Some(pair) => Some(pair),
        None => first_left(search, memory, a, from),
    }
}

impl<'l, 'a, P: PointSet + Copy> Iterator for Pairs<'l, 'a, P> {
    type Item = Pair;

    ghost next_gives = { YieldsFirst (λ rest. rest) };

    ghost remaining = { item_count (λ rest. rest) };

    #[inline]
    fn next(&mut self) -> Option<Pair> {
        match next_left(&self.search, &mut self.memory, self.a, self.from) {
            Some(pair) => {
                self.a = pair.a;
                self.from = pair.b + 1;
                Some(pair)
            }
            None => None,
        }
    }
}

impl<'l, 'a, P: PointSet + Copy> Pairs<'l, 'a, P> {
    /// The pairs that come next, of one item with items in a row that ask for the same: at least one, where any is left.
    pub fn next_stretch(&mut self) -> Option<Stretch>
        ensures none { IfNone result (self.old ≡ []) }
        ensures end { IfNone result (self.new ≡ []) }
        ensures some { IfSome result (StartsWith self.old self.new) }
    {
        let pair = next_left(&self.search, &mut self.memory, self.a, self.from)?;
        let to = alike_end(
            self.search.asked,
            self.search.representatives,
            pair.a,
            pair.b,
        );
        self.a = pair.a;
        self.from = to;
        Some(Stretch {
            a: pair.a,
            from: pair.b,
            to,
            kind: pair.kind,
            place: pair.place,
        })
    }

    /// The pairs of a search whose first item is one or a later one.
    pub(crate) fn of(search: &Search<'l, 'a, P>, a: usize) -> Pairs<'l, 'a, P>
        requires search { IsSearch search.now }
        requires few { a < 2 ^ 64 - 1 }
        ensures { result ≡ left (asked_of search.now.asked) search.now.items.now a (a + 1) }
    {
        Pairs {
            search: Search {
                asked: search.asked,
                items: search.items,
                blocks: search.blocks,
                representatives: search.representatives,
            },
            memory: Recent::new(search.items.len()),
            a,
            from: a + 1,
        }
    }
}

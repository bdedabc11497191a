//! The next item that interferes with one, block by block.

ghost use Rattle.std.specs.Prelude.{◌≡◌, ℕ, ◌<◌, ◌≤◌, false, true, [], length, IfNone, IfSome};
ghost use Rattle.item_uses.specs.Usages.{usages_at};
ghost use Rattle.item_uses.specs.Spans.{Bounds};
ghost use Rattle.interference.specs.Pairing.{asked_of, is_asked, met_at, IsMeeting, row, StartsRow};
ghost use Rattle.interference.specs.Remembering.{IsHow, AreRight, pair_found};
ghost use Rattle.interference.specs.Searching.{IsSearch};
ghost use Rattle.interference.specs.Stretched.{AreAlikeTo};

use crate::pair::Pair;
use crate::recent::Recent;
use crate::search::Search;
use item_uses::{Interference, Span};
use point_set::PointSet;

/// Whether a pair is asked for: any is, or one of which the second item comes before the first by these places.
#[inline]
fn is_asked(asked: Option<&[usize]>, a: usize, b: usize) -> bool
    requires a { IfSome asked (λ places. a < length places.now) }
    requires b { IfSome asked (λ places. b < length places.now) }
    ensures { result ≡ is_asked (asked_of asked.entry) a b }
{
    match asked {
        Some(places) => places[b] < places[a],
        None => true,
    }
}

/// The pair of two items of which this is found, if they interfere.
#[inline]
fn pair_with(a: usize, b: usize, found: Interference) -> Option<Pair>
    ensures { result ≡ pair_found a b found }
{
    let place = found.place?;
    Some(Pair {
        a,
        b,
        kind: found.kind,
        place,
    })
}

/// How two items interfere: what is remembered of those that stand for them, or else what is found, and then remembered.
fn interference<'a, P: PointSet + Copy>(
    search: &Search<'_, 'a, P>,
    memory: &mut Recent,
    a: usize,
    b: usize,
) -> Interference
    requires search { IsSearch search.now }
    requires a { a < length search.now.items.now }
    requires b { b < length search.now.items.now }
    requires memory { AreRight search.now.items.now memory.old.answers }
    ensures found { IsHow search.now.items.now a b result }
    ensures memory { AreRight search.now.items.now memory.new.answers }
{
    let ours = search.representatives[a];
    let theirs = search.representatives[b];
    if let Some(found) = memory.recall(ours, theirs) {
        return found;
    }
    let found = search.items[a].interference(&search.items[b]);
    memory.note(ours, theirs, found);
    found
}

/// The pair of two items, if it is asked for and they interfere.
fn pair_of<'a, P: PointSet + Copy>(
    search: &Search<'_, 'a, P>,
    memory: &mut Recent,
    a: usize,
    b: usize,
) -> Option<Pair>
    requires search { IsSearch search.now }
    requires a { a < length search.now.items.now }
    requires b { b < length search.now.items.now }
    requires memory { AreRight search.now.items.now memory.old.answers }
    ensures none { IfNone result (met_at (asked_of search.now.asked) search.now.items.now a b ≡ false) }
    ensures some { IfSome result (IsMeeting (asked_of search.now.asked) search.now.items.now a b) }
    ensures memory { AreRight search.now.items.now memory.new.answers }
{
    if !is_asked(search.asked, a, b) {
        return None;
    }
    if !search.items[a].may_interfere(&search.items[b].span()) {
        return None;
    }
    let found = interference(search, memory, a, b);
    pair_with(a, b, found)
}

/// The pair of two items, if it is asked for, and is remembered to be of items that interfere.
#[inline]
pub(crate) fn remembered_pair<'a, P: PointSet + Copy>(
    search: &Search<'_, 'a, P>,
    memory: &Recent,
    a: usize,
    b: usize,
) -> Option<Pair>
    requires search { IsSearch search.now }
    requires order { a ≤ b }
    requires memory { AreRight search.now.items.now memory.now.answers }
    ensures { IfSome result (StartsRow (asked_of search.now.asked) search.now.items.now a b) }
{
    if b >= search.items.len() {
        return None;
    }
    if !is_asked(search.asked, a, b) {
        return None;
    }
    let found = memory.recall(search.representatives[a], search.representatives[b])?;
    pair_with(a, b, found)
}

/// Where the items in a row end that come after one, ask for the same, and are asked for with a first.
pub(crate) fn alike_end(
    asked: Option<&[usize]>,
    representatives: &[usize],
    a: usize,
    b: usize,
) -> usize
    requires asked { IfSome asked (λ places. length places.now ≡ length representatives.now) }
    requires a { a < length representatives.now }
    requires b { b < length representatives.now }
    ensures { AreAlikeTo (asked_of asked.entry) representatives.now a b result }
{
    let same = representatives[b];
    for i in b + 1..representatives.len() {
        if representatives[i] != same || !is_asked(asked, a, i) {
            return i;
        }
    }
    representatives.len()
}

/// Items in a row, from one to before another, and bounds on what each of them asks for.
#[derive(Clone, Copy)]
struct Block<'s> {
    bounds: &'s Span,
    from: usize,
    to: usize,
}

/// The first pair of an item with those from one to before another.
fn partner<'a, P: PointSet + Copy>(
    search: &Search<'_, 'a, P>,
    memory: &mut Recent,
    a: usize,
    from: usize,
    to: usize,
) -> Option<Pair>
    requires search { IsSearch search.now }
    requires memory { AreRight search.now.items.now memory.old.answers }
    requires place { a < length search.now.items.now }
    requires order { a ≤ from }
    requires end { (from ≤ to) × (to ≤ length search.now.items.now) }
    ensures none { IfNone result (row (asked_of search.now.asked) search.now.items.now a from
        ≡ row (asked_of search.now.asked) search.now.items.now a to) }
    ensures some { IfSome result (StartsRow (asked_of search.now.asked) search.now.items.now a from) }
    ensures memory { AreRight search.now.items.now memory.new.answers }
{
    for b in from..to {
        if let Some(pair) = pair_of(search, memory, a, b) {
            return Some(pair);
        }
    }
    None
}

/// The same within a block, whose items are looked at only where its bounds leave room.
fn partner_in_block<'a, P: PointSet + Copy>(
    search: &Search<'_, 'a, P>,
    memory: &mut Recent,
    a: usize,
    block: &Block<'_>,
) -> Option<Pair>
    requires search { IsSearch search.now }
    requires memory { AreRight search.now.items.now memory.old.answers }
    requires place { a < length search.now.items.now }
    requires order { a ≤ block.now.from }
    requires end { (block.now.from ≤ block.now.to) × (block.now.to ≤ length search.now.items.now) }
    requires block { (i : ℕ) → block.now.from ≤ i → i < block.now.to
        → Bounds block.now.bounds.now (usages_at search.now.items.now i) }
    ensures none { IfNone result (row (asked_of search.now.asked) search.now.items.now a block.now.from
        ≡ row (asked_of search.now.asked) search.now.items.now a block.now.to) }
    ensures some { IfSome result (StartsRow (asked_of search.now.asked) search.now.items.now a block.now.from) }
    ensures memory { AreRight search.now.items.now memory.new.answers }
{
    if search.items[a].may_interfere(block.bounds) {
        partner(search, memory, a, block.from, block.to)
    } else {
        None
    }
}

/// The first pair of an item with those from one on.
pub(crate) fn next_partner<'a, P: PointSet + Copy>(
    search: &Search<'_, 'a, P>,
    memory: &mut Recent,
    a: usize,
    from: usize,
) -> Option<Pair>
    requires search { IsSearch search.now }
    requires memory { AreRight search.now.items.now memory.old.answers }
    requires place { a < length search.now.items.now }
    requires order { a ≤ from }
    ensures none { IfNone result (row (asked_of search.now.asked) search.now.items.now a from ≡ []) }
    ensures some { IfSome result (StartsRow (asked_of search.now.asked) search.now.items.now a from) }
    ensures memory { AreRight search.now.items.now memory.new.answers }
{
    let mut start = from;
    for k in (from / 64)..search.blocks.len() {
        if start >= search.items.len() {
            return None;
        }
        let end = (64 * k).saturating_add(64).min(search.items.len());
        let block = Block {
            bounds: &search.blocks[k],
            from: start,
            to: end,
        };
        if let Some(pair) = partner_in_block(search, memory, a, &block) {
            return Some(pair);
        }
        start = end;
    }
    None
}

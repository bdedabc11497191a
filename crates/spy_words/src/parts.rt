//! Words that hold a list: numbers, runs of points, or rectangles of points.

ghost use Rattle.std.specs.Prelude.{◌≡◌, [], ◌∷◌, ◌↔◌, ◌++◌, IsTrue, IfOk, OnOk, map, decimal, nat_lt, List, ℕ, Bool, Result};
ghost use Rattle.std.specs.List.{AllByRecursion};
ghost use Rattle.spy_words.specs.declared.fault.LineFault.{LineFault};
ghost use Rattle.spy_words.specs.declared.fault.LineFault.TheVariants.{Form, Order};
ghost use Rattle.spy_words.specs.Classes.{ascends, follow, span_before, span_word, quad_before, quad_word, list_word, IsNumberFrom, IsSpanFrom, IsQuadFrom};
ghost use Rattle.spy_words.specs.Faults.{both, map_ok, tested};
ghost use Rattle.spy_words.specs.Reading.{each, extent_at, has_colon, has_some, list_at, number_from, quad_among, quad_from, span_among, span_from};

use crate::cut::Pieces;
use crate::fault::{LineFault, meet, outcome_of, worse_of};
use crate::lists::{Extent, ListOf, Quad};
use crate::short_lists::Gathered;
use crate::words::{number_of, push_u64};
use std::alloc::{AllocError, Global};

/// What is read of some text, where memory suffices.
pub type Read<T> = Result<Result<T, LineFault>, AllocError>;

/// A part of a list: a number, a run of points, or a rectangle of points.
pub trait ListPart: Copy + Drop {
    /// The part that a word says, its numbers from a least one on.
    ghost reading: { ℕ → List ℕ → Result Self LineFault };

    /// The word of the part.
    ghost text: { Self → List ℕ };

    /// Which parts have a word, their numbers from a least one on.
    ghost IsFit: { ℕ → Self → Type 0 };

    /// Which parts may stand before which in an ascending list.
    ghost before: { Self → Self → Bool };

    /// The part that a word says, its numbers from the least up.
    fn read(least: u32, word: &[u8]) -> Result<Self, LineFault>
        ensures { result ≡ reading least word.now };

    /// Writes the part.
    fn push(self, out: &mut Vec<u8>) -> Result<(), AllocError>
        ensures { OnOk result (out.new.items ≡ out.old.items ++ text self) };

    /// Whether the part has a spelling, its numbers from the least up.
    fn is_fit(self, least: u32) -> bool
        ensures { IsTrue result ↔ IsFit least self };

    /// Whether the part may stand before another in an ascending list.
    fn is_before(self, next: Self) -> bool
        ensures { result ≡ before self next };
}

/// What the parts of a list are gathered in as they are read.
pub trait GatherParts: Drop {
    type Part: ListPart;

    /// The parts in order.
    ghost parts: { Self → List Self.Part };

    /// No parts.
    fn none(alloc: Global) -> Self
        ensures { parts result ≡ [] };

    /// One part more.
    fn add(&mut self, part: Self::Part) -> Result<(), AllocError>
        ensures { OnOk result (parts self.new ≡ parts self.old ++ part ∷ []) };

    /// The parts in order.
    fn as_parts(&self) -> &[Self::Part]
        ensures { result.now ≡ parts self.now };
}

impl GatherParts for Gathered {
    type Part = u32;

    ghost parts = { λ v. v.items };

    fn none(alloc: Global) -> Gathered {
        Gathered::new(alloc)
    }

    fn add(&mut self, part: u32) -> Result<(), AllocError> {
        self.push(part)?;
        Ok(())
    }

    fn as_parts(&self) -> &[u32] {
        self.as_slice()
    }
}

impl<T: ListPart> GatherParts for Vec<T> {
    type Part = T;

    ghost parts = { λ v. v.items };

    fn none(alloc: Global) -> Vec<T> {
        Vec::new(alloc)
    }

    fn add(&mut self, part: T) -> Result<(), AllocError> {
        self.push(part)?;
        Ok(())
    }

    fn as_parts(&self) -> &[T] {
        self.as_slice()
    }
}

impl ListPart for u32 {
    ghost reading = { number_from };

    ghost text = { decimal };

    ghost IsFit = { IsNumberFrom };

    ghost before = { nat_lt };

    fn read(least: u32, word: &[u8]) -> Result<u32, LineFault> {
        number_of(least, word)
    }

    fn push(self, out: &mut Vec<u8>) -> Result<(), AllocError> {
        push_u64(out, u64::from(self))
    }

    fn is_fit(self, least: u32) -> bool {
        least <= self
    }

    fn is_before(self, next: u32) -> bool {
        self < next
    }
}

impl ListPart for (u64, u64) {
    ghost reading = { span_from };

    ghost text = { span_word };

    ghost IsFit = { IsSpanFrom };

    ghost before = { span_before };

    fn read(least: u32, word: &[u8]) -> Result<(u64, u64), LineFault> {
        let (first, last) = span_of(least, word)?;
        Ok((u64::from(first), u64::from(last)))
    }

    fn push(self, out: &mut Vec<u8>) -> Result<(), AllocError> {
        push_span(out, self.0, self.1)
    }

    fn is_fit(self, least: u32) -> bool {
        u64::from(least) <= self.0 && self.0 <= self.1 && self.1 < 1 << 32
    }

    fn is_before(self, next: (u64, u64)) -> bool {
        self.1 < next.0
    }
}

impl ListPart for Quad {
    ghost reading = { quad_from };

    ghost text = { quad_word };

    ghost IsFit = { IsQuadFrom };

    ghost before = { quad_before };

    #[tactic(auto, unfolding(crate::specs::Reading::quad_from))]
    fn read(least: u32, word: &[u8]) -> Result<Quad, LineFault> {
        quad_among(least, Pieces::of(word, b':'))
    }

    fn push(self, out: &mut Vec<u8>) -> Result<(), AllocError> {
        push_span(out, u64::from(self.x0), u64::from(self.x1))?;
        out.push(b':')?;
        push_span(out, u64::from(self.y0), u64::from(self.y1))
    }

    fn is_fit(self, least: u32) -> bool {
        least <= self.x0 && self.x0 <= self.x1 && least <= self.y0 && self.y0 <= self.y1
    }

    fn is_before(self, next: Quad) -> bool {
        self.x1 < next.x0 || (self.x0 == next.x0 && self.x1 == next.x1 && self.y1 < next.y0)
    }
}

/// Both values, or the fault that is reported.
fn both<A: Copy, B: Copy>(
    a: Result<A, LineFault>,
    b: Result<B, LineFault>,
) -> Result<(A, B), LineFault>
    ensures { result ≡ both a b }
{
    match (a, b) {
        (Ok(a), Ok(b)) => Ok((a, b)),
        (Err(fault), Ok(_)) | (Ok(_), Err(fault)) => Err(fault),
        (Err(first), Err(second)) => Err(worse_of(first, second)),
    }
}

/// A run, from its words.
fn span_among(least: u32, mut words: Pieces<'_>) -> Result<(u32, u32), LineFault>
    ensures { result ≡ span_among least words.entry }
{
    match (words.next(), words.next(), words.next()) {
        (Some(only), None, _) => {
            let point = number_of(least, only)?;
            Ok((point, point))
        }
        (Some(first), Some(last), None) => {
            match both(number_of(least, first), number_of(least, last)) {
                Ok((first, last)) if last <= first => Err(LineFault::Order),
                read => read,
            }
        }
        _ => Err(LineFault::Form),
    }
}

/// A run: one number, or the first and the last with a dash between.
#[tactic(auto, unfolding(crate::specs::Reading::span_from))]
fn span_of(least: u32, word: &[u8]) -> Result<(u32, u32), LineFault>
    ensures { result ≡ span_from least word.now }
{
    span_among(least, Pieces::of(word, b'-'))
}

/// Writes a run.
fn push_span(out: &mut Vec<u8>, first: u64, last: u64) -> Result<(), AllocError>
    ensures { OnOk result (out.new.items ≡ out.old.items ++ span_word (first, last)) }
{
    push_u64(out, first)?;
    if first == last {
        return Ok(());
    }
    out.push(b'-')?;
    push_u64(out, last)
}

/// A rectangle, from the words of its columns and rows.
fn quad_among(least: u32, mut words: Pieces<'_>) -> Result<Quad, LineFault>
    ensures { result ≡ quad_among least words.entry }
{
    match (words.next(), words.next(), words.next()) {
        (Some(columns), Some(rows), None) => {
            let ((x0, x1), (y0, y1)) = both(span_of(least, columns), span_of(least, rows))?;
            Ok(Quad { x0, x1, y0, y1 })
        }
        _ => Err(LineFault::Form),
    }
}

/// What each word says, or the fault that is reported of theirs. No word is left then.
pub fn each_of<G: GatherParts>(alloc: Global, least: u32, words: &mut Pieces<'_>) -> Read<G>
    ensures read { IfOk result (λ read. map_ok G.parts read ≡ each (G.Part.reading least) words.old) }
    ensures rest { OnOk result (words.new ≡ []) }
{
    let mut items = G::none(alloc);
    let mut met = None;
    while let Some(word) = words.next() {
        match G::Part::read(least, word) {
            Ok(item) => items.add(item)?,
            Err(fault) => meet(&mut met, fault),
        }
    }
    Ok(outcome_of(met, items))
}

/// The parts between commas, or none for a dash.
#[tactic(auto, unfolding(crate::specs::Reading::list_at))]
pub fn list_of<G: GatherParts>(alloc: Global, least: u32, word: &[u8]) -> Read<G>
    ensures { IfOk result (λ read. map_ok G.parts read ≡ list_at (G.Part.reading least) word.now) }
{
    if word == b"-".as_slice() {
        return Ok(Ok(G::none(alloc)));
    }
    each_of(alloc, least, &mut Pieces::of(word, b','))
}

/// The parts that were read, if there are some.
pub fn at_least_one<G: GatherParts>(read: Result<G, LineFault>) -> Result<G, LineFault>
    ensures { map_ok G.parts result ≡ tested Form has_some (map_ok G.parts read) }
{
    match read {
        Ok(parts) if parts.as_parts().is_empty() => Err(LineFault::Form),
        read => read,
    }
}

/// The parts that were read, if they ascend.
pub fn ascending<G: GatherParts>(read: Result<G, LineFault>) -> Result<G, LineFault>
    ensures { map_ok G.parts result ≡ tested Order (ascends G.Part.before) (map_ok G.parts read) }
{
    match read {
        Ok(parts) if !ascend(parts.as_parts()) => Err(LineFault::Order),
        read => read,
    }
}

/// Whether a word has a colon.
fn has_colon(word: &[u8]) -> bool
    ensures { result ≡ has_colon word.now }
{
    word.iter().any(|b| *b == b':')
}

/// The parts between commas, or none for a dash, if they ascend.
fn parts_in_order<T: ListPart>(alloc: Global, word: &[u8]) -> Read<ListOf<T>>
    ensures { IfOk result (λ read. read ≡ tested Order (ascends T.before) (list_at (T.reading 0) word.now)) }
{
    match ascending(list_of::<Vec<T>>(alloc, 0, word)?) {
        Ok(parts) => Ok(Ok(ListOf::from_vec(parts))),
        Err(fault) => Ok(Err(fault)),
    }
}

/// The points of a space: rectangles where there is a colon, else runs.
#[tactic(auto, unfolding(crate::specs::Reading::extent_at))]
pub fn extent_of(alloc: Global, word: &[u8]) -> Read<Extent>
    ensures { IfOk result (λ read. read ≡ extent_at word.now) }
{
    if has_colon(word) {
        Ok(match parts_in_order(alloc, word)? {
            Ok(rects) => Ok(Extent::Plane(rects)),
            Err(fault) => Err(fault),
        })
    } else {
        Ok(match parts_in_order(alloc, word)? {
            Ok(set) => Ok(Extent::Runs(set)),
            Err(fault) => Err(fault),
        })
    }
}

/// Whether each part stands before the next.
pub fn ascend<T: ListPart>(parts: &[T]) -> bool
    ensures { result ≡ ascends T.before parts.now }
{
    let [first, rest @ ..] = parts else {
        return true;
    };
    let mut last = *first;
    let mut rest = rest;
    while let [next, more @ ..] = rest {
        if !last.is_before(*next) {
            return false;
        }
        last = *next;
        rest = more;
    }
    true
}

/// Whether each part has a spelling, its numbers from the least up.
pub fn are_fit<T: ListPart>(least: u32, parts: &[T]) -> bool
    ensures { IsTrue result ↔ AllByRecursion (T.IsFit least) parts.now }
{
    let mut rest = parts;
    while let [part, more @ ..] = rest {
        if !part.is_fit(least) {
            return false;
        }
        rest = more;
    }
    true
}

/// Writes each part, with a byte before it.
#[tactic(auto, using(std::proofs::Common::append_assoc))]
pub fn push_after<T: ListPart>(out: &mut Vec<u8>, byte: u8, parts: &[T]) -> Result<(), AllocError>
    ensures { OnOk result (out.new.items ≡ out.old.items ++ follow byte (map T.text parts.now)) }
{
    let mut rest = parts;
    while let [part, more @ ..] = rest {
        out.push(byte)?;
        part.push(out)?;
        rest = more;
    }
    Ok(())
}

/// Writes a list, or a dash for none.
#[tactic(auto, using(crate::proofs::lemmas::Joins::join_follow, std::proofs::Common::append_assoc))]
pub fn push_list<T: ListPart>(out: &mut Vec<u8>, parts: &[T]) -> Result<(), AllocError>
    ensures { OnOk result (out.new.items ≡ out.old.items ++ list_word T.text parts.now) }
{
    let Some((first, rest)) = parts.split_first() else {
        out.push(b'-')?;
        return Ok(());
    };
    first.push(out)?;
    push_after(out, b',', rest)
}

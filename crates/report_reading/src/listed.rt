//! The lines that a report lists beside its own, read.

ghost use Rattle.std.specs.Prelude.{◌≡◌, map, IfOk, List, ℕ};
ghost use Rattle.report_reading.specs.Reading.{dep_at, kind_at, link_at, spare_at};
ghost use Rattle.spy_words.specs.Reading.{parts};

use crate::numbers::{large_at, small_at, word_at};
use findings::{Dep, WhyKind, WhyLink};
use spy_words::ListOf;
use std::alloc::{AllocError, Global};

/// A line that a report lists beside its own.
pub trait ReadLine: Copy + Drop {
    /// What the words of such a line say. Of other words it is some line that has other words.
    ghost said: { List (List ℕ) → Self };

    /// What words say.
    fn read(words: &[&[u8]]) -> Self
        ensures { result ≡ said (map (λ w. w.now) words.now) };
}

/// A pair of items.
impl ReadLine for Dep {
    ghost said = { dep_at };

    #[tactic(auto, unfolding(crate::specs::Reading::dep_at))]
    #[rattlefmt::skip]
    fn read(words: &[&[u8]]) -> Dep {
        Dep { before: word_at(words, 0) == b"before".as_slice(), a: small_at(words, 1), b: small_at(words, 2), tree: small_at(words, 4), point: large_at(words, 6), field: small_at(words, 8) }
    }
}

/// A wait that others imply.
impl ReadLine for (u32, u32) {
    ghost said = { spare_at };

    #[tactic(auto, unfolding(crate::specs::Reading::spare_at))]
    fn read(words: &[&[u8]]) -> (u32, u32) {
        (small_at(words, 1), small_at(words, 2))
    }
}

/// How a value came into an instance.
fn kind_at(word: &[u8]) -> WhyKind
    ensures { result ≡ kind_at word.now }
{
    if word == b"write".as_slice() {
        WhyKind::Write
    } else if word == b"put".as_slice() {
        WhyKind::Put
    } else {
        WhyKind::Copy
    }
}

/// A link.
impl ReadLine for WhyLink {
    ghost said = { link_at };

    #[tactic(auto, unfolding(crate::specs::Reading::link_at))]
    #[rattlefmt::skip]
    fn read(words: &[&[u8]]) -> WhyLink {
        let name = word_at(words, 0);
        if name == b"start".as_slice() {
            WhyLink { kind: WhyKind::Start, done: 0, inst: small_at(words, 2), adds: small_at(words, 4) }
        } else {
            WhyLink { kind: kind_at(name), done: small_at(words, 1), inst: small_at(words, 3), adds: small_at(words, 5) }
        }
    }
}

/// The parts of a text, cut at each such byte.
pub fn parts_of(alloc: Global, text: &[u8], byte: u8) -> Result<Vec<&[u8]>, AllocError>
    ensures { IfOk result (λ v. map (λ w. w.now) v.items ≡ parts byte text.now) }
{
    text.split(|b| *b == byte).collect(alloc)
}

/// What a line says.
fn line_at<L: ReadLine>(alloc: Global, line: &[u8]) -> Result<L, AllocError>
    ensures { IfOk result (λ l. l ≡ L.said (parts 32 line.now)) }
{
    let words = parts_of(alloc, line, b' ')?;
    Ok(L::read(&words))
}

/// What lines say.
pub fn listed_at<L: ReadLine>(alloc: Global, lines: &[&[u8]]) -> Result<ListOf<L>, AllocError>
    ensures { IfOk result (λ list. list ≡ map L.said (map (parts 32) (map (λ w. w.now) lines.now))) }
{
    let mut list = Vec::new(alloc);
    let mut rest = lines;
    while let [line, more @ ..] = rest {
        list.push(line_at(alloc, line)?)?;
        rest = more;
    }
    Ok(ListOf::from_vec(list))
}

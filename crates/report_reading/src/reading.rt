//! A text, read as a report.
//!
//! The words of a text are taken for those of a report, and what they say is written again: only
//! where that gives the same text was it a report's. So numbers that are too large, leading zeros,
//! other spaces and wrong counts need no test of their own.

ghost use Rattle.std.specs.Prelude.{◌≡◌, ◌≢◌, ◌⊎◌, ◌↔◌, ◌-◌, codes, map, drop, length, IsTrue, IfOk, Ok, Err};
ghost use Rattle.std.specs.Str.{bytes_eq};
ghost use Rattle.findings.specs.declared.finding.Finding.{Finding};
ghost use Rattle.report_reading.specs.Numbers as numbers;
ghost use Rattle.report_reading.specs.Reading as says;
ghost use Rattle.findings.specs.Texts.{report_text, Good};
ghost use Rattle.report_reading.specs.declared.reading.TextFault.TheVariants as faults;
ghost use Rattle.spy_words.specs.Reading.{parts};

use crate::codes::code_of;
use crate::listed::{listed_at, parts_of};
use crate::numbers::{large_at, small_at, small_number, word_at};
use crate::value_reading::value_at;
use findings::{EventList, Finding, Memory, WhyAsk, good_finding, text};
use std::alloc::{AllocError, Global};

/// Why no report was read.
#[derive(Clone, Copy, PartialEq, Eq)]
pub enum TextFault {
    /// No report has this text.
    NotAReport,
    /// Memory ran out. This says nothing of the text.
    Memory,
}

impl From<Memory> for TextFault {
    ghost from_gives = { λ _ e. e ≡ faults.Memory };

    fn from(_e: Memory) -> TextFault {
        TextFault::Memory
    }
}

/// The words, or the lines, after the first.
fn after_first<'a, 'b>(words: &'b [&'a [u8]]) -> &'b [&'a [u8]]
    ensures words { map (λ w. w.now) result.now ≡ drop 1 (map (λ w. w.now) words.now) }
    ensures len { length result.now ≡ length words.now - 1 }
{
    match words {
        [_, row @ ..] => row,
        [] => &[],
    }
}

/// The events that words say.
fn events_at(alloc: Global, words: &[&[u8]]) -> Result<EventList, AllocError>
    ensures { IfOk result (λ events. events ≡ says.events_at (map (λ w. w.now) words.now)) }
{
    let mut events = Vec::new(alloc);
    let mut rest = words;
    while let [word, more @ ..] = rest {
        events.push(small_number(word))?;
        rest = more;
    }
    Ok(EventList::from_vec(events))
}

/// The read that was asked for.
#[rattlefmt::skip]
fn ask_at(words: &[&[u8]]) -> WhyAsk
    ensures { result ≡ says.ask_at (map (λ w. w.now) words.now) }
{
    WhyAsk { task: small_at(words, 2), req: small_at(words, 4), point: large_at(words, 6), field: small_at(words, 8) }
}

/// The table, backwards: the report that the words of its own line say, if these are the lines beside it.
#[tactic(auto, unfolding(crate::specs::Reading::report_at))]
#[rattlefmt::skip]
fn report_at(alloc: Global, listed: &[&[u8]], words: &[&[u8]]) -> Result<Finding, Memory>
    ensures { IfOk result (λ f. f
        ≡ says.report_at (map (parts 32) (map (λ w. w.now) listed.now)) (map (λ w. w.now) words.now)) }
{
    let name = word_at(words, 0);
    if name == b"accepted".as_slice() {
        Ok(Finding::Accepted { tasks: small_at(words, 2), operations: small_at(words, 4), reads: large_at(words, 6) })
    } else if name == b"ordered".as_slice() {
        Ok(Finding::Ordered { tasks: small_at(words, 2), pairs: large_at(words, 4) })
    } else if name == b"deps".as_slice() {
        Ok(Finding::Deps { list: listed_at(alloc, listed)?, items: small_at(words, 2), before: large_at(words, 4), turn: large_at(words, 6) })
    } else if name == b"spare".as_slice() {
        Ok(Finding::Spare { list: listed_at(alloc, listed)?, waits: large_at(words, 4) })
    } else if name == b"nested".as_slice() {
        Ok(Finding::Nested { tasks: small_at(words, 2), groups: small_at(words, 4), free: large_at(words, 6) })
    } else if name == b"cycle".as_slice() {
        Ok(Finding::Cycle { events: events_at(alloc, after_first(words))? })
    } else if name == b"race".as_slice() {
        Ok(Finding::Race { a: small_at(words, 1), b: small_at(words, 2), inst: small_at(words, 4), point: large_at(words, 6), field: small_at(words, 8) })
    } else if name == b"unordered".as_slice() {
        Ok(Finding::Unordered { t: small_at(words, 1), u: small_at(words, 2), tree: small_at(words, 4), point: large_at(words, 6), field: small_at(words, 8) })
    } else if name == b"differ".as_slice() {
        let got = value_at(alloc, word_at(words, 10))?;
        let want = value_at(alloc, word_at(words, 12))?;
        Ok(Finding::Differ { task: small_at(words, 2), req: small_at(words, 4), point: large_at(words, 6), field: small_at(words, 8), got, want })
    } else if name == b"no".as_slice() {
        Ok(Finding::NoRead { task: small_at(words, 3), req: small_at(words, 5), point: large_at(words, 7), field: small_at(words, 9) })
    } else if name == b"unlicensed".as_slice() {
        Ok(Finding::Unlicensed { leaf: word_at(words, 1) == b"task".as_slice(), child: small_at(words, 2), req: small_at(words, 4), group: small_at(words, 6), tree: small_at(words, 8), point: large_at(words, 10), field: small_at(words, 12) })
    } else if name == b"why".as_slice() {
        Ok(Finding::Why { ask: ask_at(words), links: listed_at(alloc, listed)? })
    } else if name == b"fault".as_slice() {
        Ok(Finding::Fault { line: small_at(words, 1), code: code_of(word_at(words, 2)) })
    } else if name == b"usage".as_slice() {
        Ok(Finding::Usage)
    } else {
        Ok(Finding::CannotRead)
    }
}

/// Whether a report's own line stands first, by the words of the first line.
fn is_headed(words: &[&[u8]]) -> bool
    ensures { result ≡ bytes_eq (numbers.word_at (map (λ w. w.now) words.now) 0) (codes "why") }
{
    word_at(words, 0) == b"why".as_slice()
}

/// The report that lines say. After the last line feed a text has one empty part.
fn report_in(alloc: Global, lines: &[&[u8]]) -> Result<Finding, Memory>
    ensures { IfOk result (λ f. f ≡ says.report_in (map (λ w. w.now) lines.now)) }
{
    let last = lines.len().saturating_sub(2);
    let first = parts_of(alloc, word_at(lines, 0), b' ')?;
    if is_headed(&first) {
        let others = after_first(lines);
        return report_at(alloc, &others[..last], &first);
    }
    let words = parts_of(alloc, word_at(lines, last), b' ')?;
    report_at(alloc, &lines[..last], &words)
}

/// The report that a text says.
#[tactic(auto, unfolding(crate::specs::Reading::finding_at))]
fn finding_at(alloc: Global, bytes: &[u8]) -> Result<Finding, Memory>
    ensures { IfOk result (λ f. f ≡ says.finding_at bytes.now) }
{
    let lines = parts_of(alloc, bytes, b'\n')?;
    Ok(report_in(alloc, &lines)?)
}

/// Whether the report has a text, and it is this.
fn has_text(alloc: Global, f: &Finding, bytes: &[u8]) -> Result<bool, Memory>
    ensures { IfOk result (λ b. IsTrue b ↔ (Good f.now × (bytes.now ≡ report_text f.now))) }
{
    if !good_finding(f) {
        return Ok(false);
    }
    let again = text(alloc, f)?;
    Ok(again.as_slice() == bytes)
}

/// The one report that has this text.
#[tactic(auto, using(crate::proofs::ReadLaws::read_again))]
pub fn read_text(alloc: Global, bytes: &[u8]) -> Result<Finding, TextFault>
    // A report that is read has this text, and a report that has it is read, unless memory runs out.
    ensures found { (f : Finding) → result ≡ Ok f → (bytes.now ≡ report_text f) × Good f }
    ensures only { (f : Finding) → Good f → bytes.now ≡ report_text f → (result ≡ Ok f)
        ⊎ (result ≡ Err faults.Memory) }
    ensures none { result ≡ Err faults.NotAReport → (f : Finding) → Good f → bytes.now ≢ report_text f }
{
    let f = finding_at(alloc, bytes)?;
    if has_text(alloc, &f, bytes)? {
        Ok(f)
    } else {
        Err(TextFault::NotAReport)
    }
}

//! The words after the first, read one after the other.
#![tactic(auto, unfolding(crate::specs::Reading::read_word, crate::specs::Reading::read_ids, spy_words::specs::Reading::meaning_at))]

ghost use Rattle.std.specs.Prelude.{◌≡◌, IfOk, None, drop};
ghost use Rattle.spy_words.specs.Classes.{any_number, id, extent, fields, waits, split, access, coherence, layout};
ghost use Rattle.spy_grammar.specs.Reading.{Left, read_word, read_ids, ended, next_word};

use spy_words::{
    Extent, InstKind, LineFault, Nums, Pieces, PrivWord, Set, access_of, at_least_one,
    coherence_text, each_of, either, extent_of, fields_of, keep, layout_of, list_gathered, meet,
    number_of, outcome_of, split_text, waits_of,
};
use std::alloc::{AllocError, Global};
use std::marker::Model;

/// The words that are still to be read, and the fault that was met before them. Each call reads
/// the next word by its class. Where the word has a fault, a stand-in is given, and `end` tells
/// the fault.
#[derive(Drop)]
pub struct RowReader<'a> {
    alloc: Global,
    words: Pieces<'a>,
    met: Option<LineFault>,
}

impl<'a> Model for RowReader<'a> {
    ghost use Rattle.spy_grammar.specs.Reading.{Left};

    ghost Value = { Left };

    ghost view = { λ r. record { words = r.words; met = r.met } };
}

impl<'a> RowReader<'a> {
    /// All words are still to be read.
    pub fn new(alloc: Global, words: Pieces<'a>) -> RowReader<'a>
        ensures { result ≡ record { words = words.entry; met = None } }
    {
        RowReader {
            alloc,
            words,
            met: None,
        }
    }

    /// The next word. Past the last it is the empty word, which has no shape in any class.
    pub fn next(&mut self) -> &'a [u8]
        ensures word { result.now ≡ next_word self.old.words }
        ensures rest { self.new ≡ record self.old { words = drop 1 self.old.words } }
    {
        self.words.next().unwrap_or(b"")
    }

    /// Any number.
    pub fn number(&mut self) -> u32
        ensures { read_word any_number self.old ≡ (result, self.new) }
    {
        let read = number_of(0, self.next());
        keep(&mut self.met, read, 0)
    }

    /// An id, or an event.
    pub fn id(&mut self) -> u32
        ensures { read_word id self.old ≡ (result, self.new) }
    {
        let read = number_of(1, self.next());
        keep(&mut self.met, read, 0)
    }

    /// The points of a space.
    pub fn extent(&mut self) -> Result<Extent, AllocError>
        ensures { IfOk result (λ x. read_word extent self.old ≡ (x, self.new)) }
    {
        let read = extent_of(self.alloc, self.next())?;
        let none = Extent::Runs(Set::from_vec(Vec::new(self.alloc)));
        Ok(keep(&mut self.met, read, none))
    }

    /// Fields.
    pub fn fields(&mut self) -> Result<Nums, AllocError>
        ensures { IfOk result (λ x. read_word fields self.old ≡ (x, self.new)) }
    {
        let read = fields_of(self.alloc, self.next())?;
        Ok(keep(&mut self.met, read, Nums::new()))
    }

    /// Events, or none.
    pub fn waits(&mut self) -> Result<Nums, AllocError>
        ensures { IfOk result (λ x. read_word waits self.old ≡ (x, self.new)) }
    {
        let read = waits_of(self.alloc, self.next())?;
        Ok(keep(&mut self.met, read, Nums::new()))
    }

    /// Whether a partition is disjoint.
    pub fn split(&mut self) -> bool
        ensures { read_word split self.old ≡ (result, self.new) }
    {
        let read = either(self.next(), split_text(true), split_text(false));
        keep(&mut self.met, read, false)
    }

    /// A privilege.
    pub fn access(&mut self) -> PrivWord
        ensures { read_word access self.old ≡ (result, self.new) }
    {
        let read = access_of(self.next());
        keep(&mut self.met, read, PrivWord::Ro)
    }

    /// Whether coherence is atomic.
    pub fn coherence(&mut self) -> bool
        ensures { read_word coherence self.old ≡ (result, self.new) }
    {
        let read = either(self.next(), coherence_text(true), coherence_text(false));
        keep(&mut self.met, read, false)
    }

    /// A kind of instance.
    pub fn layout(&mut self) -> InstKind
        ensures { read_word layout self.old ≡ (result, self.new) }
    {
        let read = layout_of(self.next());
        keep(&mut self.met, read, InstKind::Plain)
    }

    /// All words that are left, as ids, of which there is at least one.
    pub fn ids(&mut self) -> Result<Nums, AllocError>
        ensures { IfOk result (λ x. read_ids self.old ≡ (x, self.new)) }
    {
        let read = at_least_one(each_of(self.alloc, 1, &mut self.words)?);
        let read = list_gathered(self.alloc, read)?;
        Ok(keep(&mut self.met, read, Nums::new()))
    }

    /// What was read, unless a fault was met or words are left.
    pub fn end<T: Drop>(mut self, value: T) -> Result<T, LineFault>
        ensures { result ≡ ended (value, self.entry) }
    {
        if self.words.next().is_some() {
            meet(&mut self.met, LineFault::Form);
        }
        outcome_of(self.met, value)
    }
}

//! The records that are written, as they grow.

ghost use Rattle.std.specs.Prelude.{◌≡◌, ◌+◌, ◌++◌, ◌∷◌, [], ◌||◌, not, All, filter, length, nat_lt, OnOk, IfOk, IfSome, if◌then◌else◌};
ghost use Rattle.vocabulary.specs.Prelude.{IsNumberFrom, Good, spelling, lined, text_of, tables_of};
ghost use Rattle.semantics.specs.Faults.{is_header, is_end};
ghost use Rattle.semantics.specs.Launches.{space_under};
ghost use Rattle.launches.specs.Written.{Tells, is_inner};

use crate::declaring::{declare, space_of_step};
use log_tables::{ByStep, Rows};
use memory::Memory;
use semantics::{MOST_BYTES, MOST_RECORDS, Sub};
use spy_grammar::{Record, write_record};
use std::alloc::Global;
use std::marker::Model;

/// The records that a launch log has written so far, which contracts see as a list. Each has a spelling.
///
/// The subspaces that they declare are looked up, and not gone through. The two counts stay at the greatest `u64` where they would pass it.
#[derive(Drop)]
pub(crate) struct Writing {
    subs: Rows<ByStep, Sub>,
    written: Vec<Record>,
    /// How many are neither header nor end.
    inner: u64,
    /// How many bytes their text has.
    bytes: u64,
}

impl Model for Writing {
    ghost use Rattle.std.specs.Prelude.{List};
    ghost use Rattle.vocabulary.specs.Prelude.{Record};
    ghost use Rattle.launches.specs.Written.{Tells};

    ghost Value = { List Record };

    ghost view = { λ w. w.written.items };

    ghost invariant = { λ w. Tells w.written.items w.subs w.inner w.bytes };
}

/// How many of one record are neither header nor end.
fn inner_of(rec: &Record) -> u64
    ensures { result ≡ (if is_inner rec.now then 1 else 0) }
{
    match rec {
        Record::Header { .. } | Record::End { .. } => 0,
        _ => 1,
    }
}

/// How many bytes the line of a record has, with its line feed.
fn line_length(alloc: Global, rec: &Record) -> Result<usize, Memory>
    requires { Good rec.now }
    ensures { IfOk result (λ n. n ≡ length (spelling rec.now ++ 10 ∷ [])) }
{
    let line = write_record(alloc, rec)?;
    Ok(line.len())
}

impl Writing {
    /// Nothing is written.
    #[tactic(auto, using(crate::proofs::Writings::none_written))]
    pub(crate) fn new(alloc: Global) -> Writing
        ensures { result ≡ [] }
    {
        Writing {
            subs: Rows::new(alloc),
            written: Vec::new(alloc),
            inner: 0,
            bytes: 0,
        }
    }

    /// The records, handed back.
    pub(crate) fn into_records(self) -> Vec<Record>
        ensures same { result.items ≡ self }
        ensures good { All Good result.items }
    {
        self.written
    }

    /// How many records are written.
    pub(crate) fn len(&self) -> usize
        ensures { result ≡ length self.now }
    {
        self.written.len()
    }

    /// Whether there are too many records, without header and end.
    #[tactic(auto, using(crate::proofs::Writings::many_where))]
    pub(crate) fn is_many(&self) -> bool
        ensures { result ≡ nat_lt MOST_RECORDS (length (filter (λ w. not (is_header w || is_end w)) self.now)) }
    {
        self.inner > MOST_RECORDS as u64
    }

    /// Whether the text is too long.
    #[tactic(auto, using(crate::proofs::Writings::long_where))]
    pub(crate) fn is_long(&self) -> bool
        ensures { result ≡ nat_lt MOST_BYTES (length (text_of self.now)) }
    {
        self.bytes > MOST_BYTES
    }

    /// The first space that a partition has under a colour.
    pub(crate) fn space_under(&self, part: u32, colour: u32) -> Option<u32>
        ensures space { result ≡ space_under (tables_of (lined self.now)) part colour }
        ensures id { IfSome result (IsNumberFrom 1) }
    {
        space_of_step(&self.subs, part, colour)
    }

    /// The records.
    pub(crate) fn as_slice(&self) -> &[Record]
        ensures same { result.now ≡ self.now }
        ensures good { All Good result.now }
    {
        &self.written
    }

    /// One record more.
    pub(crate) fn push(&mut self, alloc: Global, rec: Record) -> Result<(), Memory>
        requires { Good rec }
        ensures { OnOk result (self.new ≡ self.old ++ rec ∷ []) }
    {
        let length = line_length(alloc, &rec)? as u64;
        let inner = self.inner.saturating_add(inner_of(&rec));
        self.written.reserve(1)?;
        declare(&mut self.subs, &rec)?;
        self.inner = inner;
        self.bytes = self.bytes.saturating_add(length);
        self.written.push(rec)?;
        Ok(())
    }
}

//! Requirements of tasks.

ghost use Rattle.std.specs.Prelude.{◌≡◌, ◌++◌, ◌∷◌, [], ◌==◌, ◌&&◌, ◌+◌, ◌<◌, ◌≤◌, ◌^◌, length, find, nat_eq, OnOk, OnErr};
ghost use Rattle.std.specs.List.{position_from};
ghost use Rattle.std.specs.Option.{option_copied};
ghost use Rattle.vocabulary.specs.Prelude.{reqs_before};

use crate::entries::{ByNumber, ReqKey};
use crate::rows::Rows;
use indexmap::IndexMap;
use semantics::Req;
use std::alloc::{AllocError, Global};
use std::marker::Model;

/// How many items more than there are requirements it is noted where their first ones stand.
const MOST_BETWEEN: usize = 1 << 16;

/// Requirements, in the order in which they were added.
#[derive(Drop)]
pub struct Reqs {
    rows: Rows<ByNumber, Req>,
    counts: IndexMap<usize, usize>,
    /// Where the first requirement of an item is likely to stand. No answer rests on it.
    firsts: Vec<usize>,
}

impl Model for Reqs {
    ghost use Rattle.std.specs.Prelude.{◌≡◌, List, unwrap_or, nat_eq, ℕ};
    ghost use Rattle.indexmap.specs.IndexMap.{get};
    ghost use Rattle.vocabulary.specs.Prelude.{Req, reqs_before};

    ghost Value = { List Req };

    ghost view = { λ r. r.rows };

    ghost invariant = { λ r. (q : ℕ) → unwrap_or (get nat_eq r.counts q) 0 ≡ reqs_before r.rows q };
}

impl Reqs {
    /// No requirements.
    pub fn new(alloc: Global) -> Reqs
        ensures { result ≡ [] }
    {
        Reqs {
            rows: Rows::new(alloc),
            counts: IndexMap::new(alloc),
            firsts: Vec::new(alloc),
        }
    }

    /// The requirements.
    pub fn as_slice(&self) -> &[Req]
        ensures { result.now ≡ self.now }
    {
        self.rows.as_slice()
    }

    /// How many requirements an item has.
    pub fn count(&self, item: usize) -> usize
        ensures count { result ≡ reqs_before self.now item }
        ensures few { result ≤ length self.now }
    {
        self.counts.get(&item).copied().unwrap_or(0)
    }

    /// Where the requirement of an item with this number is likely to stand.
    fn guess(&self, item: usize, number: u32) -> usize {
        match self.firsts.get(item) {
            Some(first) => first.saturating_add(number as usize).saturating_sub(1),
            None => 0,
        }
    }

    /// Notes where the next requirement will stand, if it is the first of an item that comes after those before it. Where many items between have none, nothing is noted.
    fn note_first(&mut self, item: usize) -> Result<(), AllocError>
        ensures { self.new ≡ self.old }
    {
        let place = self.rows.len();
        if item < self.firsts.len() || item > place.saturating_add(MOST_BETWEEN) {
            return Ok(());
        }
        self.firsts.resize(item.saturating_add(1), place)
    }

    /// The position of the requirement of an item with this number.
    pub fn place(&self, item: usize, number: u32) -> Option<usize>
        ensures { result ≡ position_from (λ r. (r.item == item) && (r.number == number)) 0 self.now }
    {
        let guess = self.guess(item, number);
        self.rows.place_near(ReqKey { item, number }, guess)
    }

    /// The requirement of an item with this number.
    pub fn get(&self, item: usize, number: u32) -> Option<&Req>
        ensures { option_copied result ≡ find (λ r. (r.item == item) && (r.number == number)) self.now }
    {
        let guess = self.guess(item, number);
        self.rows.get_near(ReqKey { item, number }, guess)
    }

    /// One requirement more.
    pub fn push(&mut self, req: Req) -> Result<(), AllocError>
        requires { length self.old < 2 ^ 32 }
        ensures ok { OnOk result (self.new ≡ self.old ++ req ∷ []) }
        ensures err { OnErr result (self.new ≡ self.old) }
    {
        let item = req.item;
        self.note_first(item)?;
        let count = self.count(item) + 1;
        self.counts.reserve(1)?;
        self.rows.push(req)?;
        self.counts.insert(item, count)?;
        Ok(())
    }
}

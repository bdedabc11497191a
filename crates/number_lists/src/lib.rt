//! Lists of numbers, each of which grows at its end.
//!
//! `NumberLists` is seen as a list of lists: `push` adds a number to one of them and changes no other.
#![tactic(auto)]

ghost use Rattle.std.specs.Prelude.{◌≡◌, ◌<◌, ◌++◌, ◌∷◌, [], length, map, slice_index_or, IfOk, OnErr, OnOk, replicate, set};

use std::alloc::{AllocError, Global};
use std::marker::Model;

/// Lists of numbers. How many lists there are does not change.
#[derive(Drop)]
pub struct NumberLists {
    lists: Vec<Vec<usize>>,
}

impl Model for NumberLists {
    ghost use Rattle.std.specs.Prelude.{List, ℕ, map};

    ghost Value = { List (List ℕ) };

    ghost view = { λ l. map (λ list. list.items) l.lists.items };
}

/// So many lists without a number.
fn empty_lists(alloc: Global, count: usize) -> Result<Vec<Vec<usize>>, AllocError>
    ensures { IfOk result (λ v. map (λ list. list.items) v.items ≡ replicate count []) }
{
    let mut lists = Vec::new(alloc);
    for _i in 0..count {
        lists.push(Vec::new(alloc))?;
    }
    Ok(lists)
}

impl NumberLists {
    /// So many lists without a number.
    pub fn empty(alloc: Global, count: usize) -> Result<NumberLists, AllocError>
        ensures { IfOk result (λ lists. lists ≡ replicate count []) }
    {
        Ok(NumberLists {
            lists: empty_lists(alloc, count)?,
        })
    }

    /// How many lists there are.
    pub fn len(&self) -> usize
        ensures { result ≡ length self.now }
    {
        self.lists.len()
    }

    /// The numbers of a list, in the order in which they came.
    pub fn list(&self, k: usize) -> &[usize]
        requires { k < length self.now }
        ensures { result.now ≡ slice_index_or self.now k [] }
    {
        self.lists[k].as_slice()
    }

    /// Adds a number at the end of a list, or leaves the lists as they are where memory runs out.
    pub fn push(&mut self, k: usize, number: usize) -> Result<(), AllocError>
        requires { k < length self.old }
        ensures added { OnOk result (self.new ≡ set self.old k (slice_index_or self.old k [] ++ number ∷ [])) }
        ensures kept { OnErr result (self.new ≡ self.old) }
    {
        self.lists[k].push(number)?;
        Ok(())
    }
}

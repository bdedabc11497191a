//! Lists of numbers. A log has many, and most of them are short.

ghost use Rattle.std.specs.Prelude.{◌≡◌, [], ◌∷◌, length, IfOk, IfSome};

use smallvec::SmallVec;
use std::alloc::{AllocError, Global};
use std::boxed::Box;
use std::marker::Model;

/// Numbers as they are gathered. The first four take no memory.
pub type Gathered = SmallVec<u32, 4>;

/// Up to four numbers, which take no memory, or more.
#[derive(Drop)]
enum Items {
    Few0,
    Few1([u32; 1]),
    Few2([u32; 2]),
    Few3([u32; 3]),
    Few4([u32; 4]),
    Many(Box<Vec<u32>>),
}

/// Numbers of a line: fields, events or items.
#[derive(Drop)]
pub struct Nums {
    items: Items,
}

impl Model for Nums {
    ghost use Rattle.std.specs.Prelude.{List, ℕ};
    ghost use Rattle.spy_words.specs.ShortLists.{numbers_in};

    ghost Value = { List ℕ };

    ghost view = { λ l. numbers_in l.items };
}

/// These numbers, if they are few.
#[tactic(auto, unfolding(crate::specs::ShortLists::numbers_in))]
fn few(numbers: &[u32]) -> Option<Nums>
    ensures { IfSome result (λ list. list ≡ numbers.now) }
{
    let items = match numbers {
        [] => Items::Few0,
        [a] => Items::Few1([*a]),
        [a, b] => Items::Few2([*a, *b]),
        [a, b, c] => Items::Few3([*a, *b, *c]),
        [a, b, c, d] => Items::Few4([*a, *b, *c, *d]),
        _ => return None,
    };
    Some(Nums { items })
}

#[tactic(auto, unfolding(crate::specs::ShortLists::numbers_in))]
impl Nums {
    /// No numbers.
    pub fn new() -> Nums
        ensures { result ≡ [] }
    {
        Nums { items: Items::Few0 }
    }

    /// One number.
    pub fn one(number: u32) -> Nums
        ensures { result ≡ number ∷ [] }
    {
        Nums {
            items: Items::Few1([number]),
        }
    }

    /// The list of these numbers.
    pub fn from_slice(alloc: Global, numbers: &[u32]) -> Result<Nums, AllocError>
        ensures { IfOk result (λ list. list ≡ numbers.now) }
    {
        if let Some(list) = few(numbers) {
            return Ok(list);
        }
        let many = Box::new(alloc, Vec::from_slice(alloc, numbers)?)?;
        Ok(Nums {
            items: Items::Many(many),
        })
    }

    /// The list of the numbers that were gathered.
    pub fn from_gathered(alloc: Global, numbers: Gathered) -> Result<Nums, AllocError>
        ensures { IfOk result (λ list. list ≡ numbers.items) }
    {
        if let Some(list) = few(numbers.as_slice()) {
            return Ok(list);
        }
        let many = Box::new(alloc, numbers.into_vec()?)?;
        Ok(Nums {
            items: Items::Many(many),
        })
    }

    /// How many numbers there are.
    pub fn len(&self) -> usize
        ensures { result ≡ length self.now }
    {
        self.as_slice().len()
    }

    /// The numbers in order.
    pub fn as_slice(&self) -> &[u32]
        ensures { result.now ≡ self.now }
    {
        match &self.items {
            Items::Few0 => &[],
            Items::Few1(numbers) => numbers.as_slice(),
            Items::Few2(numbers) => numbers.as_slice(),
            Items::Few3(numbers) => numbers.as_slice(),
            Items::Few4(numbers) => numbers.as_slice(),
            Items::Many(numbers) => numbers.as_slice(),
        }
    }
}

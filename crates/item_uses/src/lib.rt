//! What the items of a log ask for, and how two of them interfere.
//!
//! An item's requirements, with their fields in an arena, make its uses (`uses_of_items`), and
//! `ItemUses::interference` gives the kind and the least place of two items, exactly as `Kinds` of
//! `semantics` defines them. Bounds on blocks of 64 items, and a representative for all items that ask for
//! the same, let callers pass over what cannot interfere. Begin with `item.rt` and `between.rt`.
#![tactic(auto)]

mod accesses;
mod alike;
mod between;
mod blocks;
mod fields;
mod gathering;
mod item;
mod span;
mod usage;

pub use accesses::Accesses;
pub use alike::representatives;
pub use between::Interference;
pub use blocks::spans_of_blocks;
pub use gathering::{is_task_at, uses_of_items};
pub use item::ItemUses;
pub use span::Span;
pub use usage::Use;

//! Lists that a report holds.

use crate::finding::{Dep, WhyLink};
use spy_words::ListOf;

/// Events, in the order of a cycle.
pub type EventList = ListOf<u32>;

/// Pairs of items that interfere.
pub type DepList = ListOf<Dep>;

/// Waits, each by the event of its node and the one that is waited for.
pub type PairList = ListOf<(u32, u32)>;

/// Links, from the read back.
pub type WhyList = ListOf<WhyLink>;

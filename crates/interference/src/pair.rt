//! A pair of items that interfere.

use privilege::Kind;
use semantics::Place;

/// Two items that interfere, by their positions, the earlier first: their kind, and the least place at which they do.
#[derive(Clone, Copy, PartialEq, Eq)]
pub struct Pair {
    pub a: usize,
    pub b: usize,
    pub kind: Kind,
    pub place: Place,
}

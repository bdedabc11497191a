//! Listed waits.

/// A listed wait: the position of a node, and a place in its list of waits, from 0.
#[derive(Clone, Copy, PartialEq, Eq)]
pub struct ListedWait {
    pub node: usize,
    pub k: usize,
}

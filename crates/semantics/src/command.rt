//! What is asked of a log.

use crate::Ask;

/// What is asked of a log.
#[derive(Clone, Copy, PartialEq, Eq)]
pub enum Command {
    /// Whether the run computed what the sequential program computes.
    Check,
    /// Whether every two tasks that interfere are run in serial order.
    Ordered,
    /// The pairs of items that interfere.
    Deps,
    /// The listed waits that others imply.
    Spare,
    /// Where what a task read came from. Only `Check` and this ask that each field of a requirement is mapped.
    Why(Ask),
}

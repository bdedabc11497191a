//! A use of a place.

use privilege::{Coherence, Priv};

/// How an item uses a place, and its place in serial order.
#[derive(Clone, Copy)]
pub struct SerialUse {
    pub position: usize,
    pub access: Priv,
    pub coherence: Coherence,
}

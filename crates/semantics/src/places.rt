//! Where data is: in a region, and in an instance.

/// A point and a field of a region tree.
#[derive(Clone, Copy, PartialEq, Eq, Hash)]
pub struct Place {
    pub tree: u32,
    pub point: u64,
    pub field: u32,
}

/// A point and a field of an instance.
#[derive(Clone, Copy, PartialEq, Eq, Hash)]
pub struct Cell {
    pub inst: u32,
    pub point: u64,
    pub field: u32,
}

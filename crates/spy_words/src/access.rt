//! What a task may do with a region, and what an instance holds.

/// What a task may do with a region.
#[derive(Clone, Copy, PartialEq, Eq)]
pub enum PrivWord {
    /// Read.
    Ro,
    /// Read and write.
    Rw,
    /// Write, and see nothing of the old contents.
    Wd,
    /// Reduce with this operator.
    Red(u32),
}

/// What an instance holds.
#[derive(Clone, Copy, PartialEq, Eq)]
pub enum InstKind {
    /// Values that are unknown at the start.
    Plain,
    /// The values that the region has at the start.
    Home,
    /// Reductions with this operator.
    Red(u32),
}

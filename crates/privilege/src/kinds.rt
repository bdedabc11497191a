//! Privileges, coherence, and kinds of interference.

/// What a task may do with a region.
#[derive(Clone, Copy, PartialEq, Eq)]
pub enum Priv {
    /// Read.
    Ro,
    /// Read and write.
    Rw,
    /// Write, and see nothing of the old contents.
    Wd,
    /// Reduce with this operator.
    Red(u32),
}

/// How a task shares what it uses with other tasks.
#[derive(Clone, Copy, PartialEq, Eq)]
pub enum Coherence {
    /// Those that interfere with it keep the serial order.
    Exclusive,
    /// It takes turns with others that are atomic too, in either order.
    Atomic,
}

/// How two accesses to one place interfere. The order of the variants is that of strength, the weakest first.
#[derive(Clone, Copy, PartialEq, Eq)]
pub enum Kind {
    /// They do not: they may overlap.
    Free,
    /// They take turns, in either order.
    Turn,
    /// The one that is earlier in the serial order comes before the other.
    Before,
}

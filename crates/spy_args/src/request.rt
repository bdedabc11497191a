//! What can be asked for.

use semantics::Command;

/// What is asked for.
#[derive(Clone, Copy, PartialEq, Eq)]
pub enum Request {
    /// What a command finds in a log.
    Judge(Command),
    /// The records, each on a line of its own.
    Print,
    /// The log that a launch log stands for.
    Expand,
    /// The check of the log that a launch log stands for.
    Launched,
    /// Whether each child in a nested log asks for no more than its group licenses, and which groups are free of each other.
    Nested,
    /// The check of a stencil log of so many pieces, from 1 to 500.
    Demo { size: u32 },
}

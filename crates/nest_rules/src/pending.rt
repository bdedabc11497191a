//! A record of a nested log that is to be judged.

use spy_grammar::NRecord;

/// A record of a nested log that is not plain, and its line.
#[derive(Drop)]
pub struct Pending {
    pub line: u32,
    pub rec: NRecord,
    /// Whether an earlier record declares each tree, space and task that it names.
    pub known: bool,
}

//! The limits on a log.

/// How many bytes an input has at most.
pub const MOST_BYTES: u64 = 67_108_864;

/// How many records a log has at most between its header and its end.
pub const MOST_RECORDS: usize = 131_072;

/// How many points the spaces of a log have together, at most.
pub const MOST_POINTS: u128 = 1_048_576;

/// How many cells the grid of a log's rectangles has at most.
pub const MOST_ATOMS: u128 = 1_048_576;

/// How many steps a space lies at most below the topmost space above it.
pub const DEEPEST: usize = 64;

/// How many cells the instances of a log have together, at most.
pub const MOST_CELLS: u128 = 1_048_576;

/// How many accesses the records of a log ask for together, at most.
pub const MOST_ACCESSES: u128 = 4_194_304;

/// How much load the instances of a log have together, at most.
pub const MOST_LOAD: u128 = 67_108_864;

/// How many reads the tasks of a log have together, at most.
pub const MOST_READS: u128 = 18_446_744_073_709_551_615;

/// How many colours a launch has at most.
pub const MOST_COLOURS: usize = 4_096;

/// How many groups a nested log has at most.
pub const MOST_GROUPS: usize = 1_024;

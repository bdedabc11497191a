//! What is wrong with a log.

use spy_grammar::Code;

/// A broken rule, by its code, and the line that is shown with it.
#[derive(Clone, Copy, PartialEq, Eq)]
pub struct Fault {
    pub line: u32,
    pub code: Code,
}

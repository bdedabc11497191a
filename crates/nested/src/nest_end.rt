//! Why a nested log is refused.

ghost use Rattle.std.specs.Prelude.{◌≡◌};
ghost use Rattle.nested.specs.declared.nest_end.NestEnd.TheVariants.{Memory};

use semantics::Unlicensed;
use spy_grammar::Code;
use std::alloc::AllocError;

/// Why a nested log is refused.
#[derive(Clone, Copy, PartialEq, Eq)]
pub enum NestEnd {
    /// The rule with this code is broken, and this line is shown with it.
    Fault { line: u32, code: Code },
    /// A child asks for more than its group licenses.
    Unlicensed(Unlicensed),
    /// Memory ran out.
    Memory,
}

impl From<AllocError> for NestEnd {
    ghost from_gives = { λ _ e. e ≡ Memory };

    fn from(_: AllocError) -> NestEnd {
        NestEnd::Memory
    }
}

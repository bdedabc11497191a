//! Why a launch log is not written out.

ghost use Rattle.std.specs.Prelude.{◌≡◌};
ghost use Rattle.launches.specs.declared.expand_end.ExpandEnd.TheVariants.{Memory};

use memory::Memory as NoMemory;
use spy_grammar::Code;

/// Why a launch log is not written out.
#[derive(Clone, Copy, PartialEq, Eq)]
pub enum ExpandEnd {
    /// The rule with this code is broken, and this line is shown with it.
    Fault { line: u32, code: Code },
    /// Memory ran out.
    Memory,
}

impl From<NoMemory> for ExpandEnd {
    ghost from_gives = { λ _ e. e ≡ Memory };

    fn from(_: NoMemory) -> ExpandEnd {
        ExpandEnd::Memory
    }
}

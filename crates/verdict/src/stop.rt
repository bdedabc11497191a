//! Why judging ends before the last stage.

use findings::Finding;
use memory::Memory;

/// Why judging ends before the last stage.
#[derive(Drop)]
pub enum Stop {
    /// This is found.
    Found(Finding),
    /// Memory ran out.
    Memory,
}

impl From<Memory> for Stop {
    ghost use Rattle.std.specs.Prelude.{◌≡◌};
    ghost use Rattle.verdict.specs.declared.stop.Stop.TheVariants.{Memory};

    ghost from_gives = { λ _ e. e ≡ Memory };

    fn from(_: Memory) -> Stop {
        Stop::Memory
    }
}

//! Why records have no tables.

ghost use Rattle.std.specs.Prelude.{◌≡◌};
ghost use Rattle.log_decl.specs.declared.decl_end.DeclEnd.TheVariants.{Memory};

use region_tree::Memory as ForestMemory;
use spy_grammar::Code;
use std::alloc::AllocError;

/// Why records have no tables.
#[derive(Clone, Copy, PartialEq, Eq)]
pub enum DeclEnd {
    /// The rule with this code is broken, and this line is shown with it.
    Fault { line: u32, code: Code },
    /// Memory ran out.
    Memory,
}

impl From<AllocError> for DeclEnd {
    ghost from_gives = { λ _ e. e ≡ Memory };

    fn from(_e: AllocError) -> DeclEnd {
        DeclEnd::Memory
    }
}

impl From<ForestMemory> for DeclEnd {
    ghost from_gives = { λ _ e. e ≡ Memory };

    fn from(_e: ForestMemory) -> DeclEnd {
        DeclEnd::Memory
    }
}

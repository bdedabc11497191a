//! What a task of a launch claims.

ghost use Rattle.std.specs.Prelude.{◌≡◌};
ghost use Rattle.launch_claims.specs.Claims.{share_field};

use privilege::Priv;

/// A run of points of a field of a tree that a task of a launch uses by a requirement.
#[derive(Clone, Copy)]
pub struct Claim {
    pub tree: u32,
    pub field: u32,
    /// The first and the last point.
    pub first: u64,
    pub last: u64,
    /// The task that uses them, and how.
    pub task: u32,
    pub access: Priv,
    /// The number of the record that asks for it.
    pub record: u32,
}

/// Whether two claims are of one field of one tree.
pub(crate) fn share_field(one: &Claim, other: &Claim) -> bool
    ensures { result ≡ share_field one.now other.now }
{
    one.tree == other.tree && one.field == other.field
}

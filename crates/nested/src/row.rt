//! What one group may do.

ghost use Rattle.std.specs.Prelude.{◌≡◌, ◌++◌, ◌∷◌, [], OnOk};

use licences::Claim;
use point_set::PointSet;
use std::alloc::{AllocError, Global};
use std::marker::Model;

/// The privileges of a group, in the order of their numbers.
#[derive(Drop)]
pub(crate) struct Row<'a, P: PointSet + Copy> {
    claims: Vec<Claim<'a, P>>,
}

impl<'a, P: PointSet + Copy> Model for Row<'a, P> {
    ghost use Rattle.std.specs.Prelude.{List};
    ghost use Rattle.licences.specs.Claims.{Claimed};

    ghost Value = { List Claimed };

    ghost view = { λ r. r.claims.items };
}

impl<'a, P: PointSet + Copy> Row<'a, P> {
    /// No privilege.
    pub(crate) fn new(alloc: Global) -> Row<'a, P>
        ensures { result ≡ [] }
    {
        Row {
            claims: Vec::new(alloc),
        }
    }

    /// The privileges.
    pub(crate) fn as_slice(&self) -> &[Claim<'a, P>]
        ensures { result.now ≡ self.now }
    {
        &self.claims
    }

    /// One privilege more.
    pub(crate) fn push(&mut self, claim: Claim<'a, P>) -> Result<(), AllocError>
        ensures { OnOk result (self.new ≡ self.old ++ claim.entry ∷ []) }
    {
        self.claims.push(claim)?;
        Ok(())
    }
}

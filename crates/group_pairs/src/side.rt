//! A group as a side of a pair.

ghost use Rattle.std.specs.Prelude.{◌≡◌, ◌||◌};
ghost use Rattle.vocabulary.specs.Prelude.{is_in};

use licences::Claim;
use point_set::PointSet;
use std::marker::Model;

/// A group: its id, those of its ancestors, and what it may do.
#[derive(Drop)]
pub struct Side<'r, 'a, P: PointSet + Copy> {
    id: u32,
    above: Vec<u32>,
    claims: &'r [Claim<'a, P>],
}

impl<'r, 'a, P: PointSet + Copy> Model for Side<'r, 'a, P> {
    ghost use Rattle.group_pairs.specs.Sides.{Sided};

    ghost Value = { Sided };

    ghost view = { λ s. record { id = s.id; above = s.above.items; claims = s.claims.now } };
}

/// Whether a number is in a list.
fn is_in(numbers: &[u32], number: u32) -> bool
    ensures { result ≡ is_in numbers.now number }
{
    numbers.iter().any(|one| *one == number)
}

impl<'r, 'a, P: PointSet + Copy> Side<'r, 'a, P> {
    /// The group with this id, these ancestors and these claims.
    pub fn new(id: u32, above: Vec<u32>, claims: &'r [Claim<'a, P>]) -> Side<'r, 'a, P>
        ensures { result ≡ record { id = id; above = above.items; claims = claims.now } }
    {
        Side { id, above, claims }
    }

    /// What it may do.
    pub(crate) fn claims(&self) -> &'r [Claim<'a, P>]
        ensures { result.now ≡ self.now.claims }
    {
        self.claims
    }

    /// Whether it is an ancestor of another, or the other one of it.
    pub(crate) fn is_in_line_with(&self, other: &Side<'_, '_, P>) -> bool
        ensures { result ≡ (is_in other.now.above self.now.id || is_in self.now.above other.now.id) }
    {
        is_in(&other.above, self.id) || is_in(&self.above, other.id)
    }
}

//! Pairs of one item with items in a row.

ghost use Rattle.std.specs.Prelude.{◌≡◌};
ghost use Rattle.interference.specs.Stretched.{pair_in};

use crate::pair::Pair;
use privilege::Kind;
use semantics::Place;

/// An item with each of the items from one to before another, which all interfere with it in one way: the kind and the least place of each pair.
#[derive(Clone, Copy, PartialEq, Eq)]
pub struct Stretch {
    pub a: usize,
    pub from: usize,
    pub to: usize,
    pub kind: Kind,
    pub place: Place,
}

impl Stretch {
    /// Its pair with one of the items.
    pub fn pair(&self, b: usize) -> Pair
        ensures { result ≡ pair_in self.now b }
    {
        Pair {
            a: self.a,
            b,
            kind: self.kind,
            place: self.place,
        }
    }
}

//! What pairs are looked for among.

ghost use Rattle.std.specs.Prelude.{◌≡◌, length, IfSome};
ghost use Rattle.item_uses.specs.Usages.{usages};
ghost use Rattle.interference.specs.Searching.{IsSearch};

use item_uses::{ItemUses, Span};
use logs::AskedLog;
use point_set::PointSet;

/// The items of which pairs are looked for, with their blocks, and for each item one that asks for the same; and which pairs are asked for: all, or those of which the second item comes before the first by these places.
#[derive(Drop)]
pub(crate) struct Search<'l, 'a, P: PointSet + Copy> {
    pub(crate) asked: Option<&'l [usize]>,
    pub(crate) items: &'l [ItemUses<'a, P>],
    pub(crate) blocks: &'l [Span],
    pub(crate) representatives: &'l [usize],
}

impl<'l, 'a, P: PointSet + Copy> Search<'l, 'a, P> {
    /// The search among the items of a log.
    pub(crate) fn of(log: &AskedLog<'l, 'a, P>, asked: Option<&'l [usize]>) -> Search<'l, 'a, P>
        requires { IfSome asked (λ places. length places.now ≡ length log.now.items) }
        ensures search { IsSearch result }
        ensures items { result.items.now ≡ usages log.now }
        ensures asked { result.asked ≡ asked.entry }
    {
        let items = log.uses();
        let spans = log.blocks();
        let chosen = log.representatives();
        Search {
            asked,
            items,
            blocks: spans,
            representatives: chosen,
        }
    }
}

//! What is remembered of the items that were looked at last.

ghost use Rattle.std.specs.Prelude.{List, ◌≤◌, length, IfSome};
ghost use Rattle.item_uses.specs.Usages.{Usage};
ghost use Rattle.interference.specs.Remembering.{IsHow, AreRight};

use item_uses::Interference;
use privilege::Kind;

/// How two items interfere.
#[derive(Clone, Copy)]
pub(crate) struct Remembered {
    ours: usize,
    theirs: usize,
    found: Interference,
}

/// The answers found last. Each has its place by its second item, and the next that belongs there takes it.
#[derive(Clone, Copy)]
pub(crate) struct Recent {
    answers: [Remembered; 16],
}

impl Recent {
    /// The memory of nothing, but that an item past the last, which asks for nothing, does not interfere with itself.
    pub(crate) fn new(past: usize) -> Recent
        ensures { (us : List (List Usage)) → length us ≤ past → AreRight us result.answers }
    {
        let nothing = Remembered {
            ours: past,
            theirs: past,
            found: Interference {
                kind: Kind::Free,
                place: None,
            },
        };
        Recent {
            answers: [nothing; 16],
        }
    }

    /// How two items interfere, if that is remembered.
    #[inline]
    pub(crate) fn recall(&self, ours: usize, theirs: usize) -> Option<Interference>
        ensures { (us : List (List Usage)) → AreRight us self.now.answers
            → IfSome result (IsHow us ours theirs) }
    {
        let answer = &self.answers[theirs % 16];
        if answer.ours == ours && answer.theirs == theirs {
            Some(answer.found)
        } else {
            None
        }
    }

    /// Remembers how two items interfere.
    pub(crate) fn note(&mut self, ours: usize, theirs: usize, found: Interference)
        ensures { (us : List (List Usage)) → AreRight us self.old.answers → IsHow us ours theirs found
            → AreRight us self.new.answers }
    {
        self.answers[theirs % 16] = Remembered {
            ours,
            theirs,
            found,
        };
    }
}

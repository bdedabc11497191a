//! Paths of spaces.

ghost use Rattle.std.specs.Prelude.{◌≡◌};

use log_tables::Step;
use smallvec::SmallVec;
use std::marker::Model;

/// The way to a space, which contracts see as its topmost space and the steps down. Eight steps take no memory.
#[derive(Drop)]
pub struct Path {
    top: u32,
    steps: SmallVec<Step, 8>,
}

impl Model for Path {
    ghost use Rattle.region_tree.specs.Paths.{Way};

    ghost Value = { Way };

    ghost view = { λ p. record { top = p.top; steps = p.steps.items } };
}

impl Path {
    /// The path of these steps.
    pub(crate) fn new(top: u32, steps: SmallVec<Step, 8>) -> Path
        ensures { result ≡ record { top = top; steps = steps.items } }
    {
        Path { top, steps }
    }

    /// The id of the topmost space.
    pub fn top(&self) -> u32
        ensures { result ≡ self.now.top }
    {
        self.top
    }

    /// The steps down.
    pub fn steps(&self) -> &[Step]
        ensures { result.now ≡ self.now.steps }
    {
        self.steps.as_slice()
    }
}

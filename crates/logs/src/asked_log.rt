//! A log with what its items ask for.

ghost use Rattle.std.specs.Prelude.{◌≡◌};
ghost use Rattle.item_uses.specs.Blocks.{AreBlocks};
ghost use Rattle.item_uses.specs.Representatives.{AreRepresentatives};
ghost use Rattle.item_uses.specs.Usages.{usages};

use crate::log::Log;
use crate::log_uses::LogUses;
use item_uses::{ItemUses, Span};
use point_set::PointSet;
use std::marker::Model;

/// A log, and what its items ask for. Contracts see the tables of the log.
#[derive(Drop)]
pub struct AskedLog<'l, 'a, P: PointSet + Copy> {
    log: &'l Log<'a, P>,
    uses: &'l LogUses<'a, P>,
}

impl<'l, 'a, P: PointSet + Copy> Model for AskedLog<'l, 'a, P> {
    ghost use Rattle.std.specs.Prelude.{◌≡◌};
    ghost use Rattle.vocabulary.specs.Prelude.{Tables};
    ghost use Rattle.item_uses.specs.Usages.{usages};

    ghost Value = { Tables };

    ghost view = { λ a. a.log.now };

    ghost invariant = { λ a. a.uses.now ≡ usages a.log.now };
}

impl<'l, 'a, P: PointSet + Copy> AskedLog<'l, 'a, P> {
    /// The log, whose items ask for this.
    pub(crate) fn of(log: &'l Log<'a, P>, uses: &'l LogUses<'a, P>) -> AskedLog<'l, 'a, P>
        requires { uses.now ≡ usages log.now }
        ensures { result ≡ log.now }
    {
        AskedLog { log, uses }
    }

    /// The log alone.
    pub fn plain(&self) -> &'l Log<'a, P>
        ensures { result.now ≡ self.now }
    {
        self.log
    }

    /// What each item asks for, in program order.
    pub fn uses(&self) -> &'l [ItemUses<'a, P>]
        ensures { result.now ≡ usages self.now }
    {
        self.uses.items()
    }

    /// Bounds on what each 64 items ask for.
    pub fn blocks(&self) -> &'l [Span]
        ensures { AreBlocks result.now (usages self.now) }
    {
        self.uses.blocks()
    }

    /// For each item one that asks for the same.
    pub fn representatives(&self) -> &'l [usize]
        ensures { AreRepresentatives result.now (usages self.now) }
    {
        self.uses.representatives()
    }
}

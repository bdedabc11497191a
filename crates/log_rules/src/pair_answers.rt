//! Answers about pairs of spaces, remembered.

ghost use Rattle.std.specs.Prelude.{◌≡◌, ℕ, Bool, List, IfSome, OnOk};
ghost use Rattle.vocabulary.specs.Prelude.{Tables, points_in};
ghost use Rattle.log_rules.specs.Pairs.{AreAnswers};

use log_tables::LogTables;
use point_set::PointSet;
use std::alloc::{AllocError, Global};
use std::collections::HashMap;

/// Two spaces that are held against each other.
#[derive(Clone, Copy, PartialEq, Eq, Hash)]
pub(crate) struct SpacePair {
    pub ours: u32,
    pub theirs: u32,
}

/// Whether something holds of pairs of spaces, of some pairs. What it is, the contracts are told: they hold of each test of two sets of points.
#[derive(Drop)]
pub(crate) struct PairAnswers {
    answers: HashMap<SpacePair, bool>,
}

impl PairAnswers {
    /// No pair has an answer.
    pub(crate) fn new(alloc: Global) -> PairAnswers
        ensures { (test : List ℕ → List ℕ → Bool) (t : Tables) → AreAnswers test t result }
    {
        PairAnswers {
            answers: HashMap::new(alloc),
        }
    }

    /// The answer of a pair, if it has one. Where no pair has one, as in each log of the first version, nothing is looked up.
    pub(crate) fn get(&self, ours: u32, theirs: u32) -> Option<bool>
        ensures { IfSome result (λ answer. (test : List ℕ → List ℕ → Bool) (t : Tables)
            → AreAnswers test t self.now → answer ≡ test (points_in t ours) (points_in t theirs)) }
    {
        if self.answers.is_empty() {
            return None;
        }
        match self.answers.get(&SpacePair { ours, theirs }) {
            Some(answer) => Some(*answer),
            None => None,
        }
    }

    /// Notes the answer of a pair, if both spaces are declared.
    pub(crate) fn note<P: PointSet>(
        &mut self,
        tables: &LogTables<P>,
        ours: u32,
        theirs: u32,
        answer: bool,
    ) -> Result<(), AllocError>
        ensures { OnOk result ((test : List ℕ → List ℕ → Bool)
            → answer ≡ test (points_in tables.now ours) (points_in tables.now theirs)
            → AreAnswers test tables.now self.old → AreAnswers test tables.now self.new) }
    {
        if !tables.has_space(ours) {
            return Ok(());
        }
        if !tables.has_space(theirs) {
            return Ok(());
        }
        self.answers.insert(SpacePair { ours, theirs }, answer)?;
        Ok(())
    }
}

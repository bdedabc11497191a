//! Whether a recorded run computed what the sequential program computes.

ghost use Rattle.std.specs.Prelude.{◌≡◌, true, All, IfOk, IfErr, IfSome, OnOk};
ghost use Rattle.vocabulary.specs.Prelude.{AreLines, Good, tables_of};
ghost use Rattle.findings.specs.Texts as texts;
ghost use Rattle.semantics.specs.declared.command.Command.TheVariants.{Check};
ghost use Rattle.outcomes.specs.Outcome.{CheckFinds};
ghost use Rattle.log_findings.specs.Findings.{IsFoundOf};
ghost use Rattle.verdict.specs.Narrow.{IsNarrow, Passes};
ghost use Rattle.verdict.specs.Stages.{FindsUnclean, IsStop};

use crate::clean::Clean;
use crate::declared::Declared;
use crate::judged::Judged;
use crate::narrow::{Source, narrowed};
use crate::stop::Stop;
use findings::Finding;
use logs::Log;
use memory::Memory;
use region_tree::{ArenaRects, ArenaSet};
use std::alloc::Global;

/// A log without a cycle and a race, or the first of them.
#[tactic(auto, using(crate::proofs::Stages::stop_of_cycle))]
pub(crate) fn cleaned<'a, P: ArenaSet<'a>>(
    alloc: Global,
    declared: Declared<'a, P>,
) -> Result<Clean<'a, P>, Stop>
    ensures clean { IfOk result (λ c. c ≡ declared.entry) }
    ensures stop { IfErr result (IsStop (FindsUnclean declared.entry)) }
{
    match declared.sort(alloc) {
        Ok(sorted) => sorted.scan(alloc),
        Err(stop) => Err(stop),
    }
}

/// A log that passes all stages after its rules, or what stops it.
#[tactic(auto, using(crate::proofs::Stages::stop_of_unclean))]
fn passed<'a, P: ArenaSet<'a>>(
    alloc: Global,
    declared: Declared<'a, P>,
) -> Result<Judged<'a, P>, Stop>
    ensures judged { IfOk result (λ j. j ≡ declared.entry) }
    ensures passes { OnOk result (Passes declared.entry) }
    ensures stop { IfErr result (IsStop (CheckFinds declared.entry)) }
{
    match cleaned(alloc, declared) {
        Ok(clean) => clean.replay(alloc),
        Err(stop) => Err(stop),
    }
}

/// Whether a log keeps the rules on its tables and passes all stages after them, so far as memory lasts.
fn passes<'a, P: ArenaSet<'a>>(alloc: Global, log: Log<'a, P>) -> bool
    ensures { result ≡ true → Passes log.entry }
{
    let Ok(declared) = Declared::of(alloc, log) else {
        return false;
    };
    match passed(alloc, declared) {
        Ok(judged) => {
            judged.let_go();
            true
        }
        Err(_) => false,
    }
}

/// A log that passes all stages after its rules, or what stops it. It is gone over itself only where a narrow one does not pass.
fn judged<'a, P: ArenaSet<'a>>(
    alloc: Global,
    declared: Declared<'a, P>,
    narrow: Option<Log<'a, P>>,
) -> Result<Judged<'a, P>, Stop>
    requires { IfSome narrow (IsNarrow declared) }
    ensures judged { IfOk result (λ j. j ≡ declared.entry) }
    ensures stop { IfErr result (IsStop (CheckFinds declared.entry)) }
{
    if let Some(narrow) = narrow {
        if passes(alloc, narrow) {
            return Ok(declared.into_judged());
        }
    }
    passed(alloc, declared)
}

/// What `check` finds in a log that keeps its rules.
fn run_found<'a, P: ArenaSet<'a>>(
    alloc: Global,
    declared: Declared<'a, P>,
    narrow: Option<Log<'a, P>>,
) -> Result<Finding, Memory>
    requires { IfSome narrow (IsNarrow declared) }
    ensures found { IfOk result (CheckFinds declared.entry) }
    ensures text { IfOk result texts.Good }
{
    match judged(alloc, declared, narrow) {
        Ok(judged) => {
            let finding = judged.finding();
            judged.let_go();
            Ok(finding)
        }
        Err(Stop::Found(finding)) => Ok(finding),
        Err(Stop::Memory) => Err(Memory),
    }
}

/// What `check` finds in a log that was made of these records.
#[tactic(auto, using(crate::proofs::Stages::of_fault))]
pub(crate) fn check_in<'a, P: ArenaRects<'a>>(
    alloc: Global,
    log: Log<'a, P>,
    source: &Source<'a, '_>,
) -> Result<Finding, Memory>
    requires good { All (λ l. Good l.rec) source.now.records.now.items }
    requires lines { AreLines source.now.lines source.now.records.now.items }
    requires tables { log ≡ tables_of source.now.records.now.items }
    ensures found { IfOk result (IsFoundOf Check log.entry) }
    ensures text { IfOk result texts.Good }
{
    match Declared::of(alloc, log) {
        Ok(declared) => run_found(alloc, declared, narrowed(alloc, source)),
        Err(Stop::Found(finding)) => Ok(finding),
        Err(Stop::Memory) => Err(Memory),
    }
}

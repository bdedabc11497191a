//! Where a value came from that a task read.

ghost use Rattle.std.specs.Prelude.{IfOk};
ghost use Rattle.findings.specs.Texts as texts;
ghost use Rattle.semantics.specs.declared.command.Command.TheVariants.{Why};
ghost use Rattle.outcomes.specs.Outcome.{WhyFinds};
ghost use Rattle.log_findings.specs.Findings.{IsFoundOf};

use crate::checking::cleaned;
use crate::declared::Declared;
use crate::stop::Stop;
use findings::Finding;
use logs::Log;
use memory::Memory;
use region_tree::ArenaSet;
use semantics::Ask;
use std::alloc::Global;

/// What `why` finds in a log that keeps its rules.
#[tactic(auto, using(crate::proofs::Stages::why_stop))]
fn read_found<'a, P: ArenaSet<'a>>(
    alloc: Global,
    declared: Declared<'a, P>,
    ask: &Ask,
) -> Result<Finding, Memory>
    ensures found { IfOk result (WhyFinds declared.entry ask.now) }
    ensures text { IfOk result texts.Good }
{
    match cleaned(alloc, declared) {
        Ok(clean) => {
            let found = clean.read_finding(alloc, ask);
            clean.let_go();
            found
        }
        Err(Stop::Found(finding)) => Ok(finding),
        Err(Stop::Memory) => Err(Memory),
    }
}

/// What `why` finds in a log.
#[tactic(auto, using(crate::proofs::Stages::why_of_fault))]
pub(crate) fn why_in<'a, P: ArenaSet<'a>>(
    alloc: Global,
    log: Log<'a, P>,
    ask: &Ask,
) -> Result<Finding, Memory>
    ensures found { IfOk result (IsFoundOf (Why ask.now) log.entry) }
    ensures text { IfOk result texts.Good }
{
    match Declared::of(alloc, log) {
        Ok(declared) => read_found(alloc, declared, ask),
        Err(Stop::Found(finding)) => Ok(finding),
        Err(Stop::Memory) => Err(Memory),
    }
}

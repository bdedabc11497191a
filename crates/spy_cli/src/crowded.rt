//! What is found in an input whose log is crowded: its fault, whatever the command.

ghost use Rattle.std.specs.Prelude.{ℕ, List, IfOk};
ghost use Rattle.semantics.specs.declared.command.Command.{Command};
ghost use Rattle.findings.specs.declared.finding.Finding.TheVariants as findings;
ghost use Rattle.outcomes.specs.Outcome.{IsOutcome};
ghost use Rattle.log_input.specs.Inputs.{SpellsCrowded};

use log_decl::crowded_fault;
use log_input::CrowdedInput;
use memory::Memory;
use semantics::Fault;
use std::alloc::Global;

/// The fault of an input whose log is crowded.
pub(crate) fn input_fault(alloc: Global, input: &CrowdedInput) -> Result<Fault, Memory>
    requires { (bytes : List ℕ) × SpellsCrowded bytes input.now }
    ensures { IfOk result (λ fault. (bytes : List ℕ) → SpellsCrowded bytes input.now
        → (command : Command) → IsOutcome command bytes (findings.Fault fault.line fault.code)) }
{
    crowded_fault(alloc, &input.kept, input.frame, input.lines)
}

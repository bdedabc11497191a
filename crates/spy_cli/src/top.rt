//! The top call.

ghost use Rattle.std.specs.Prelude.{◌≡◌, ◌≢◌, ◌⊎◌, ◌+◌, ◌≤◌, ℕ, List, true, false, Some, None, map, string_bytes};
ghost use Rattle.std.specs.Io.KnownBytes.{Appends};
ghost use Rattle.spy_io.specs.Causes.{Rose, Grows, Takes};
ghost use Rattle.vocabulary.specs.Prelude.{Command};
ghost use Rattle.semantics.specs.declared.limits.TheConstants.{MOST_BYTES};
ghost use Rattle.spy_args.specs.declared.request.Request.{Request};
ghost use Rattle.spy_args.specs.Asked.{asked};
ghost use Rattle.spy_cli.specs.declared.status.Status.{Status};
ghost use Rattle.findings.specs.declared.finding.Finding.TheVariants as findings;
ghost use Rattle.findings.specs.Texts as reports;
ghost use Rattle.spy_cli.specs.Answers.{Answers, AnswersLong, AnswersPart, Ends, IsAnswer, IsAnswerLong, HasNoFault, IsDecided, IsInput, InputHasNoFault, IsRead, Keeps, takes_input};

use crate::answering::{ReportEnd, report_on};
use crate::listing::{deps_answered, is_deps};
use crate::status::Status;
use crate::writing::written;
use findings::{cannot_read_text, usage_text};
use memory::Memory;
use spy_args::{Request, request_in};
use spy_io::{Sink, Source};
use std::alloc::Global;

/// Runs the command that the words ask for over the bytes of the source, and writes its report to the sink.
/// The words do not hold the program's name. The commands are `check`, `ordered`, `deps`, `spare`, `print`, `expand`, `launched`, `nested` and `why --task T --req Q --point P --field F`, and `demo --size N`, which reads nothing: it checks the stencil log of N pieces.
#[tactic(auto, using(log_laws::proofs::lemmas::ReadLogs::one_read))]
pub fn run<S: Source, K: Sink>(
    alloc: Global,
    words: &Vec<String>,
    source: &mut S,
    sink: &mut K,
) -> Status
    // Words that ask for no command.
    ensures usage { result ≡ Status.Usage → (asked (map string_bytes words.now.items) ≡ None)
        × Appends (K.held sink.old) (K.held sink.new) (reports.report_text findings.Usage) }
    ensures not_taken { asked (map string_bytes words.now.items) ≡ None
        → (result ≡ Status.Usage) ⊎ (result ≡ Status.WriteFault) ⊎ (result ≡ Status.Memory) }

    // What the input decides: it is the answer, and no other.
    ensures answer { (request : Request) → asked (map string_bytes words.now.items) ≡ Some request
        → IsDecided result → (bytes : List ℕ) → IsInput request (S.left source.old) bytes
        → Answers request bytes result (K.held sink.old) (K.held sink.new) }
    ensures exact { (request : Request) → asked (map string_bytes words.now.items) ≡ Some request
        → (bytes : List ℕ) (status : Status) (text : List ℕ)
        → IsInput request (S.left source.old) bytes → IsAnswer request bytes status text
        → IsDecided result → (result ≡ status) × Appends (K.held sink.old) (K.held sink.new) text }

    // Under `check` the same is true of long values, which carry what was read.
    ensures answer_long { asked (map string_bytes words.now.items) ≡ Some (Request.Judge Command.Check)
        → IsDecided result → (bytes : List ℕ) → S.left source.old ≡ Some bytes
        → AnswersLong bytes result (K.held sink.old) (K.held sink.new) }
    ensures exact_long { asked (map string_bytes words.now.items) ≡ Some (Request.Judge Command.Check)
        → (bytes : List ℕ) (status : Status) (text : List ℕ)
        → S.left source.old ≡ Some bytes → IsAnswerLong bytes status text
        → IsDecided result → (result ≡ status) × Appends (K.held sink.old) (K.held sink.new) text }

    // An input that keeps each rule is answered, if no device fails and memory suffices.
    ensures complete { (request : Request) → asked (map string_bytes words.now.items) ≡ Some request
        → (bytes : List ℕ) → IsInput request (S.left source.old) bytes → Keeps request bytes
        → InputHasNoFault request (S.faults source.old) (S.faults source.new)
        → HasNoFault (K.faults sink.old) (K.faults sink.new) → Ends request result }

    // What is taken of the source: where nothing is read it is not called; else all, or one byte more than an input may
    // have, unless a call fails or memory runs out before. No call follows one that gave the end or failed, and each has
    // room for a byte.
    ensures not_called { takes_input (asked (map string_bytes words.now.items)) ≡ false
        → source.new ≡ source.old }
    ensures read { takes_input (asked (map string_bytes words.now.items)) ≡ true → IsDecided result
        → IsRead (S.left source.old) (S.left source.new) }
    ensures read_unwritten { takes_input (asked (map string_bytes words.now.items)) ≡ true
        → result ≡ Status.WriteFault
        → IsRead (S.left source.old) (S.left source.new)
        ⊎ (Rose (S.faults source.old) (S.faults source.new)
        × Takes (S.left source.old) (S.left source.new) (MOST_BYTES)) }
    ensures once { S.ended source.old ≡ 0 → S.ended source.new ≤ 1 }
    ensures roomy { S.idle source.new ≡ S.idle source.old }
    ensures taken { result ≡ Status.Memory → Takes (S.left source.old) (S.left source.new) (MOST_BYTES + 1) }

    // A device that failed says so by its count, and no other answer comes from a failure.
    ensures no_fault { IsDecided result ⊎ (result ≡ Status.Usage)
        → (S.faults source.new ≡ S.faults source.old) × (K.faults sink.new ≡ K.faults sink.old) }
    ensures read_fault { result ≡ Status.ReadFault
        → (takes_input (asked (map string_bytes words.now.items)) ≡ true)
        × Rose (S.faults source.old) (S.faults source.new)
        × Takes (S.left source.old) (S.left source.new) (MOST_BYTES) }
    ensures said { result ≡ Status.ReadFault → (K.faults sink.new ≡ K.faults sink.old)
        × Appends (K.held sink.old) (K.held sink.new) (reports.report_text findings.CannotRead) }
    ensures write_fault { result ≡ Status.WriteFault → Rose (K.faults sink.old) (K.faults sink.new) }

    // After a failed write the sink is not called again. It has got a part of the report that is not all, and nothing else.
    ensures stopped { K.ended sink.old ≡ 0 → K.ended sink.new ≤ 1 }
    ensures part_of_usage { result ≡ Status.WriteFault → asked (map string_bytes words.now.items) ≡ None
        → Grows (K.held sink.old) (K.held sink.new) (reports.report_text findings.Usage) }
    ensures part { (request : Request) → asked (map string_bytes words.now.items) ≡ Some request
        → (bytes : List ℕ) (status : Status) (text : List ℕ)
        → IsInput request (S.left source.old) bytes → IsAnswer request bytes status text
        → result ≡ Status.WriteFault → Grows (K.held sink.old) (K.held sink.new) text
        ⊎ (Rose (S.faults source.old) (S.faults source.new)
        × Grows (K.held sink.old) (K.held sink.new) (reports.report_text findings.CannotRead)) }

    ensures part_of_answer { (request : Request) → asked (map string_bytes words.now.items) ≡ Some request
        → (bytes : List ℕ) → IsInput request (S.left source.old) bytes → result ≡ Status.WriteFault
        → AnswersPart request bytes (K.held sink.old) (K.held sink.new)
        ⊎ (Rose (S.faults source.old) (S.faults source.new)
        × Grows (K.held sink.old) (K.held sink.new) (reports.report_text findings.CannotRead)) }

    // Without memory nothing is written, and no device failed.
    ensures memory { result ≡ Status.Memory → sink.new ≡ sink.old }
    ensures no_fault_memory { result ≡ Status.Memory → S.faults source.new ≡ S.faults source.old }
{
    let request = match request_in(alloc, words) {
        Ok(Some(request)) => request,
        Ok(None) => return written(sink, usage_text(), Status::Usage),
        Err(Memory) => return Status::Memory,
    };
    if is_deps(request) {
        return deps_answered(alloc, source, sink);
    }
    match report_on(alloc, request, source) {
        Ok(report) => written(sink, &report.text, report.status),
        Err(ReportEnd::ReadFault) => written(sink, cannot_read_text(), Status::ReadFault),
        Err(ReportEnd::Memory) => Status::Memory,
    }
}

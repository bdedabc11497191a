//! The fault of the frame of a log.

ghost use Rattle.std.specs.Prelude.{◌≡◌, ◌<◌, ◌-◌, ◌^◌};
ghost use Rattle.std.specs.Option.{option_or};
ghost use Rattle.semantics.specs.Faults.{header_fault, ended_fault, count_fault};

use semantics::Fault;
use spy_grammar::Lined;

/// The fault of the frame: of the header, else of the end, else of the count.
pub(crate) fn frame_fault(records: &[Lined], lines: u32) -> Option<Fault>
    requires { lines < 2 ^ 32 - 1 }
    ensures { result ≡ option_or (header_fault lines records.now)
        (option_or (ended_fault lines records.now) (count_fault records.now)) }
{
    log_frame::frame_fault(records, lines)
}

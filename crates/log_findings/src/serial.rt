//! The fault of a log's serial order.

ghost use Rattle.std.specs.Prelude.{◌≡◌, ◌<◌, length};
ghost use Rattle.semantics.specs.Faults as faults;

use interference::serial_ok;
use logs::Log;
use region_tree::ArenaSet;
use semantics::Fault;
use spy_grammar::Code;
use std::alloc::Global;

/// The line that lists an item in serial order, and 0 if none does.
fn serial_line<'a, P: ArenaSet<'a>>(log: &Log<'a, P>, item: usize) -> u32
    requires { item < length log.now.items }
    ensures { result ≡ faults.serial_line log.now item }
{
    log.serial_line(item).unwrap_or(0)
}

/// The fault of the serial order: two items stand against program order that may not. The line is the one that lists the first of them. Where memory runs out, it only takes longer.
#[tactic(auto, using(interference::proofs::lemmas::Turning::turned_within))]
pub fn serial_fault<'a, P: ArenaSet<'a>>(alloc: Global, log: &Log<'a, P>) -> Option<Fault>
    ensures { result ≡ faults.serial_fault log.now }
{
    match serial_ok(alloc, log) {
        Ok(()) => None,
        Err(breaks) => Some(Fault {
            line: serial_line(log, breaks.a),
            code: Code::SerialOrder,
        }),
    }
}

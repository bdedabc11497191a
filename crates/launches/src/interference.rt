//! The rule on interference, judged of all that is written.

ghost use Rattle.std.specs.Prelude.{◌≡◌, ◌≤◌, All, length, map, IfOk};
ghost use Rattle.std.specs.List.{zip};
ghost use Rattle.vocabulary.specs.Prelude.{Good};
ghost use Rattle.launch_claims.specs.Interference.{IsLeast};
ghost use Rattle.launches.specs.Interfering.{BreaksAt, first_fault};
ghost use Rattle.launches.specs.Steps.{HasTaskIds, launch_seen};
ghost use Rattle.launches.specs.Walks.{AreInOrder};

use crate::launched::Launched;
use crate::uses::{Space, launch_tasks, requirements_in, spaces_in};
use crate::walk::Lines;
use arena_sets::ArenaRects;
use bumpalo::Bump;
use log_tables::{ById, Rows};
use memory::Memory;
use point_set::RectSet;
use semantics::Fault;
use spy_grammar::{Code, Record};
use std::alloc::Global;

/// The first line at which the rule on interference is broken. The sets of spaces are placed in the arena.
fn first_by_sets<'b, P: ArenaRects<'b>>(
    alloc: Global,
    bump: &'b Bump,
    launches: &[Launched],
    written: &[Record],
    lines: &Lines,
) -> Result<Option<u32>, Memory>
    requires fit { All HasTaskIds launches.now }
    requires good { All Good written.now }
    requires launches { length lines.now.launched.items ≤ length launches.now }
    requires records { length lines.now.written.items ≤ length written.now }
    requires order { AreInOrder (zip lines.now.written.items written.now) }
    ensures { IfOk result (IsLeast
        (BreaksAt (zip lines.now.launched.items (map launch_seen launches.now)) (zip lines.now.written.items written.now))) }
{
    let spaces: Rows<ById, Space<P>> = spaces_in(alloc, bump, written, lines.written.as_slice())?;
    let reqs = requirements_in(alloc, &spaces, written, lines.written.as_slice())?;
    let tasks = launch_tasks(alloc, launches, lines.launched.as_slice())?;
    launch_claims::first_interference(alloc, tasks.as_slice(), reqs.as_slice())
}

/// The first line at which the rule on interference is broken.
pub(crate) fn first_interference(
    alloc: Global,
    launches: &[Launched],
    written: &[Record],
    lines: &Lines,
) -> Result<Option<u32>, Memory>
    requires fit { All HasTaskIds launches.now }
    requires good { All Good written.now }
    requires launches { length lines.now.launched.items ≤ length launches.now }
    requires records { length lines.now.written.items ≤ length written.now }
    requires order { AreInOrder (zip lines.now.written.items written.now) }
    ensures { IfOk result (IsLeast
        (BreaksAt (zip lines.now.launched.items (map launch_seen launches.now)) (zip lines.now.written.items written.now))) }
{
    let bump = Bump::new(alloc);
    first_by_sets::<RectSet<'_>>(alloc, &bump, launches, written, lines)
}

/// The fault at the first line at which the rule on interference is broken, and else another fault.
pub(crate) fn first_fault(interference: Option<u32>, fault: Option<Fault>) -> Option<Fault>
    ensures { result ≡ first_fault interference fault }
{
    match interference {
        Some(line) => Some(Fault {
            line,
            code: Code::LaunchInterference,
        }),
        None => fault,
    }
}

//! Pairs of tasks that interfere.

ghost use Rattle.std.specs.Prelude.{◌≡◌, ◌<◌, ◌^◌, length};
ghost use Rattle.semantics.specs.Shown.{task_pairs};
ghost use Rattle.interference.specs.Tasks.{are_tasks};

use crate::all::pairs;
use crate::pair::Pair;
use item_uses::is_task_at;
use logs::AskedLog;
use region_tree::ArenaSet;
use semantics::Item;

/// Whether both items of a pair are tasks.
pub fn are_tasks(items: &[Item], pair: Pair) -> bool
    ensures { result ≡ are_tasks items.now pair }
{
    is_task_at(items, pair.a) && is_task_at(items, pair.b)
}

/// How many pairs of tasks interfere.
pub fn task_pair_count<'a, P: ArenaSet<'a>>(log: &AskedLog<'_, 'a, P>) -> u64
    requires { length log.now.items < 2 ^ 32 }
    ensures { result ≡ length (task_pairs log.now) }
{
    let items = log.plain().items();
    let mut count = 0;
    for pair in pairs(log) {
        if are_tasks(items, pair) {
            count += 1;
        }
    }
    count
}

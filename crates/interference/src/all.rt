//! All pairs of a log.

ghost use Rattle.std.specs.Prelude.{◌≡◌};
ghost use Rattle.interference.specs.Pairing.{all_pairs};

use crate::iterator::Pairs;
use crate::search::Search;
use logs::AskedLog;
use region_tree::ArenaSet;

/// The pairs of items of a log that interfere, in program order: by the first item, and then by the second. Takes no memory.
pub fn pairs<'l, 'a, P: ArenaSet<'a>>(log: &AskedLog<'l, 'a, P>) -> Pairs<'l, 'a, P>
    ensures { result ≡ all_pairs log.now }
{
    let search = Search::of(log, None);
    Pairs::of(&search, 0)
}

//! Whether the serial order keeps the pairs of items that interfere.

ghost use Rattle.std.specs.Prelude.{◌≡◌, ◌<◌, ◌+◌, find, length, Some, None, OnOk, IfErr};
ghost use Rattle.vocabulary.specs.Prelude.{is_before, least_place};
ghost use Rattle.semantics.specs.SerialOrder.{turned_pair};
ghost use Rattle.interference.specs.Pairing.{asked_of, left};
ghost use Rattle.interference.specs.Searching.{IsSearch};
ghost use Rattle.serial_scan.specs.Scanned.{NoneTurnedBefore};

use crate::iterator::Pairs;
use crate::pair::Pair;
use crate::search::Search;
use logs::{AskedLog, Log};
use point_set::PointSet;
use privilege::Kind;
use region_tree::ArenaSet;
use semantics::Place;
use serial_scan::first_to_search;
use std::alloc::Global;

/// A pair of items of kind `Before` that stands against the serial order, and its least place.
#[derive(Clone, Copy, PartialEq, Eq)]
pub struct SerialBreaks {
    pub a: usize,
    pub b: usize,
    pub place: Place,
}

/// The first pair of a search that is of kind `Before`, of those whose first item is one or a later one.
fn first_turned<'a, P: PointSet + Copy>(search: &Search<'_, 'a, P>, start: usize) -> Option<Pair>
    requires search { IsSearch search.now }
    requires start { start < length search.now.items.now }
    ensures { result ≡ find (λ p. is_before p.kind)
        (left (asked_of search.now.asked) search.now.items.now start (start + 1)) }
{
    for pair in Pairs::of(search, start) {
        if pair.kind == Kind::Before {
            return Some(pair);
        }
    }
    None
}

/// Whether each pair of kind `Before` stands in the serial order as in program order, of a log of which none is turned whose first item is before one.
fn breaks_from<'a, P: PointSet + Copy>(
    log: &AskedLog<'_, 'a, P>,
    start: usize,
) -> Result<(), SerialBreaks>
    requires start { start < length log.now.items }
    requires clear { NoneTurnedBefore log.now start }
    ensures ok { OnOk result (turned_pair log.now ≡ None) }
    ensures pair { IfErr result (λ e. turned_pair log.now ≡ Some (e.a, e.b)) }
    ensures place { IfErr result (λ e. least_place log.now e.a e.b ≡ Some e.place) }
{
    let places = log.plain().serial_places();
    let search = Search::of(log, Some(places));
    match first_turned(&search, start) {
        Some(pair) => Err(SerialBreaks {
            a: pair.a,
            b: pair.b,
            place: pair.place,
        }),
        None => Ok(()),
    }
}

/// Whether each pair of kind `Before` stands in the serial order as in program order: else the first that does not. Where no line lists items, nothing is looked at.
///
/// One pass over what items ask for says where to look for the pair, which takes memory for each place that is used. Where memory runs out, all pairs are gone over.
#[tactic(auto, using(crate::proofs::Skipping::none_before))]
pub fn serial_ok<'a, P: ArenaSet<'a>>(alloc: Global, log: &Log<'a, P>) -> Result<(), SerialBreaks>
    ensures ok { OnOk result (turned_pair log.now ≡ None) }
    ensures pair { IfErr result (λ e. turned_pair log.now ≡ Some (e.a, e.b)) }
    ensures place { IfErr result (λ e. least_place log.now e.a e.b ≡ Some e.place) }
{
    if !log.has_serial() {
        return Ok(());
    }
    let start = first_to_search(alloc, log);
    if start >= log.items().len() {
        return Ok(());
    }
    match log.listed_uses() {
        Some(uses) => breaks_from(&log.asked(uses), start),
        None => unreachable!(),
    }
}

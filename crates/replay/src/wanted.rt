//! What is wanted at a place, by number.

ghost use Rattle.std.specs.Prelude.{◌≡◌, ◌-◌, ◌<◌, ◌≤◌, ◌^◌, take, length, IfOk, IfSome, OnOk};
ghost use Rattle.value_terms.specs.declared.terms.Base.TheVariants as bases;
ghost use Rattle.vocabulary.specs.Prelude.{plain, weight_of};
ghost use Rattle.shared_values.specs.Arenas as numbered;
ghost use Rattle.shared_values.specs.Arenas.{Keeps};
ghost use Rattle.serial_exec.specs.Changes.{acted_by, after_changes};
ghost use Rattle.serial_exec.specs.Kept.{value_at};
ghost use Rattle.inst_steps.specs.Stores.{IsNumberOf};
ghost use Rattle.replay.specs.Wanting.{AreNumbers, AreWanted};

use inst_steps::Store;
use semantics::Place;
use serial_exec::{Action, Change, PlaceLists, Versions};
use value_terms::{Base, Memory};

/// The number of what a change makes of a value.
fn number_after(store: &mut Store, number: usize, change: &Change) -> Result<usize, Memory>
    requires known { number < length store.old.values }
    requires fits { weight_of (numbered.value_at store.old.values number) < 2 ^ 64 - 1 }
    ensures number { IfOk result (IsNumberOf store.new.values
        (acted_by change.now.action (numbered.value_at store.old.values number))) }
    ensures kept { Keeps store.old.values store.new.values }
    ensures cells { store.new.cells ≡ store.old.cells }
{
    match change.action {
        Action::Put(base) => store.number_of(base),
        Action::Add { op, by } => store.number_with(number, op, by),
    }
}

/// The number of what one change more makes, where these are the numbers of what fewer make.
fn next_number(
    store: &mut Store,
    numbers: &[usize],
    made: usize,
    changes: &[Change],
) -> Result<usize, Memory>
    requires made { made ≡ length numbers.now }
    requires numbers { AreNumbers store.old.values changes.now numbers.now }
    requires few { made ≤ length changes.now }
    ensures number { IfOk result (IsNumberOf store.new.values
        (after_changes (take made changes.now) (plain bases.Init))) }
    ensures kept { Keeps store.old.values store.new.values }
    ensures cells { store.new.cells ≡ store.old.cells }
{
    if made == 0 {
        return store.number_of(Base::Init);
    }
    number_after(store, numbers[made - 1], &changes[made - 1])
}

/// What was put last, if nothing was added since. Where nothing was changed it is the initial value.
fn base_put(changes: &[Change]) -> Option<Base>
    ensures { IfSome result (λ base. after_changes changes.now (plain bases.Init) ≡ plain base) }
{
    let Some((last, _)) = changes.split_last() else {
        return Some(Base::Init);
    };
    match last.action {
        Action::Put(base) => Some(base),
        Action::Add { .. } => None,
    }
}

/// The number of what a read of an item should see at a place, among those of what the changes there make one after the other. Each change is taken once, however many reads ask.
fn number_listed(
    wanted: &mut PlaceLists<usize>,
    store: &mut Store,
    versions: &Versions,
    item: usize,
    place: &Place,
) -> Result<usize, Memory>
    requires item { item < length versions.now.positions }
    requires wanted { AreWanted store.old.values versions.now wanted.old }
    ensures number { IfOk result (IsNumberOf store.new.values (value_at versions.now item place.now)) }
    ensures wanted { OnOk result (AreWanted store.new.values versions.now wanted.new) }
    ensures kept { Keeps store.old.values store.new.values }
    ensures cells { store.new.cells ≡ store.old.cells }
{
    let changes = versions.changes_before(item, place);
    let mut made = wanted.at(place).len();
    while made <= changes.len() {
        let number = next_number(store, wanted.at(place), made, changes)?;
        wanted.push(*place, number)?;
        made = wanted.at(place).len();
    }
    Ok(wanted.at(place)[changes.len()])
}

/// The number of what a read of an item should see at a place. Nothing is kept of a place while nothing is added there.
#[tactic(auto, using(crate::proofs::Wanting::still_wanted))]
pub(crate) fn number_wanted(
    wanted: &mut PlaceLists<usize>,
    store: &mut Store,
    versions: &Versions,
    item: usize,
    place: &Place,
) -> Result<usize, Memory>
    requires item { item < length versions.now.positions }
    requires wanted { AreWanted store.old.values versions.now wanted.old }
    ensures number { IfOk result (IsNumberOf store.new.values (value_at versions.now item place.now)) }
    ensures wanted { OnOk result (AreWanted store.new.values versions.now wanted.new) }
    ensures kept { Keeps store.old.values store.new.values }
    ensures cells { store.new.cells ≡ store.old.cells }
{
    match base_put(versions.changes_before(item, place)) {
        Some(base) => store.number_of(base),
        None => number_listed(wanted, store, versions, item, place),
    }
}

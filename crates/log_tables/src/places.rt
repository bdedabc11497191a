//! How rows are found by their keys.

ghost use Rattle.std.specs.Prelude.{ℕ, ◌≡◌, ◌++◌, ◌∷◌, [], true, false, List, None, OnOk, IfOk, IfSome, IsOk, ◌<◌, ◌≤◌, ◌+◌, length};
ghost use Rattle.std.specs.List.{position_from};
ghost use Rattle.indexmap.specs.IndexMap.{get, spare};
ghost use Rattle.log_tables.specs.Noted.{NotesFirst, HoldsPlaces, AreAscending, AreNumbered, Finds, IsPlan, HasRoom, is_below};
ghost use Rattle.std.specs.List.Sorted.{IsPartitionPoint};

use crate::keys::{Key, KeyBy};
use indexmap::IndexMap;
use std::alloc::{AllocError, Global};
use std::hash::Hash;

/// How rows are found by a key of theirs. While the numbers of the keys ascend, as those of ids in most logs do, no place is noted: a row is found by a search, and at once where each number follows the one before it. From the first that does not ascend, the place of each key is noted.
#[derive(Drop)]
pub(crate) struct Places<K: Key> {
    /// Whether the numbers are known to ascend.
    ascend: bool,
    /// The number of the first key, if those of the others are known to follow it one by one.
    first: Option<usize>,
    /// The place of each key, where they do not ascend.
    noted: IndexMap<K, usize>,
}

/// Whether the numbers ascend with one key more, and the number of the first key if they follow one by one.
#[derive(Clone, Copy)]
pub(crate) struct Plan {
    ascend: bool,
    first: Option<usize>,
}

/// Notes a value of a key, if the key has none yet.
pub(crate) fn note_first<K: Copy + Eq + Hash, V: Copy>(
    values: &mut IndexMap<K, V>,
    key: K,
    value: V,
) -> Result<(), AllocError>
    ensures ok { OnOk result (NotesFirst (get K.eq values.old) (get K.eq values.new) (K.eq key) value) }
    ensures room { 0 < spare values.old → IsOk result }
    ensures spare { spare values.old ≤ spare values.new + 1 }
{
    if !values.contains_key(&key) {
        values.insert(key, value)?;
    }
    Ok(())
}

/// The place of each row's key.
fn places_of<W: KeyBy<T>, T>(alloc: Global, rows: &[T]) -> Result<IndexMap<W::K, usize>, AllocError>
    ensures { IfOk result (λ m. HoldsPlaces W.K.eq W.key_of (get W.K.eq m) rows.now) }
{
    let mut places = IndexMap::new(alloc);
    for i in 0..rows.len() {
        note_first(&mut places, W::key(&rows[i]), i)?;
    }
    Ok(places)
}

/// The place of the row with a key, where the numbers of keys come one after the other.
fn numbered_place<W: KeyBy<T>, T>(rows: &[T], first: usize, key: W::K) -> Option<usize>
    requires { AreNumbered W.K.number_of W.key_of first rows.now }
    ensures { result ≡ position_from (λ x. W.K.eq (W.key_of x) key) 0 rows.now }
{
    let place = key.number().checked_sub(first)?;
    let row = rows.get(place)?;
    if W::key(row) == key {
        Some(place)
    } else {
        None
    }
}

/// How many of the last rows are looked at before the others, since what was added last is often asked for next.
const RECENT: usize = 16;

/// How many rows have keys with numbers below this one, where these ascend.
fn count_below<W: KeyBy<T>, T>(rows: &[T], number: usize) -> usize
    requires { AreAscending W.K.number_of W.key_of rows.now }
    ensures { IsPartitionPoint (λ x. is_below W.K.number_of W.key_of number x ≡ true)
        (λ x. is_below W.K.number_of W.key_of number x ≡ false) rows.now result }
{
    let from = rows.len().saturating_sub(RECENT);
    let recent = &rows[from..];
    let Some(first) = recent.first() else {
        return 0;
    };
    if W::key(first).number() < number {
        from + recent.partition_point(|row| W::key(row).number() < number)
    } else {
        rows.partition_point(|row| W::key(row).number() < number)
    }
}

/// The place of the row with a key, where the numbers of keys ascend.
fn ascending_place<W: KeyBy<T>, T>(rows: &[T], key: W::K) -> Option<usize>
    requires { AreAscending W.K.number_of W.key_of rows.now }
    ensures { result ≡ position_from (λ x. W.K.eq (W.key_of x) key) 0 rows.now }
{
    let place = count_below::<W, T>(rows, key.number());
    let row = rows.get(place)?;
    if W::key(row) == key {
        Some(place)
    } else {
        None
    }
}

/// The place of the row with a key, where the numbers of keys ascend. It is looked at first whether the row stands at a place where it may be.
fn guessed_place<W: KeyBy<T>, T>(rows: &[T], key: W::K, guess: usize) -> Option<usize>
    requires { AreAscending W.K.number_of W.key_of rows.now }
    ensures { result ≡ position_from (λ x. W.K.eq (W.key_of x) key) 0 rows.now }
{
    if let Some(row) = rows.get(guess) {
        if W::key(row) == key {
            return Some(guess);
        }
    }
    ascending_place::<W, T>(rows, key)
}

impl<K: Key> Places<K> {
    /// Those of no rows.
    pub(crate) fn new(alloc: Global) -> Places<K>
        ensures ascend { result.ascend ≡ true }
        ensures first { result.first ≡ None }
    {
        Places {
            ascend: true,
            first: None,
            noted: IndexMap::new(alloc),
        }
    }
}

/// The place of the first row with a key.
pub(crate) fn place_of<W: KeyBy<T>, T>(
    places: &Places<W::K>,
    rows: &[T],
    key: W::K,
) -> Option<usize>
    requires { Finds (get W.K.eq) W.K.eq W.K.number_of W.key_of places.now.ascend places.now.first places.now.noted rows.now }
    ensures { result ≡ position_from (λ x. W.K.eq (W.key_of x) key) 0 rows.now }
{
    if !places.ascend {
        return places.noted.get(&key).copied();
    }
    match places.first {
        Some(first) => numbered_place::<W, T>(rows, first, key),
        None => ascending_place::<W, T>(rows, key),
    }
}

/// The place of the first row with a key, which may be one that is guessed.
pub(crate) fn place_near<W: KeyBy<T>, T>(
    places: &Places<W::K>,
    rows: &[T],
    key: W::K,
    guess: usize,
) -> Option<usize>
    requires { Finds (get W.K.eq) W.K.eq W.K.number_of W.key_of places.now.ascend places.now.first places.now.noted rows.now }
    ensures { result ≡ position_from (λ x. W.K.eq (W.key_of x) key) 0 rows.now }
{
    if places.ascend {
        guessed_place::<W, T>(rows, key, guess)
    } else {
        place_of::<W, T>(places, rows, key)
    }
}

/// The number of the first key of some rows and one more, if those of the others are known to follow it one by one.
fn first_with<W: KeyBy<T>, T>(rows: &[T], first: Option<usize>, key: W::K) -> Option<usize>
    requires { IfSome first (λ first. AreNumbered W.K.number_of W.key_of first rows.now) }
    ensures { (row : T) → W.key_of row ≡ key
        → IfSome result (λ first. AreNumbered W.K.number_of W.key_of first (rows.now ++ row ∷ [])) }
{
    let number = key.number();
    if rows.is_empty() {
        return Some(number);
    }
    let first = first?;
    if first <= number && number - first == rows.len() {
        Some(first)
    } else {
        None
    }
}

/// Whether the numbers of the keys of some rows ascend with one key more, where they do without it.
fn ascend_with<W: KeyBy<T>, T>(rows: &[T], key: W::K) -> bool
    requires { AreAscending W.K.number_of W.key_of rows.now }
    ensures { (row : T) → W.key_of row ≡ key → result ≡ true
        → AreAscending W.K.number_of W.key_of (rows.now ++ row ∷ []) }
{
    match rows.last() {
        Some(last) => W::key(last).number() < key.number(),
        None => true,
    }
}

/// How the rows are found with one more, which has this key.
pub(crate) fn plan_with<W: KeyBy<T>, T>(places: &Places<W::K>, rows: &[T], key: W::K) -> Plan
    requires { Finds (get W.K.eq) W.K.eq W.K.number_of W.key_of places.now.ascend places.now.first places.now.noted rows.now }
    ensures { (row : T) → W.key_of row ≡ key → IsPlan W.K.number_of W.key_of result.ascend result.first (rows.now ++ row ∷ []) }
{
    if !places.ascend || !ascend_with::<W, T>(rows, key) {
        return Plan {
            ascend: false,
            first: None,
        };
    }
    Plan {
        ascend: true,
        first: first_with::<W, T>(rows, places.first, key),
    }
}

/// Makes room for a key more, if it is to be noted. Where none was noted before, all are.
pub(crate) fn make_room<W: KeyBy<T>, T>(
    alloc: Global,
    places: &mut Places<W::K>,
    rows: &[T],
    plan: Plan,
) -> Result<(), AllocError>
    requires { Finds (get W.K.eq) W.K.eq W.K.number_of W.key_of places.old.ascend places.old.first places.old.noted rows.now }
    ensures finds { Finds (get W.K.eq) W.K.eq W.K.number_of W.key_of places.new.ascend places.new.first places.new.noted rows.now }
    ensures room { OnOk result (HasRoom plan.ascend places.new.ascend (spare places.new.noted)) }
{
    if plan.ascend {
        return Ok(());
    }
    if places.ascend {
        let noted = places_of::<W, T>(alloc, rows)?;
        *places = Places {
            ascend: false,
            first: None,
            noted,
        };
    }
    places.noted.reserve(1)
}

/// Notes the key of the row that was pushed at a place.
pub(crate) fn note<W: KeyBy<T>, T>(places: &mut Places<W::K>, plan: Plan, place: usize, key: W::K)
    requires { HasRoom plan.ascend places.old.ascend (spare places.old.noted) }
    ensures { (rows : List T) (row : T)
        → Finds (get W.K.eq) W.K.eq W.K.number_of W.key_of places.old.ascend places.old.first places.old.noted rows
        → place ≡ length rows → W.key_of row ≡ key → IsPlan W.K.number_of W.key_of plan.ascend plan.first (rows ++ row ∷ [])
        → Finds (get W.K.eq) W.K.eq W.K.number_of W.key_of places.new.ascend places.new.first places.new.noted (rows ++ row ∷ []) }
{
    if plan.ascend {
        places.ascend = true;
        places.first = plan.first;
        return;
    }
    let _has_room = note_first(&mut places.noted, key, place);
}

//! The rules on launches that are tried of a record by itself: all but that on interference.

ghost use Rattle.std.specs.Prelude.{◌≡◌, ◌+◌, ◌^◌, ◌<◌, ◌||◌, All, List, filter, find, is_none, is_some, length, nat_lt, None, Some, IfOk, if◌then◌else◌};
ghost use Rattle.std.specs.List.{list_any};
ghost use Rattle.vocabulary.specs.Prelude.{GoodLaunch, Record, text_of};
ghost use Rattle.spy_grammar.specs.declared.code.Code.TheVariants as codes;
ghost use Rattle.semantics.specs.Launches.{breaks_launch, colours_of, exceeds_ids, launch_of, names_no_launch, repeats_launch, with_launching};
ghost use Rattle.launches.specs.Steps.{HasTaskIds, IsKept, early_rules, expanded_as, single_broken, space_by};
ghost use Rattle.launches.specs.Written.{is_inner};

use crate::launched::Launched;
use crate::step::{launch_of, write};
use crate::tasks::lacks_space;
use crate::writing::Writing;
use log_tables::{ById, Rows};
use memory::Memory;
use semantics::{MOST_BYTES, MOST_COLOURS, MOST_RECORDS};
use spy_grammar::{Code, LRecord};
use std::alloc::Global;

/// Whether a launch has this id.
#[tactic(auto, using(crate::proofs::Stepping::some_seen))]
fn has_launch(launches: &Rows<ById, Launched>, base: u32) -> bool
    requires { All HasTaskIds launches.now }
    ensures { (written : List Record) → result ≡ is_some (launch_of (expanded_as launches.now written) base) }
{
    launch_of(launches, base).is_some()
}

/// Whether a launch with this id is missing, or the partition has no subspace under some of its colours.
fn lacks_some(launches: &Rows<ById, Launched>, writing: &Writing, base: u32, part: u32) -> bool
    requires { All HasTaskIds launches.now }
    ensures { let e = expanded_as launches.now writing.now in
        result ≡ (is_none (launch_of e base)
        || list_any (λ colour. is_none (space_by writing.now part colour)) (colours_of e base)) }
{
    match launch_of(launches, base) {
        Some(launch) => lacks_space(writing, part, launch.colours.as_slice()),
        None => true,
    }
}

/// Whether a launch has too many colours, or the id of some task would be no id.
fn ids_exceed(base: u32, count: usize) -> bool
    ensures { result ≡ (nat_lt MOST_COLOURS count || nat_lt (2 ^ 32) (base + count)) }
{
    count > MOST_COLOURS || u64::from(base) + count as u64 > 1 << 32
}

/// Whether an earlier launch has the id of this one.
fn repeats_launch(launches: &Rows<ById, Launched>, rec: &LRecord) -> bool
    requires { All HasTaskIds launches.now }
    ensures { (written : List Record) → result ≡ repeats_launch (expanded_as launches.now written) rec.now }
{
    match rec {
        LRecord::Launch { base, .. } => has_launch(launches, *base),
        _ => false,
    }
}

/// Whether an `lreq` names no launch, or has no subspace for some task.
fn names_no_launch(launches: &Rows<ById, Launched>, writing: &Writing, rec: &LRecord) -> bool
    requires { All HasTaskIds launches.now }
    ensures { result ≡ names_no_launch (expanded_as launches.now writing.now) rec.now }
{
    match rec {
        LRecord::Lreq { base, part, .. } => lacks_some(launches, writing, *base, *part),
        _ => false,
    }
}

/// Whether a launch has too many colours, or the id of some task would be no id.
fn exceeds_ids(rec: &LRecord) -> bool
    ensures { result ≡ exceeds_ids rec.now }
{
    match rec {
        LRecord::Launch { base, colours } => ids_exceed(*base, colours.len()),
        _ => false,
    }
}

/// The first rule that a record breaks of those that are tried before it is written.
fn early_broken(launches: &Rows<ById, Launched>, writing: &Writing, rec: &LRecord) -> Option<Code>
    requires { All HasTaskIds launches.now }
    ensures { result ≡ find (breaks_launch (expanded_as launches.now writing.now) rec.now) early_rules }
{
    if repeats_launch(launches, rec) {
        Some(Code::RepeatedId)
    } else if names_no_launch(launches, writing, rec) {
        Some(Code::UnknownId)
    } else if exceeds_ids(rec) {
        Some(Code::LaunchRange)
    } else {
        None
    }
}

/// The rule on how much is written that is broken.
fn late_broken(writing: &Writing) -> Option<Code>
    ensures { result ≡ (if nat_lt MOST_RECORDS (length (filter is_inner writing.now)) then Some codes.TooManyRecords
        else if nat_lt MOST_BYTES (length (text_of writing.now)) then Some codes.TooLong else None) }
{
    if writing.is_many() {
        Some(Code::TooManyRecords)
    } else if writing.is_long() {
        Some(Code::TooLong)
    } else {
        None
    }
}

/// Adds what one record more launches and writes; or the first rule that it breaks by itself.
pub(crate) fn advance(
    launches: &mut Rows<ById, Launched>,
    writing: &mut Writing,
    alloc: Global,
    rec: LRecord,
) -> Result<Option<Code>, Memory>
    requires good { GoodLaunch rec }
    requires few { length writing.old < 2 ^ 32 }
    requires fit { All HasTaskIds launches.old }
    ensures code { IfOk result (λ code. code ≡ single_broken (expanded_as launches.old writing.old) rec) }
    ensures step { IfOk result (λ code. code ≡ None → expanded_as launches.new writing.new
        ≡ with_launching (expanded_as launches.old writing.old) rec) }
    ensures kept { IfOk result (λ _. IsKept (expanded_as launches.old writing.old) (expanded_as launches.new writing.new)) }
    ensures fit { IfOk result (λ _. All HasTaskIds launches.new) }
    ensures few { IfOk result (λ code. code ≡ None → length writing.new < 2 ^ 32) }
{
    let early = early_broken(launches, writing, &rec);
    if early.is_some() {
        return Ok(early);
    }
    write(launches, writing, alloc, rec)?;
    Ok(late_broken(writing))
}

//! Lists of fields that ascend.

ghost use Rattle.std.specs.Prelude.{◌≡◌};
ghost use Rattle.std.specs.List.Sorted.{IsStrictlyIncreasing};
ghost use Rattle.vocabulary.specs.Prelude.{is_within, meets};

use log_tables::is_in;

/// Whether each of some fields is in the other list, by a binary search for each.
pub(crate) fn is_within(ours: &[u32], theirs: &[u32]) -> bool
    requires { IsStrictlyIncreasing theirs.now }
    ensures { result ≡ is_within ours.now theirs.now }
{
    ours.iter().all(|field| is_in(theirs, *field))
}

/// Whether some field of the first list is in the second, by a binary search for each.
fn finds_any(ours: &[u32], theirs: &[u32]) -> bool
    requires { IsStrictlyIncreasing theirs.now }
    ensures { result ≡ meets ours.now theirs.now }
{
    ours.iter().any(|field| is_in(theirs, *field))
}

/// Whether two lists have a field in common, by a binary search for each field of the shorter one.
#[tactic(auto, using(crate::proofs::Members::meets_turned))]
pub(crate) fn meets(ours: &[u32], theirs: &[u32]) -> bool
    requires ours { IsStrictlyIncreasing ours.now }
    requires theirs { IsStrictlyIncreasing theirs.now }
    ensures { result ≡ meets ours.now theirs.now }
{
    if ours.len() <= theirs.len() {
        finds_any(ours, theirs)
    } else {
        finds_any(theirs, ours)
    }
}

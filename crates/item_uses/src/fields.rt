//! Lists of fields, which ascend.

ghost use Rattle.std.specs.Prelude.{◌≡◌, ℕ, ◌≤◌, Contains};
ghost use Rattle.std.specs.List.Sorted.{IsStrictlyIncreasing};
ghost use Rattle.item_uses.specs.Sharing.{least_shared};

use log_tables::is_in;

/// The first field of a list that is in the other.
fn first_shared(ours: &[u32], theirs: &[u32]) -> Option<u32>
    requires ours { IsStrictlyIncreasing ours.now }
    requires theirs { IsStrictlyIncreasing theirs.now }
    ensures { result ≡ least_shared ours.now theirs.now }
{
    for field in ours {
        if is_in(theirs, *field) {
            return Some(*field);
        }
    }
    None
}

/// The least field that is in both lists. Those of the shorter list are looked up in the other.
#[tactic(auto, using(crate::proofs::Shared::shared_turned))]
pub(crate) fn shared_field(ours: &[u32], theirs: &[u32]) -> Option<u32>
    requires ours { IsStrictlyIncreasing ours.now }
    requires theirs { IsStrictlyIncreasing theirs.now }
    ensures { result ≡ least_shared ours.now theirs.now }
{
    if ours.len() <= theirs.len() {
        first_shared(ours, theirs)
    } else {
        first_shared(theirs, ours)
    }
}

/// A field that none is less than.
pub(crate) fn first_field(fields: &[u32]) -> u32
    requires { IsStrictlyIncreasing fields.now }
    ensures { (f : ℕ) → Contains fields.now f → result ≤ f }
{
    if fields.is_empty() {
        return u32::MAX;
    }
    fields[0]
}

/// A field that none is greater than.
pub(crate) fn last_field(fields: &[u32]) -> u32
    requires { IsStrictlyIncreasing fields.now }
    ensures { (f : ℕ) → Contains fields.now f → f ≤ result }
{
    if fields.is_empty() {
        return 0;
    }
    fields[fields.len() - 1]
}

//! The first place of each number.

ghost use Rattle.std.specs.Prelude.{◌≡◌, ◌<◌, ◌++◌, ◌∷◌, [], if◌then◌else◌, true, false, slice_set, All, IfOk, OnOk, length};
ghost use Rattle.std.specs.List.{slice_index_or};
ghost use Rattle.std.specs.List.Sorted.{IsStrictlyIncreasing};
ghost use Rattle.partings.specs.Parted.{AreLeads};

use std::alloc::{AllocError, Global};

/// Adds what stands at a place, if its number was not seen yet, and notes the number as seen.
fn note_lead(
    seen: &mut Vec<bool>,
    leads: &mut Vec<u64>,
    number: usize,
    point: u64,
) -> Result<(), AllocError>
    requires { number < length seen.old.items }
    ensures seen { OnOk result (seen.new.items ≡ slice_set seen.old.items number true) }
    ensures leads { OnOk result (leads.new.items ≡ (if slice_index_or seen.old.items number false
        then leads.old.items else leads.old.items ++ point ∷ [])) }
{
    let was_seen = seen[number];
    seen[number] = true;
    if !was_seen {
        leads.push(point)?;
    }
    Ok(())
}

/// Of values at places, those that stand at the first place of each number, in order. Each number is below `end`.
pub fn leads(
    alloc: Global,
    numbers: &[usize],
    end: usize,
    points: &[u64],
) -> Result<Vec<u64>, AllocError>
    requires each { length numbers.now ≡ length points.now }
    requires below { All (λ n. n < end) numbers.now }
    requires ascend { IsStrictlyIncreasing points.now }
    ensures leads { IfOk result (λ leads. AreLeads (length points.now) numbers.now points.now leads.items) }
    ensures ascend { IfOk result (λ leads. IsStrictlyIncreasing leads.items) }
{
    let mut seen = vec![in alloc; false; end]?;
    let mut leads = Vec::new(alloc);
    for k in 0..points.len() {
        note_lead(&mut seen, &mut leads, numbers[k], points[k])?;
    }
    Ok(leads)
}

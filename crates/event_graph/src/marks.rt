//! Marks on the numbers below a bound.

ghost use Rattle.std.specs.Prelude.{◌≡◌, ◌==◌, ◌||◌, ℕ, ◌<◌, true, false, length, [], All, IfOk, IfSome, IfNone};
ghost use Rattle.std.specs.List.{slice_index_or};
ghost use Rattle.event_graph.specs.Marked.{AreMarked};

use std::alloc::{AllocError, Global};

/// No number is marked yet.
pub(crate) fn no_marks(alloc: Global, count: usize) -> Result<Vec<bool>, AllocError>
    ensures { IfOk result (λ v. AreMarked v.items count []) }
{
    let mut marks = Vec::new(alloc);
    for _i in 0..count {
        marks.push(false)?;
    }
    Ok(marks)
}

/// Marks one number.
pub(crate) fn mark(marks: &mut Vec<bool>, k: usize)
    requires { k < length marks.old.items }
    ensures each { length marks.new.items ≡ length marks.old.items }
    ensures marked { (j : ℕ) → j < length marks.old.items
        → slice_index_or marks.new.items j false ≡ (slice_index_or marks.old.items j false || (k == j)) }
{
    marks[k] = true;
}

/// Whether a number is marked.
pub(crate) fn is_marked(marks: &[bool], k: usize) -> bool
    requires { k < length marks.now }
    ensures { result ≡ slice_index_or marks.now k false }
{
    marks[k]
}

/// Marks on these numbers.
pub(crate) fn marks_of(alloc: Global, count: usize, ks: &[usize]) -> Result<Vec<bool>, AllocError>
    requires { All (λ k. k < count) ks.now }
    ensures { IfOk result (λ v. AreMarked v.items count ks.now) }
{
    let mut marks = no_marks(alloc, count)?;
    for k in ks {
        mark(&mut marks, *k);
    }
    Ok(marks)
}

/// The first number that is not marked.
pub(crate) fn first_unmarked(marks: &[bool]) -> Option<usize>
    ensures some { IfSome result (λ k. (k < length marks.now) × (slice_index_or marks.now k false ≡ false)) }
    ensures first { IfSome result (λ k. (j : ℕ) → j < k → slice_index_or marks.now j false ≡ true) }
    ensures none { IfNone result ((j : ℕ) → j < length marks.now → slice_index_or marks.now j false ≡ true) }
{
    for (k, marked) in marks.iter().enumerate() {
        if !*marked {
            return Some(k);
        }
    }
    None
}

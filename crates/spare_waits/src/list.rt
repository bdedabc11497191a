//! Lists of waits.

ghost use Rattle.std.specs.Prelude.{◌≡◌, ◌++◌, length, slice_get, OnOk};
ghost use Rattle.spare_laws.specs.Listed.{marked};

use semantics::ListedWait;
use std::alloc::AllocError;
use std::marker::Model;

/// A listed wait that others imply.
pub type SpareWait = ListedWait;

/// Listed waits in order.
#[derive(Drop)]
pub struct SpareList {
    waits: Vec<SpareWait>,
}

impl Model for SpareList {
    ghost use Rattle.std.specs.Prelude.{List};
    ghost use Rattle.vocabulary.specs.Prelude.{ListedWait};

    ghost Value = { List ListedWait };

    ghost view = { λ l. l.waits.items };
}

impl SpareList {
    pub(crate) fn from_vec(waits: Vec<SpareWait>) -> SpareList
        ensures { result ≡ waits.items }
    {
        SpareList { waits }
    }

    /// The waits in order.
    pub fn as_slice(&self) -> &[SpareWait]
        ensures { result.now ≡ self.now }
    {
        &self.waits
    }

    /// How many there are.
    pub fn len(&self) -> usize
        ensures { result ≡ length self.now }
    {
        self.waits.len()
    }

    /// The `i`-th, from 0, or `None` past the last.
    pub fn at(&self, i: usize) -> Option<SpareWait>
        ensures { result ≡ slice_get self.now i }
    {
        self.waits.get(i).copied()
    }
}

/// Adds the waits of a node that are marked.
pub(crate) fn add_marked(
    list: &mut Vec<SpareWait>,
    node: usize,
    marks: &[bool],
) -> Result<(), AllocError>
    ensures { OnOk result (list.new.items ≡ list.old.items ++ marked node 0 marks.now) }
{
    for k in 0..marks.len() {
        if marks[k] {
            list.push(SpareWait { node, k })?;
        }
    }
    Ok(())
}

//! Maps of requirements' fields to instances.

ghost use Rattle.std.specs.Prelude.{◌≡◌, ◌++◌, ◌∷◌, [], ◌≤◌, OnOk, IsOk, length, OnErr};
ghost use Rattle.indexmap.specs.IndexMap.{get, spare};
ghost use Rattle.log_tables.specs.Mapped.{same_field, inst_mapped, names_field};
ghost use Rattle.log_tables.specs.Noted.{NotesFirst};

use crate::places::note_first;
use indexmap::IndexMap;
use semantics::Map;
use std::alloc::{AllocError, Global};
use std::marker::Model;

/// A field of a requirement. The requirement is named by the position of its item, and by its number there.
#[derive(Clone, Copy, PartialEq, Eq, Hash)]
pub struct FieldKey {
    pub item: usize,
    pub number: u32,
    pub field: u32,
}

/// Maps, in the order in which they were added. The instance of a field is looked up in constant time: of several, the first.
#[derive(Drop)]
pub struct Maps {
    rows: Vec<Map>,
    insts: IndexMap<FieldKey, u32>,
}

impl Model for Maps {
    ghost use Rattle.std.specs.Prelude.{◌≡◌, List};
    ghost use Rattle.indexmap.specs.IndexMap.{get};
    ghost use Rattle.vocabulary.specs.Prelude.{Map};
    ghost use Rattle.log_tables.specs.declared.maps.FieldKey.{FieldKey};
    ghost use Rattle.log_tables.specs.Mapped.{same_field, inst_mapped};

    ghost Value = { List Map };

    ghost view = { λ m. m.rows.items };

    ghost invariant = { λ m. (k : FieldKey) → get same_field m.insts k ≡ inst_mapped m.rows.items k };
}

/// Notes the instance of some fields of a requirement, of those that have none yet.
fn note_fields(
    insts: &mut IndexMap<FieldKey, u32>,
    item: usize,
    number: u32,
    fields: &[u32],
    inst: u32,
) -> Result<(), AllocError>
    ensures ok { OnOk result (NotesFirst (get same_field insts.old) (get same_field insts.new)
        (names_field item number fields.now) inst) }
    ensures room { length fields.now ≤ spare insts.old → IsOk result }
{
    for field in fields {
        let key = FieldKey {
            item,
            number,
            field: *field,
        };
        note_first(insts, key, inst)?;
    }
    Ok(())
}

impl Maps {
    /// No maps.
    pub fn new(alloc: Global) -> Maps
        ensures { result ≡ [] }
    {
        Maps {
            rows: Vec::new(alloc),
            insts: IndexMap::new(alloc),
        }
    }

    /// The maps.
    pub fn as_slice(&self) -> &[Map]
        ensures { result.now ≡ self.now }
    {
        &self.rows
    }

    /// The instance to which a field is mapped.
    pub fn inst(&self, key: FieldKey) -> Option<u32>
        ensures { result ≡ inst_mapped self.now key }
    {
        self.insts.get(&key).copied()
    }

    /// One map more.
    pub fn push(&mut self, map: Map) -> Result<(), AllocError>
        ensures ok { OnOk result (self.new ≡ self.old ++ map ∷ []) }
        ensures err { OnErr result (self.new ≡ self.old) }
    {
        self.rows.reserve(1)?;
        self.insts.reserve(map.fields.len())?;
        note_fields(
            &mut self.insts,
            map.item,
            map.number,
            map.fields.as_slice(),
            map.inst,
        )?;
        self.rows.push(map)?;
        Ok(())
    }
}

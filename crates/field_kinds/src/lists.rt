//! The lists of numbers that a record has.

ghost use Rattle.std.specs.Prelude.{◌≡◌};
ghost use Rattle.field_kinds.specs.Lists.{declared, listed, other_numbers};

use spy_grammar::Record;

/// The fields that a record lists, or none, where it does nothing to fields.
pub(crate) fn listed_fields(rec: &Record) -> &[u32]
    ensures { result.now ≡ listed rec.now }
{
    match rec {
        Record::Req { fields, .. }
        | Record::Fill { fields, .. }
        | Record::Inst { fields, .. }
        | Record::Map { fields, .. }
        | Record::Copy { fields, .. }
        | Record::Put { fields, .. }
        | Record::Reset { fields, .. }
        | Record::Fold { fields, .. } => fields.as_slice(),
        _ => &[],
    }
}

/// The fields that a record declares, or none, where it is no field space.
pub(crate) fn declared_fields(rec: &Record) -> &[u32]
    ensures { result.now ≡ declared rec.now }
{
    match rec {
        Record::Fields { fields, .. } => fields.as_slice(),
        _ => &[],
    }
}

/// The numbers that a record lists beside such fields: what it waits for, items, or the fields of a field space.
pub(crate) fn other_numbers(rec: &Record) -> &[u32]
    ensures { result.now ≡ other_numbers rec.now }
{
    match rec {
        Record::Fields { fields, .. } => fields.as_slice(),
        Record::Serial { items } => items.as_slice(),
        Record::Run { waits, .. }
        | Record::Copy { waits, .. }
        | Record::Put { waits, .. }
        | Record::Reset { waits, .. }
        | Record::Fold { waits, .. }
        | Record::Merge { waits, .. } => waits.as_slice(),
        _ => &[],
    }
}

//! Lists of fields, which ascend.

ghost use Rattle.std.specs.Prelude.{◌≡◌};
ghost use Rattle.std.specs.List.Sorted.{IsStrictlyIncreasing};
ghost use Rattle.vocabulary.specs.Prelude.{is_in};

/// Whether a field is in a list, by a binary search.
pub fn is_in(fields: &[u32], field: u32) -> bool
    requires { IsStrictlyIncreasing fields.now }
    ensures { result ≡ is_in fields.now field }
{
    fields.binary_search(&field).is_ok()
}

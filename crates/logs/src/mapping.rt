//! Which fields of requirements are mapped to instances.

ghost use Rattle.std.specs.Prelude.{◌≡◌, MatchOption, not, find, is_some};
ghost use Rattle.std.specs.List.{list_all};
ghost use Rattle.std.specs.Option.{option_copied};
ghost use Rattle.vocabulary.specs.Prelude.{mapped};
ghost use Rattle.logs.specs.Mapping.{is_mapped};

use log_tables::LogTables;
use point_set::PointSet;
use semantics::Req;

/// A requirement with this line has a field that is mapped to no instance.
#[derive(Clone, Copy, PartialEq, Eq)]
pub struct Unmapped {
    pub line: u32,
}

/// The instance to which a field of a requirement is mapped.
pub(crate) fn inst_mapped<P: PointSet>(tables: &LogTables<P>, req: &Req, field: u32) -> Option<u32>
    ensures { result ≡ mapped tables.now req.now field }
{
    tables.inst_of(req.item, req.number, field)
}

/// Whether each field of a requirement is mapped.
fn is_mapped<P: PointSet>(tables: &LogTables<P>, req: &Req) -> bool
    ensures { result ≡ is_mapped tables.now req.now }
{
    for field in req.fields.as_slice() {
        if inst_mapped(tables, req, *field).is_none() {
            return false;
        }
    }
    true
}

/// The first requirement of which a field is not mapped.
pub(crate) fn first_unmapped<P: PointSet>(tables: &LogTables<P>) -> Option<&Req>
    ensures { option_copied result ≡ find (λ r. not (is_mapped tables.now r)) tables.now.reqs }
{
    tables.reqs().iter().find(|req| !is_mapped(tables, req))
}

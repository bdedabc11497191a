//! What a record asks for.

ghost use Rattle.semantics.specs.Rules.{asked};
ghost use Rattle.log_limits.specs.Asked.{Asks};

use spy_grammar::{Nums, Record};

/// The space and the fields whose accesses a record asks for.
pub fn asked(rec: &Record) -> Option<(u32, &Nums)>
    ensures { Asks result (asked rec.now) }
{
    match rec {
        Record::Req { space, fields, .. }
        | Record::Fill { space, fields, .. }
        | Record::Copy { space, fields, .. }
        | Record::Put { space, fields, .. }
        | Record::Reset { space, fields, .. }
        | Record::Fold { space, fields, .. } => Some((*space, fields)),
        _ => None,
    }
}

//! A nested log, parted into its plain records and the others.

ghost use Rattle.std.specs.Prelude.{◌≡◌, ◌++◌, ◌∷◌, [], IfOk, OnOk};
ghost use Rattle.vocabulary.specs.Prelude.{no_tables};
ghost use Rattle.semantics.specs.Nesting.{plain_log};
ghost use Rattle.nest_rules.specs.Pending.{pending_by, pending_from, with_ids_of};

use crate::ids::{Ids, knows, note};
use crate::pending::Pending;
use spy_grammar::{Lined, NLined, NRecord};
use std::alloc::{AllocError, Global};

/// The plain records of a nested log, and the others.
#[derive(Drop)]
pub struct Parts {
    pub plain: Vec<Lined>,
    pub nested: Vec<Pending>,
}

/// One record more.
fn push(parts: &mut Parts, ids: &mut Ids, l: NLined) -> Result<(), AllocError>
    ensures ids { OnOk result (ids.new ≡ with_ids_of ids.old l.rec) }
    ensures plain { OnOk result (parts.new.plain.items ≡ parts.old.plain.items ++ plain_log (l ∷ [])) }
    ensures nested { OnOk result (parts.new.nested.items ≡ parts.old.nested.items ++ pending_by ids.old l) }
{
    let line = l.line;
    match l.rec {
        NRecord::Plain(rec) => {
            note(ids, &rec)?;
            parts.plain.push(Lined { line, rec })?;
        }
        rec => {
            let known = knows(ids, &rec);
            parts.nested.push(Pending { line, rec, known })?;
        }
    }
    Ok(())
}

/// The plain records of a nested log, and the others.
pub fn split(alloc: Global, records: Vec<NLined>) -> Result<Parts, AllocError>
    ensures plain { IfOk result (λ p. p.plain.items ≡ plain_log records.items) }
    ensures nested { IfOk result (λ p. p.nested.items ≡ pending_from no_tables records.items) }
{
    let mut ids = Ids::new(alloc);
    let mut parts = Parts {
        plain: Vec::new(alloc),
        nested: Vec::new(alloc),
    };
    for l in records {
        push(&mut parts, &mut ids, l)?;
    }
    Ok(parts)
}

//! The subspaces that written records declare.

ghost use Rattle.std.specs.Prelude.{◌≡◌, ◌==◌, ◌&&◌, find, OnOk, OnErr};
ghost use Rattle.std.specs.Option.{option_map};
ghost use Rattle.launches.specs.Written.{with_sub};

use log_tables::{ByStep, Rows, Step};
use memory::Memory;
use semantics::Sub;
use spy_grammar::Record;

/// Adds the subspace that a record declares, if it declares one.
pub(crate) fn declare(subs: &mut Rows<ByStep, Sub>, rec: &Record) -> Result<(), Memory>
    ensures ok { OnOk result (subs.new ≡ with_sub subs.old rec.now) }
    ensures err { OnErr result (subs.new ≡ subs.old) }
{
    match rec {
        Record::Sub {
            part,
            colour,
            space,
        } => subs.push(Sub {
            part: *part,
            colour: *colour,
            space: *space,
        })?,
        _ => {}
    }
    Ok(())
}

/// The space of the first subspace of this partition and colour.
pub(crate) fn space_of_step(subs: &Rows<ByStep, Sub>, part: u32, colour: u32) -> Option<u32>
    ensures { result ≡ option_map (λ s. s.space)
        (find (λ s. (s.part == part) && (s.colour == colour)) subs.now) }
{
    Some(subs.get(Step { part, colour })?.space)
}

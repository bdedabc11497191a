//! Launches as they grow.

ghost use Rattle.std.specs.Prelude.{◌≡◌};

use log_tables::{ById, KeyBy};
use spy_words::Nums;

/// A launch: the id of its first task, and its colours.
#[derive(Drop)]
pub(crate) struct Launched {
    pub(crate) base: u32,
    pub(crate) colours: Nums,
}

/// The id is that of the first task.
impl KeyBy<Launched> for ById {
    type K = u32;

    ghost key_of = { λ l. l.base };

    fn key(row: &Launched) -> u32 {
        row.base
    }
}

//! Which items meet at some place, in rows of bits, for 1,024 items at a time.
//!
//! `Places` has the items that use each place, class by class. `meeting_rows` gives for each item the bits
//! of those of 1,024 items in a row that it meets, and `count_pairs` counts all pairs by such rows. Begin
//! with `count.rt`; `rows.rt` marks the users of one place.
#![tactic(auto)]

mod count;
mod counting;
mod places;
mod rows;
mod users;

pub use count::{count_pairs, meeting_rows};
pub use places::Places;
pub use users::User;

//! Laws of fields that no list of a log tells apart: what is found at one of them is found at each.
//!
//! A log that is cut to some fields has these in each of its lists and no others. Where it is cut to the first
//! field of each kind and has neither a race nor a read that differs, the whole log has neither. So a log may
//! be judged by its first fields alone, and gone over as a whole only where they show something. There is no
//! code; begin with `laws.rt`.
#![tactic(auto)]

mod laws;

pub use laws::first_fields_suffice;

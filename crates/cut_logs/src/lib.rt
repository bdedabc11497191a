//! Logs that are cut to listed points: their sets are cut to the list, and all else is as it is.
//!
//! `CutLog` is a log whose sets are `Listed` ones, seen as the tables of its log with these points of each
//! space, or a log at all of its points. Sequential values, steps, the race scan and the replay go over a
//! `CutLog`, so each has one body for whole logs and for cut ones.
#![tactic(auto)]

mod cut_log;

pub use cut_log::CutLog;

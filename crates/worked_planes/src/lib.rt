//! Tests of logs of the second version, whose points have a column and a row, each through `run`.
//!
//! Begin with `planes.rt`: logs of the first version that are changed, logs at the limits, and the two halo
//! exchanges of the folder `examples` that are made by rule.
#![tactic(auto)]

#[cfg(test)]
mod planes;

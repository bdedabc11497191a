//! Worked examples of launch logs and of nested logs, as tests, each through the whole program.
#![tactic(auto)]

#[cfg(test)]
mod launched;
#[cfg(test)]
mod nests;

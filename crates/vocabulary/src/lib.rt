//! The names that most contracts and proofs over logs cite, passed on from one place: `specs/Prelude.antt`.
//!
//! It declares nothing, and has no code.
#![tactic(auto)]

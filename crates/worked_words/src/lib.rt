//! Tests of what stands round a log: the words of a command, `print`, sources and sinks that fail, and logs at the limits.
//!
//! Begin with `words.rt`. `devices.rt` has sources and sinks that fail, and `hostile.rt` logs at the limits.
#![tactic(auto)]

#[cfg(test)]
mod devices;
#[cfg(test)]
mod hostile;
#[cfg(test)]
mod printed;
#[cfg(test)]
mod words;

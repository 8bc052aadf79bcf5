//! Tests of the outside: files, streams, programs and the clock, in memory and of the system.
#![tactic(auto)]

#[cfg(test)]
mod ports;

//! Tests of whole runs: over memory, and over sources and sinks that fail.
//!
//! A crate of tests of its own, so that each library is proved once and its tests beside the crates above it. They see
//! what any caller sees. Expected values are from the specification and from a recording that is written out by hand.
#![tactic(auto)]

#[cfg(test)]
mod tests;

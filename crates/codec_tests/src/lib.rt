//! Tests of the crates that read and write payloads, cut frames and hold the requests that wait.
//!
//! A crate of tests of its own, so that each library is proved once and its tests beside the crates above it. They see
//! what any caller sees. Expected values are from the specification, or from ZooKeeper's own library for jute.
#![tactic(auto)]

#[cfg(test)]
mod tests;

//! Tests of the crates that judge whole conversations, leave operations out of them, write their lines and fields, and find the first impossible byte.
//!
//! A crate of tests of its own, so that each library is proved once and its tests beside the crates above it. They see
//! what any caller sees. Expected values are from the specification and the worked examples of docs/EXAMPLES.md.
#![tactic(auto)]

#[cfg(test)]
mod tests;

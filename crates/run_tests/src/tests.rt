//! The tests, and what they share.

mod adapters;
mod blocks;
mod devices;
mod engines;
mod examples;
mod memory;
mod said;
mod samples;
mod watching;
mod words;

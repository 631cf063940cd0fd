//! The tests, and what they share.

mod answers;
mod asks;
mod awaited;
mod examples;
mod frames;
mod jute;
mod records;
mod samples;
mod shared;
mod values;
mod waiting;

//! The tests, and what they share.

mod answers;
mod calls;
mod earliest;
mod examples;
mod frames;
mod growth;
mod library;
mod lines;
mod passage_offers;
mod resume;
mod speaker;
mod through;

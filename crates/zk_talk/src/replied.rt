//! `Replied`: the request that a reply answers.
use zk_records::Op;

/// A request to which a reply came.
#[derive(Clone, Copy)]
pub struct Replied {
    /// Its operation, by which the reply is read.
    pub op: Op,
    /// The number of its frame among the client's, from 0.
    pub frame: u64,
}

//! The records of the operations that a `Profile` has: headers, bodies, and the numbers and names of operations.
//!
//! Each record of zookeeper.jute is a struct of its fields, in jute's order, that is read and written by `zk_jute`'s
//! `Wire` and `View`. One with texts, blobs or lists is generic, as `CreateAskOf`, and has two names: the owned
//! `CreateAsk` and the borrowed `CreateAskRef`. `Own::own` copies the borrowed one into memory of its own.
//!
//! - Headers: `RequestHeader`, `ReplyHeader`, `MultiHeader`.
//! - Bodies of requests end in `Ask`, of replies in `Body`; both sides' first payloads are `ConnectRequest` and
//!   `ConnectResponse`; an event is a `WatcherEvent`.
//! - Numbers: `op_of` and `part_of` read an operation's number (`ZooDefs.OpCode`), `op_number` and `part_number` write
//!   it; a `Profile` says which operations requests may have.
//! - Names: `op_name`, `part_name`, `code_name` (`KeeperException.Code`), `event_name` (`Watcher.Event.EventType`).
//!
//! The crate rests on `zk_jute`.
//!
//! ```text
//! assert!(rt; op_of(Profile::V34, 15) == None); // create2 is of 3.5
//! assert!(rt; op_of(Profile::V35, 15) == Some(Op::Create2));
//! assert!(rt; code_name(-101) == Some("NONODE"));
//! ```
//!
//! # Choices
//!
//! **Records are nested pairs inside, and structs outside.** A pair's judge, view, copy and writer are proved once, so a
//! record needs no proof file: it is a `Record`, with the types of its fields in order, whose layout is compared with the
//! definition in `specs/Records.antt`. Code has its fields' names in one place, each with its kind: `fields_of!`. Macros
//! of this crate, `zk_lines`, `zk_fields` and `zk_earliest` go over them.
//!
//! **`Own::own` copies a borrowed value.** Owned and borrowed are two types in code and one in contracts, which the
//! trait can't know; so a ghost member, `same`, names the copy's value. The trait is in this crate because a list of
//! access rights is a type of `zk_jute` that holds one of `zk_records`.
//!
//! **Tables are data.** Names of errors and events are lists of number and name, and the calls search them, so every
//! other number has none. Operations have one line a row; a law says that no two share a number.
#![tactic(auto)]

mod acl;
mod ask;
mod body;
mod connect;
mod copies;
mod event;
mod fields;
mod header;
mod names;
mod op;
mod own;
mod profile;
mod query;
mod reconfig;
mod session;
mod stat;
mod watches;

pub use acl::{Acl, AclList, AclOf, AclRef, Id, IdOf, IdRef};
pub use ask::{
    CheckAsk, CheckAskOf, CheckAskRef, CreateAsk, CreateAskOf, CreateAskRef, CreateTtlAsk,
    CreateTtlAskOf, CreateTtlAskRef, DeleteAsk, DeleteAskOf, DeleteAskRef, SetAclAsk, SetAclAskOf,
    SetAclAskRef, SetDataAsk, SetDataAskOf, SetDataAskRef,
};
pub use body::{
    AclBody, AclBodyOf, AclBodyRef, ChildrenBody, ChildrenBodyOf, ChildrenBodyRef, CreateBody,
    CreateBodyOf, CreateBodyRef, DataBody, DataBodyOf, DataBodyRef,
};
pub use connect::{
    ConnectRequest, ConnectRequestOf, ConnectRequestRef, ConnectResponse, ConnectResponseOf,
    ConnectResponseRef,
};
pub use event::{WatcherEvent, WatcherEventOf, WatcherEventRef};
pub use header::{MultiHeader, ReplyHeader, RequestHeader};
pub use names::{code_name, event_name, op_name, part_name};
pub use op::{Op, PartOp, number_laws, op_number, op_of, part_number, part_of};
pub use own::{Own, copied};
pub use profile::{NEWEST, Profile};
pub use query::{PathAsk, PathAskOf, PathAskRef, WatchAsk, WatchAskOf, WatchAskRef};
pub use reconfig::{ReconfigAsk, ReconfigAskOf, ReconfigAskRef};
pub use session::{
    AuthAsk, AuthAskOf, AuthAskRef, SetWatchesAsk, SetWatchesAskOf, SetWatchesAskRef,
};
pub use stat::Stat;
pub use watches::{
    AddWatchAsk, AddWatchAskOf, AddWatchAskRef, WatchesAsk, WatchesAskOf, WatchesAskRef,
};

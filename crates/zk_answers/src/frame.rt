//! `ServerFrame`, `Reply`, `Body` and `PartDone`: what a server sends.
ghost use Rattle.std.specs.Prelude.{◌≡◌, ◌≢◌, ℤ, pos, MatchOption, IfSome, IfNone};
ghost use Rattle.zk_answers.specs.{Frames.op_of_reply, Rows.op_of_body};

use crate::done_list::DoneList;
use std::marker::Model;
use zk_jute::{Blob, BlobRef, Items, List, Text, TextList, TextRef};
use zk_records::{Acl, AclList, ConnectResponseOf, Op, Stat, WatcherEventOf};

/// The number of an error (ZooKeeper 3.4, `KeeperException.Code`): never 0.
#[derive(Clone, Copy, Debug)]
pub struct Failure {
    number: i32,
}

impl Model for Failure {
    ghost use Rattle.std.specs.Prelude.{ℤ, ◌≢◌, pos};

    ghost Value = { ℤ };

    ghost view = { λ f. f.number };

    ghost inverse = { λ n. record { number = n } };

    ghost invariant = { λ f. f.number ≢ pos 0 };
}

impl Failure {
    /// The error `number`; `None` for 0, which is no error.
    pub fn new(number: i32) -> Option<Self>
        ensures some { IfSome result (λ f. (f ≡ number) × (number ≢ pos 0)) }
        ensures none { IfNone result (number ≡ pos 0) }
    {
        if number == 0 {
            return None;
        }
        Some(Failure { number })
    }

    /// The error's number.
    pub fn number(&self) -> i32
        ensures value { result ≡ self.now }
        ensures failed { self.now ≢ pos 0 }
    {
        self.number
    }
}

/// The result of a part of a multi (`MultiResponse`): its record, or the number of an error, which may be 0.
#[derive(Debug, Drop)]
pub enum PartDoneOf<T> {
    /// A node was created; its path.
    Created(T),
    /// A node was deleted.
    Deleted,
    /// A node's data was set; its `Stat`.
    DataSet(Stat),
    /// A node had the version.
    Checked,
    /// The part failed or wasn't done; the number of the error.
    PartFailed(i32),
}

/// An owned `PartDone`.
pub type PartDone = PartDoneOf<Text>;

/// A borrowed `PartDone`.
pub type PartDoneRef<'a> = PartDoneOf<TextRef<'a>>;

/// The body of a reply without an error: the response records of zookeeper.jute, one for each operation.
#[derive(Debug, Drop)]
pub enum BodyOf<T, B, L, A, M> {
    Create { path: T },
    Delete,
    Exists { stat: Stat },
    GetData { blob: B, stat: Stat },
    SetData { stat: Stat },
    GetAcl { acl: A, stat: Stat },
    SetAcl { stat: Stat },
    GetChildren { names: L },
    Sync { path: T },
    Ping,
    GetChildren2 { names: L, stat: Stat },
    Multi(M),
    Create2 { path: T, stat: Stat },
    Auth,
    SetWatches,
    CloseSession,
    Reconfig { blob: B, stat: Stat },
    CheckWatches,
    RemoveWatches,
    CreateContainer { path: T, stat: Stat },
    CreateTtl { path: T, stat: Stat },
    GetEphemerals { names: L },
    GetAllChildrenNumber { count: i32 },
    AddWatch { code: i32 },
}

/// An owned `Body`.
pub type Body = BodyOf<Text, Blob, List<Text>, List<Acl>, Items<PartDone>>;

/// A borrowed `Body`.
pub type BodyRef<'a> = BodyOf<TextRef<'a>, BlobRef<'a>, TextList<'a>, AclList<'a>, DoneList<'a>>;

/// The outcome of a request: its body, or an error.
#[derive(Debug, Drop)]
pub enum OutcomeOf<D> {
    /// Nothing failed; the body.
    Done(D),
    /// The request of this operation failed, by this error.
    Failed(Op, Failure),
}

/// An owned `Outcome`.
pub type Outcome = OutcomeOf<Body>;

/// A borrowed `Outcome`.
pub type OutcomeRef<'a> = OutcomeOf<BodyRef<'a>>;

/// A reply to a request: what its `ReplyHeader` has, and its body or its error.
#[derive(Debug, Drop)]
pub struct ReplyOf<D> {
    /// The xid of the request.
    pub xid: i32,
    /// The zxid of the last transaction that the server had processed.
    pub zxid: i64,
    /// The body, or the error.
    pub outcome: OutcomeOf<D>,
}

/// An owned `Reply`.
pub type Reply = ReplyOf<Body>;

/// A borrowed `Reply`.
pub type ReplyRef<'a> = ReplyOf<BodyRef<'a>>;

/// What a server sends in one frame (`ClientCnxn.SendThread.readResponse`).
#[derive(Debug, Drop)]
pub enum ServerFrameOf<T, B, D> {
    /// The reply to the connect request, and a boolean that old servers leave out: whether the server is read-only.
    Connected {
        hello: ConnectResponseOf<B>,
        read_only: Option<bool>,
    },
    /// The reply to a request.
    Answered(ReplyOf<D>),
    /// An event, which answers no request: a change that a watch saw.
    Event {
        zxid: i64,
        event: WatcherEventOf<T>,
    },
}

/// An owned `ServerFrame`.
pub type ServerFrame = ServerFrameOf<Text, Blob, Body>;

/// A borrowed `ServerFrame`.
pub type ServerRef<'a> = ServerFrameOf<TextRef<'a>, BlobRef<'a>, BodyRef<'a>>;

/// `body_rows!(row, with)` is `row!(with: ..; ..; ..)` with the operations whose replies have one field, by its name here,
/// its name in jute and its kind, as in `fields_of!`; those that have a field and a `Stat`, by that field and the record
/// of both, borrowed; and those that have nothing. A multi has its results.
#[macro_export]
macro_rules! body_rows {
    ($row:ident, $($with:tt)+) => {
        $row!(
            $($with)+:
            Create | Sync: path PATH text,
            Exists | SetData | SetAcl: stat NONE stat,
            GetChildren | GetEphemerals: names CHILDREN texts,
            GetAllChildrenNumber: count COUNT int,
            AddWatch: code CODE int;
            GetData: blob DATA blob DataBodyRef,
            GetAcl: acl ACL rights AclBodyRef,
            GetChildren2: names CHILDREN texts ChildrenBodyRef,
            Create2: path PATH text CreateBodyRef,
            Reconfig: blob DATA blob DataBodyRef,
            CreateContainer: path PATH text CreateBodyRef,
            CreateTtl: path PATH text CreateBodyRef;
            Delete | Ping | Auth | SetWatches | CloseSession | CheckWatches | RemoveWatches
        )
    };
}

fn op_of<T, B, L, A, M>(body: &BodyOf<T, B, L, A, M>) -> Op
    ensures { result ≡ op_of_body body.now }
{
    macro_rules! row {
        ($body:ident: $($($one:ident)|+: $only:ident $name:ident $kind:ident),+;
         $($both:ident: $first:ident $first_name:ident $first_kind:ident $borrowed:ident),+; $($bare:ident)|+) => {
            match $body {
                $($(BodyOf::$one { .. } => Op::$one,)+)+
                $(BodyOf::$both { .. } => Op::$both,)+
                $(BodyOf::$bare => Op::$bare,)+
                BodyOf::Multi(_) => Op::Multi,
            }
        };
    }
    body_rows!(row, body)
}

impl<T, B, L, A, M> ReplyOf<BodyOf<T, B, L, A, M>> {
    /// The operation that is replied to.
    pub fn op(&self) -> Op
        ensures { result ≡ op_of_reply self.now }
    {
        match &self.outcome {
            OutcomeOf::Done(body) => op_of(body),
            OutcomeOf::Failed(op, _) => *op,
        }
    }
}

//! `ClientFrame`, `Ask` and `Part`: what a client sends, a connect request and then requests.
ghost use Rattle.std.specs.Prelude.{◌≡◌};
ghost use Rattle.zk_asks.specs.{Parts.op_of_part, Rows.op_of_ask, Frames.parts_of_ask};

use crate::part_list::PartList;
use zk_jute::{Blob, BlobRef, Items, List, Text, TextList, TextRef};
use zk_records::{
    Acl, AclList, AddWatchAskOf, AuthAskOf, CheckAskOf, ConnectRequestOf, CreateAskOf,
    CreateTtlAskOf, DeleteAskOf, Op, PartOp, PathAskOf, ReconfigAskOf, SetAclAskOf, SetDataAskOf,
    SetWatchesAskOf, WatchAskOf, WatchesAskOf,
};

/// `part_rows!(row, with)` is `row!(with: Create: CreateAsk CreateAskRef, ..)` with the operations that a part may have, by
/// the record, and by what it is where it is borrowed.
#[macro_export]
macro_rules! part_rows {
    ($row:ident, $($with:tt)+) => {
        $row!(
            $($with)+:
            Create: CreateAsk CreateAskRef,
            Delete: DeleteAsk DeleteAskRef,
            SetData: SetDataAsk SetDataAskRef,
            Check: CheckAsk CheckAskRef
        )
    };
}

/// A part of a multi, without its `MultiHeader`: the record of its operation (`MultiTransactionRecord`).
#[derive(Debug, Drop)]
pub enum PartOf<T, B, A> {
    Create(CreateAskOf<T, B, A>),
    Delete(DeleteAskOf<T>),
    SetData(SetDataAskOf<T, B>),
    Check(CheckAskOf<T>),
}

/// An owned `Part`.
pub type Part = PartOf<Text, Blob, List<Acl>>;

/// A borrowed `Part`.
pub type PartRef<'a> = PartOf<TextRef<'a>, BlobRef<'a>, AclList<'a>>;

impl<T, B, A> PartOf<T, B, A> {
    /// The part's operation.
    pub fn op(&self) -> PartOp
        ensures { result ≡ op_of_part self.now }
    {
        macro_rules! row {
            ($part:ident: $($op:ident: $record:ident $borrowed:ident),+) => {
                match $part {
                    $(PartOf::$op(_) => PartOp::$op,)+
                }
            };
        }
        part_rows!(row, self)
    }
}

/// A request without its header: the record of its operation, by the operations of `ZooDefs.OpCode`.
#[derive(Debug, Drop)]
pub enum AskOf<T, B, L, A, M> {
    Create(CreateAskOf<T, B, A>),
    Delete(DeleteAskOf<T>),
    Exists(WatchAskOf<T>),
    GetData(WatchAskOf<T>),
    SetData(SetDataAskOf<T, B>),
    GetAcl(PathAskOf<T>),
    SetAcl(SetAclAskOf<T, A>),
    GetChildren(WatchAskOf<T>),
    Sync(PathAskOf<T>),
    Ping,
    GetChildren2(WatchAskOf<T>),
    Multi(M),
    Create2(CreateAskOf<T, B, A>),
    Auth(AuthAskOf<T, B>),
    SetWatches(SetWatchesAskOf<L>),
    CloseSession,
    Reconfig(ReconfigAskOf<T>),
    CheckWatches(WatchesAskOf<T>),
    RemoveWatches(WatchesAskOf<T>),
    CreateContainer(CreateAskOf<T, B, A>),
    CreateTtl(CreateTtlAskOf<T, B, A>),
    GetEphemerals(PathAskOf<T>),
    GetAllChildrenNumber(PathAskOf<T>),
    AddWatch(AddWatchAskOf<T>),
}

/// An owned `Ask`.
pub type Ask = AskOf<Text, Blob, List<Text>, List<Acl>, Items<Part>>;

/// A borrowed `Ask`.
pub type AskRef<'a> = AskOf<TextRef<'a>, BlobRef<'a>, TextList<'a>, AclList<'a>, PartList<'a>>;

/// `ask_rows!(row, with)` is `row!(with: ..; ..)` with the operations whose requests have a record, by the record, and by
/// what it is where it is borrowed; and those whose requests have nothing. A multi has its parts.
#[macro_export]
macro_rules! ask_rows {
    ($row:ident, $($with:tt)+) => {
        $row!(
            $($with)+:
            Create | Create2 | CreateContainer: CreateAsk CreateAskRef,
            CreateTtl: CreateTtlAsk CreateTtlAskRef,
            Delete: DeleteAsk DeleteAskRef,
            Exists | GetData | GetChildren | GetChildren2: WatchAsk WatchAskRef,
            SetData: SetDataAsk SetDataAskRef,
            GetAcl | Sync | GetEphemerals | GetAllChildrenNumber: PathAsk PathAskRef,
            SetAcl: SetAclAsk SetAclAskRef,
            Auth: AuthAsk AuthAskRef,
            SetWatches: SetWatchesAsk SetWatchesAskRef,
            CheckWatches | RemoveWatches: WatchesAsk WatchesAskRef,
            AddWatch: AddWatchAsk AddWatchAskRef,
            Reconfig: ReconfigAsk ReconfigAskRef;
            Ping | CloseSession
        )
    };
}

impl<T, B, L, A, M> AskOf<T, B, L, A, M> {
    /// The request's operation.
    pub fn op(&self) -> Op
        ensures { result ≡ op_of_ask self.now }
    {
        macro_rules! row {
            ($ask:ident: $($($held:ident)|+: $record:ident $borrowed:ident),+; $($bare:ident)|+) => {
                match $ask {
                    $($(AskOf::$held(_) => Op::$held,)+)+
                    $(AskOf::$bare => Op::$bare,)+
                    AskOf::Multi(_) => Op::Multi,
                }
            };
        }
        ask_rows!(row, self)
    }
}

impl<T, B, L, A, P> AskOf<T, B, L, A, Items<P>> {
    /// The parts of a multi, in order; nothing else has any.
    pub fn parts(&self) -> &[P]
        ensures { result.now ≡ parts_of_ask self.now }
    {
        match self {
            AskOf::Multi(parts) => parts.as_slice(),
            _ => &[],
        }
    }
}

/// What a client sends in one frame (`ClientCnxn`).
#[derive(Debug, Drop)]
pub enum ClientFrameOf<B, A> {
    /// The connect request, and the boolean that newer clients write after it: whether a read-only server will do.
    Connect {
        hello: ConnectRequestOf<B>,
        read_only: Option<bool>,
    },
    /// A request, with the xid that its reply repeats.
    Ask {
        xid: i32,
        ask: A,
    },
}

/// An owned `ClientFrame`.
pub type ClientFrame = ClientFrameOf<Blob, Ask>;

/// A borrowed `ClientFrame`.
pub type ClientRef<'a> = ClientFrameOf<BlobRef<'a>, AskRef<'a>>;

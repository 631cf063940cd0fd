//! The names of operations, errors and types of events.
//!
//! They are those of `ZooDefs.OpCode`, `KeeperException.Code` and `Watcher.Event.EventType` of ZooKeeper 3.4, and
//! those of later operations that a [`Profile`](crate::Profile) has.
ghost use Rattle.std.specs.Prelude.{◌≡◌, option_copied};
ghost use Rattle.zk_records.specs.Codes as codes;
ghost use Rattle.zk_records.specs.Names as names;

use crate::op::{Op, PartOp};
use crate::{op_rows, part_codes};

/// The name of the operation `op`: that of its number in `ZooDefs.OpCode`.
pub fn op_name(op: Op) -> &'static str
    ensures { result.now ≡ codes.op_name op }
{
    macro_rules! row {
        ($of:ident: $($release:ident: $($op:ident $code:literal $name:literal),+);+) => {
            match $of {
                $($(Op::$op => $name,)+)+
            }
        };
    }
    op_rows!(row, op)
}

/// The name of a part's operation `op`: that of its number in `ZooDefs.OpCode`.
pub fn part_name(op: PartOp) -> &'static str
    ensures { result.now ≡ codes.part_name op }
{
    macro_rules! row {
        ($of:ident: $($op:ident $code:literal $name:literal),+) => {
            match $of {
                $(PartOp::$op => $name,)+
            }
        };
    }
    part_codes!(row, op)
}

/// The name of the error `code`; `None` if `KeeperException.Code` has no such number.
pub fn code_name(code: i32) -> Option<&'static str>
    ensures { option_copied result ≡ names.code_name code }
{
    match code {
        0 => Some("OK"),
        -1 => Some("SYSTEMERROR"),
        -2 => Some("RUNTIMEINCONSISTENCY"),
        -3 => Some("DATAINCONSISTENCY"),
        -4 => Some("CONNECTIONLOSS"),
        -5 => Some("MARSHALLINGERROR"),
        -6 => Some("UNIMPLEMENTED"),
        -7 => Some("OPERATIONTIMEOUT"),
        -8 => Some("BADARGUMENTS"),
        -100 => Some("APIERROR"),
        -101 => Some("NONODE"),
        -102 => Some("NOAUTH"),
        -103 => Some("BADVERSION"),
        -108 => Some("NOCHILDRENFOREPHEMERALS"),
        -110 => Some("NODEEXISTS"),
        -111 => Some("NOTEMPTY"),
        -112 => Some("SESSIONEXPIRED"),
        -113 => Some("INVALIDCALLBACK"),
        -114 => Some("INVALIDACL"),
        -115 => Some("AUTHFAILED"),
        -118 => Some("SESSIONMOVED"),
        -119 => Some("NOTREADONLY"),
        _ => None,
    }
}

/// The name of the type `kind` of an event; `None` if `Watcher.Event.EventType` has no such number.
pub fn event_name(kind: i32) -> Option<&'static str>
    ensures { option_copied result ≡ names.event_name kind }
{
    match kind {
        -1 => Some("None"),
        1 => Some("NodeCreated"),
        2 => Some("NodeDeleted"),
        3 => Some("NodeDataChanged"),
        4 => Some("NodeChildrenChanged"),
        _ => None,
    }
}

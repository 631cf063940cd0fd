//! The numbers of operations: those of `ZooDefs.OpCode` that a `Profile` has.
ghost use Rattle.std.specs.Prelude.{◌≡◌, ◌≢◌, ◌↔◌, pos, MatchOption};
ghost use Rattle.zk_records.specs.Codes as codes;
ghost use Rattle.zk_records.specs.{declared.op.Op.Op, declared.op.PartOp.PartOp};
ghost use Rattle.zk_records.specs.declared.profile.Profile.TheVariants as profiles;

use crate::profile::{NEWEST, Profile};

/// An operation outside a multi, by its name in `ZooDefs.OpCode`.
#[derive(Clone, Copy, Debug, PartialEq, Eq)]
pub enum Op {
    Create,
    Delete,
    Exists,
    GetData,
    SetData,
    GetAcl,
    SetAcl,
    GetChildren,
    Sync,
    Ping,
    GetChildren2,
    Multi,
    Create2,
    Auth,
    SetWatches,
    CloseSession,
    Reconfig,
    CheckWatches,
    RemoveWatches,
    CreateContainer,
    CreateTtl,
    GetEphemerals,
    GetAllChildrenNumber,
    AddWatch,
}

/// An operation within a multi, by its name in `ZooDefs.OpCode`.
#[derive(Clone, Copy, Debug, PartialEq, Eq)]
pub enum PartOp {
    Create,
    Delete,
    SetData,
    Check,
}

/// `op_rows!(row, with)` is `row!(with: V34: ..; V35: ..; V37: ..)` with the number and the name of each operation in
/// `ZooDefs.OpCode`, by the first profile that has it.
#[macro_export]
macro_rules! op_rows {
    ($row:ident, $($with:tt)+) => {
        $row!(
            $($with)+:
            V34:
            Create 1 "create",
            Delete 2 "delete",
            Exists 3 "exists",
            GetData 4 "getData",
            SetData 5 "setData",
            GetAcl 6 "getACL",
            SetAcl 7 "setACL",
            GetChildren 8 "getChildren",
            Sync 9 "sync",
            Ping 11 "ping",
            GetChildren2 12 "getChildren2",
            Multi 14 "multi",
            Auth 100 "auth",
            SetWatches 101 "setWatches",
            CloseSession -11 "closeSession";
            V35:
            Create2 15 "create2";
            V37:
            Reconfig 16 "reconfig",
            CheckWatches 17 "checkWatches",
            RemoveWatches 18 "removeWatches",
            CreateContainer 19 "createContainer",
            CreateTtl 21 "createTTL",
            GetEphemerals 103 "getEphemerals",
            GetAllChildrenNumber 104 "getAllChildrenNumber",
            AddWatch 106 "addWatch"
        )
    };
}

/// `part_codes!(row, with)` is `row!(with: ..)` with the number and the name of each part's operation in `ZooDefs.OpCode`.
#[macro_export]
macro_rules! part_codes {
    ($row:ident, $($with:tt)+) => {
        $row!($($with)+: Create 1 "create", Delete 2 "delete", SetData 5 "setData", Check 13 "check")
    };
}

/// The operation that `number`, a request header's type, is under `profile`; `None` if the profile has none of it.
#[inline(always)]
pub fn op_of(profile: Profile, number: i32) -> Option<Op>
    ensures { MatchOption result (codes.IsNoOp profile number) (λ op. codes.HasOp profile op × (number ≡ codes.op_number op)) }
{
    macro_rules! row {
        ($number:ident $profile:ident: V34: $($op:ident $code:literal $name:literal),+;
         $($release:ident: $($newer:ident $later:literal $named:literal),+);+) => {
            match $number {
                $($code => Some(Op::$op),)+
                $($($later if $profile.is_since(Profile::$release) => Some(Op::$newer),)+)+
                _ => None,
            }
        };
    }
    op_rows!(row, number profile)
}

/// The number of `op` in a request header.
pub fn op_number(op: Op) -> i32
    ensures { result ≡ codes.op_number op }
{
    macro_rules! row {
        ($of:ident: $($release:ident: $($op:ident $code:literal $name:literal),+);+) => {
            match $of {
                $($(Op::$op => $code,)+)+
            }
        };
    }
    op_rows!(row, op)
}

/// The part's operation that `kind`, a multi header's type, is; `None` if it is no part's.
pub fn part_of(kind: i32) -> Option<PartOp>
    ensures { MatchOption result ((op : PartOp) → kind ≢ codes.part_number op) (λ op. kind ≡ codes.part_number op) }
{
    macro_rules! row {
        ($number:ident: $($op:ident $code:literal $name:literal),+) => {
            match $number {
                $($code => Some(PartOp::$op),)+
                _ => None,
            }
        };
    }
    part_codes!(row, kind)
}

/// The number of the part's operation `op` in a multi header.
pub fn part_number(op: PartOp) -> i32
    ensures { result ≡ codes.part_number op }
{
    macro_rules! row {
        ($of:ident: $($op:ident $code:literal $name:literal),+) => {
            match $of {
                $(PartOp::$op => $code,)+
            }
        };
    }
    part_codes!(row, op)
}

/// Each operation and each part has a number of its own, which is read back as it: under the newest profile each
/// operation's, under 3.4 each of 3.5's but 15. The function does nothing.
pub fn number_laws()
    ensures op { (a b : Op) → codes.op_number a ≡ codes.op_number b → a ≡ b }
    ensures older { (op : Op) → codes.HasOp profiles.V35 op → codes.HasOp profiles.V34 op ↔ (codes.op_number op ≢ pos 15) }
    ensures newest { (op : Op) → codes.HasOp NEWEST op }
    ensures part { (a b : PartOp) → codes.part_number a ≡ codes.part_number b → a ≡ b }
{}

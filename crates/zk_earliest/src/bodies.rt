//! `earliest`, and the bodies of each layout as the fields of their records in `zookeeper.jute`.
ghost use Rattle.std.specs.Prelude.{◌≢◌, ◌<◌, ◌^◌, length};
ghost use Rattle.zk_jute.specs.Layout.{End, IsValueOf};
ghost use Rattle.zk_records.specs.declared.op.Op.TheVariants as ops;
ghost use Rattle.zk_answers.specs.declared.layout.Layout.TheVariants as layouts;
ghost use Rattle.zk_earliest.specs.Earliest.{Spells, IsEarliest, IsEarliestOf};

use crate::first_impossible::longest;
use crate::multi::longest_multi;
use zk_answers::{Layout, body_rows};
use zk_asks::ask_rows;
use zk_jute::{Blob, List, Text};
use zk_records::{Op, fields_of};

/// The owned type of a field by its kind; of a record within another, the nested pairs of its fields.
macro_rules! value {
    (int) => { i32 };
    (long) => { i64 };
    (boolean) => { bool };
    (text) => { Text };
    (blob) => { Blob };
    (texts) => { List<Text> };
    (rights) => { List<fields_of!(Acl, values, type)> };
    (id) => { fields_of!(Id, values, type) };
    (stat) => { fields_of!(Stat, values, type) };
}

/// `fields_of!(R, values, type)` is the nested pairs of the types of the record's fields.
macro_rules! values {
    (type: $last:ident $name:ident $kind:ident) => { value!($kind) };
    (type: $first:ident $name:ident $kind:ident, $($rest:tt)+) => { (value!($kind), values!(type: $($rest)+)) };
}

pub(crate) use value;
pub(crate) use values;

/// The answer for a body of no bytes.
fn none(bytes: &[u8]) -> Option<usize>
    ensures { IsEarliest (Spells (IsValueOf End)) bytes.now result }
{
    if bytes.is_empty() { Some(0) } else { None }
}

#[tactic(auto, using(crate::proofs::Known::of_asked, crate::proofs::Known::of_multi))]
fn asked(op: Op, bytes: &[u8]) -> Option<usize>
    requires { length bytes.now < 2 ^ 31 }
    ensures { IsEarliestOf (layouts.Asked op) bytes.now result }
{
    macro_rules! row {
        ($op:ident: $($($held:ident)|+: $record:ident $borrowed:ident),+; $($bare:ident)|+) => {
            match $op {
                $($(Op::$held => longest::<fields_of!($record, values, type)>(bytes),)+)+
                $(Op::$bare => none(bytes),)+
                Op::Multi => longest_multi(bytes),
            }
        };
    }
    ask_rows!(row, op)
}

#[tactic(auto, using(crate::proofs::Known::of_answered))]
fn answered(op: Op, bytes: &[u8]) -> Option<usize>
    requires frame { length bytes.now < 2 ^ 31 }
    requires known { op ≢ ops.Multi }
    ensures { IsEarliestOf (layouts.Answered op) bytes.now result }
{
    macro_rules! row {
        ($op:ident: $($($one:ident)|+: $only:ident $name:ident $kind:ident),+;
         $($both:ident: $first:ident $first_name:ident $first_kind:ident $borrowed:ident),+; $($bare:ident)|+) => {
            match $op {
                $($(Op::$one => longest::<value!($kind)>(bytes),)+)+
                $(Op::$both => longest::<(value!($first_kind), value!(stat))>(bytes),)+
                $(Op::$bare => none(bytes),)+
                Op::Multi => None,
            }
        };
    }
    body_rows!(row, op)
}

/// The number of bytes at the front of `bytes` that a body of `layout` with just that many bytes in all can begin with,
/// at the most; `None` if no such body has the length of `bytes`. So the byte after them is the first impossible one.
#[tactic(auto, using(crate::proofs::Known::of_layout, crate::proofs::Known::of_record))]
pub fn earliest(layout: Layout, bytes: &[u8]) -> Option<usize>
    requires frame { length bytes.now < 2 ^ 31 }
    // The results of a multi have the layout of its request's parts, which isn't known here.
    requires known { layout ≢ layouts.Answered ops.Multi }
    ensures { IsEarliestOf layout bytes.now result }
{
    match layout {
        Layout::Connect => longest::<fields_of!(ConnectRequest, values, type)>(bytes),
        Layout::ConnectRo => longest::<(fields_of!(ConnectRequest, values, type), bool)>(bytes),
        Layout::Connected => longest::<fields_of!(ConnectResponse, values, type)>(bytes),
        Layout::ConnectedRo => longest::<(fields_of!(ConnectResponse, values, type), bool)>(bytes),
        Layout::Asked(op) => asked(op, bytes),
        Layout::Answered(op) => answered(op, bytes),
        Layout::Event => longest::<fields_of!(WatcherEvent, values, type)>(bytes),
    }
}

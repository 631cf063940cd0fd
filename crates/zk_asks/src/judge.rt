//! `judge_ask`: a client's later payload, judged by where its record ends; no frame is made.
ghost use Rattle.std.specs.Prelude.{◌≡◌, ◌≤◌, ◌<◌, ◌^◌, ℤ, List, length, IfOk, IfErr};
ghost use Rattle.zk_asks.specs.{Held.Part, Faults.IsAskFault, Faults.IsBodyFault, Rows.Fields, Rows.body_of, Fronts.IsHeadAt, Fronts.IsOutlined, Fronts.IsBodyWith, Fronts.IsMultiOf};
ghost use Rattle.zk_jute.specs.{Told.IsSurelyTold, Told.IsSurelyToldAt, Verdict.Says};

use crate::allowed_xids::allowed;
use crate::ask_rows;
use crate::part_list::multi_end;
use crate::request::MultiRef;
use zk_jute::{Ends, Reason, Sequence, Verdict, read_ref};
use zk_records::{
    AddWatchAskRef, AuthAskRef, CreateAskRef, CreateTtlAskRef, DeleteAskRef, Op, PathAskRef,
    Profile, ReconfigAskRef, RequestHeader, SetAclAskRef, SetDataAskRef, SetWatchesAskRef,
    WatchAskRef, WatchesAskRef, op_of,
};

/// The bytes of a request's header.
pub(crate) const HEADER: usize = 8;

/// A request reduced to what its reply is read by, in numbers: its parts, if it has some, are read again from the payload.
#[derive(Clone, Copy, Debug)]
pub struct Outline {
    /// The xid of its `RequestHeader`.
    pub xid: i32,
    /// The operation that the header's type is.
    pub op: Op,
    /// How many parts a multi has; 0 of another request.
    pub parts: usize,
}

/// The number of parts in the body of a request of `op` at `place`, which is a record `R` and has none, and the place
/// after it.
#[inline(always)]
fn record_end<R: Ends, V: Verdict>(
    payload: &[u8],
    place: usize,
    op: Op,
) -> Result<(usize, usize), V>
    requires within { place ≤ length payload.now }
    requires record { body_of op ≡ Fields R.wired.layout }
    ensures found { IfOk result (λ x. IsBodyWith op x.0 payload.now place x.1) }
    ensures fault { IfErr result (Says V.tells (IsSurelyToldAt (IsBodyFault op) payload.now place)) }
    ensures within { IfOk result (λ x. x.1 ≤ length payload.now) }
{
    match R::end::<V>(payload, place) {
        Ok(end) => Ok((0, end)),
        Err(verdict) => Err(verdict),
    }
}

/// The number of parts in the body of a request of `op` at `place`, and the place after it.
#[inline(always)]
fn body_end<V: Verdict>(payload: &[u8], place: usize, op: Op) -> Result<(usize, usize), V>
    requires { place ≤ length payload.now }
    ensures found { IfOk result (λ x. IsBodyWith op x.0 payload.now place x.1) }
    ensures fault { IfErr result (Says V.tells (IsSurelyToldAt (IsBodyFault op) payload.now place)) }
    ensures within { IfOk result (λ x. x.1 ≤ length payload.now) }
{
    macro_rules! row {
        ($op:ident: $($($held:ident)|+: $record:ident $borrowed:ident),+; $($bare:ident)|+) => {
            match $op {
                $($(Op::$held)|+ => record_end::<$borrowed, V>(payload, place, op),)+
                $(Op::$bare)|+ => Ok((0, place)),
                Op::Multi => multi_end::<V>(payload, place),
            }
        };
    }
    ask_rows!(row, op)
}

/// The xid and the operation that a later payload of a client begins with, which may go together, and the place after its
/// header.
#[inline(always)]
fn asked_head<V: Verdict>(profile: Profile, payload: &[u8]) -> Result<(i32, Op, usize), V>
    ensures found { IfOk result (λ r. IsHeadAt profile r.0 r.1 payload.now r.2) }
    ensures fault { IfErr result (Says V.tells (IsSurelyTold (IsAskFault profile payload.now))) }
    ensures within { IfOk result (λ r. r.2 ≤ length payload.now) }
{
    let (header, place) = V::on(read_ref::<RequestHeader>(payload, 0))?;
    let Some(op) = op_of(profile, header.kind) else {
        return Err(V::at(4, Reason::UnknownOp));
    };
    if !allowed(header.xid, op) {
        return Err(V::at(4, Reason::XidOp));
    }
    Ok((header.xid, op, place))
}

/// The outline of `payload`, a later one of a client, if it is a request of the profile.
///
/// # Errors
///
/// The fault that `borrow_ask` returns, where `V` is `ItemFault`; `Undecided` says nothing.
#[inline(always)]
pub fn judge_ask<V: Verdict>(profile: Profile, payload: &[u8]) -> Result<Outline, V>
    ensures found { IfOk result (λ o. IsOutlined profile o payload.now) }
    ensures fault { IfErr result (Says V.tells (IsSurelyTold (IsAskFault profile payload.now))) }
{
    let (xid, op, place) = asked_head::<V>(profile, payload)?;
    let (parts, end) = body_end::<V>(payload, place, op)?;
    if end < payload.len() {
        return Err(V::at(end, Reason::Trailing));
    }
    Ok(Outline { xid, op, parts })
}

/// The multi that `payload` was judged to be, of `count` parts.
pub fn judged_multi(payload: &[u8], count: usize) -> MultiRef<'_>
    requires few { count < 2 ^ 32 }
    requires multi { (xid : ℤ) × (ds : List Part) × IsMultiOf xid ds payload.now × (length ds ≡ count) }
    ensures { (xid : ℤ) (ds : List Part) → IsMultiOf xid ds payload.now → result.list ≡ ds }
{
    MultiRef {
        list: Sequence::known(payload, count, HEADER),
    }
}

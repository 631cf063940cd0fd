//! `client_ref`, `written_ref`, `judged_ref`: payloads known to be a client's frames, borrowed without a judgement.
ghost use Rattle.std.specs.Prelude.{◌≡◌, ◌≤◌, ℕ, length, Some};
ghost use Rattle.zk_jute.specs.{Item.HaveBytes, Told.StandsAt, Standing.OneStands};
ghost use Rattle.zk_asks.specs.{Held.Ask, Held.ClientFrame, Rows.row_of, Rows.items_in, Rows.op_of_ask, Rows.body_items, Frames.IsLater, Frames.IsSent, Frames.IsTurn};
ghost use Rattle.zk_asks.specs.Frames as frames;
ghost use Rattle.zk_asks.specs.Fronts.{asking_of};

use crate::ask_rows;
use crate::frame::{AskOf, AskRef, ClientFrameOf, ClientRef};
use crate::judge::{HEADER, Outline};
use crate::multi::known_multi;
use zk_jute::{Sequence, known_at, known_flagged};
use zk_records::{
    AddWatchAskRef, AuthAskRef, CreateAskRef, CreateTtlAskRef, DeleteAskRef, NEWEST, Op,
    PathAskRef, ReconfigAskRef, RequestHeader, SetAclAskRef, SetDataAskRef, SetWatchesAskRef,
    WatchAskRef, WatchesAskRef, op_of,
};

/// The callers of `body_there`: each has an instance of its own, which is inlined, since a call would cost a view.
const VIEWED: u8 = 0;

const WRITTEN: u8 = 1;

const JUDGED: u8 = 2;

/// The record of the operation `op` that is known to be at `place`. `FOR` is the caller.
fn body_there<'a, const FOR: u8>(payload: &'a [u8], place: usize, op: Op) -> AskRef<'a>
    requires within { place ≤ length payload.now }
    requires stands { OneStands (items_in (row_of op)) payload.now place }
    ensures { (a : Ask) (end : ℕ) → op_of_ask a ≡ op → HaveBytes (body_items a) → StandsAt (body_items a) payload.now place end → result ≡ a }
{
    macro_rules! row {
        ($op:ident: $($($held:ident)|+: $record:ident $borrowed:ident),+; $($bare:ident)|+) => {
            match $op {
                $($(Op::$held => AskOf::$held(known_at::<$borrowed>(payload, place).0),)+)+
                $(Op::$bare => AskOf::$bare,)+
                Op::Multi => AskOf::Multi(known_multi(payload, place)),
            }
        };
    }
    ask_rows!(row, op)
}

/// The request that the payload is known to be. `FOR` is the caller.
#[inline(always)]
fn known_ask<'a, const FOR: u8>(payload: &'a [u8]) -> ClientRef<'a>
    requires { (f : ClientFrame) × IsLater f × HaveBytes (frames.frame_items f) × (payload.now ≡ frames.payload f) }
    ensures { (f : ClientFrame) → IsLater f → HaveBytes (frames.frame_items f) → payload.now ≡ frames.payload f → result ≡ f }
{
    let (header, place) = known_at::<RequestHeader>(payload, 0);
    let op = op_of(NEWEST, header.kind).unwrap();
    let ask = body_there::<FOR>(payload, place, op);
    ClientFrameOf::Ask {
        xid: header.xid,
        ask,
    }
}

/// The client's `first` frame or a later one that `payload` is known to be. `FOR` is the caller.
#[inline(always)]
fn known_client<const FOR: u8>(first: bool, payload: &[u8]) -> ClientRef<'_>
    requires { (f : ClientFrame) × IsTurn first f × HaveBytes (frames.frame_items f) × (payload.now ≡ frames.payload f) }
    ensures { (f : ClientFrame) → IsTurn first f → HaveBytes (frames.frame_items f) → payload.now ≡ frames.payload f → result ≡ f }
{
    if first {
        let (hello, read_only) = known_flagged(payload);
        ClientFrameOf::Connect { hello, read_only }
    } else {
        known_ask::<FOR>(payload)
    }
}

/// The frame that `payload` is known to be, the client's `first` one or a later one, borrowed. Nothing is allocated, and
/// nothing is judged again.
#[inline(always)]
pub fn client_ref(first: bool, payload: &[u8]) -> ClientRef<'_>
    requires { (f : ClientFrame) × IsTurn first f × HaveBytes (frames.frame_items f) × (payload.now ≡ frames.payload f) }
    // Whether a client may send it or not.
    ensures { (f : ClientFrame) → IsTurn first f → HaveBytes (frames.frame_items f) → payload.now ≡ frames.payload f → result ≡ f }
{
    known_client::<VIEWED>(first, payload)
}

/// As `client_ref`, of a payload that was written just now.
pub fn written_ref(first: bool, payload: &[u8]) -> ClientRef<'_>
    requires { (f : ClientFrame) × IsTurn first f × HaveBytes (frames.frame_items f) × (payload.now ≡ frames.payload f) }
    ensures { (f : ClientFrame) → IsTurn first f → HaveBytes (frames.frame_items f) → payload.now ≡ frames.payload f → result ≡ f }
{
    known_client::<WRITTEN>(first, payload)
}

/// The request that the payload was judged to be. Its header isn't read again, and a multi's parts aren't walked.
pub(crate) fn judged_request<'a>(payload: &'a [u8], outline: Outline) -> ClientRef<'a>
    requires { (f : ClientFrame) × (asking_of f ≡ Some outline) × IsSent f × (payload.now ≡ frames.payload f) }
    ensures { (f : ClientFrame) → asking_of f ≡ Some outline → IsSent f → payload.now ≡ frames.payload f → result ≡ f }
{
    match outline.op {
        Op::Multi => ClientFrameOf::Ask {
            xid: outline.xid,
            ask: AskOf::Multi(Sequence::known(payload, outline.parts, HEADER)),
        },
        op => ClientFrameOf::Ask {
            xid: outline.xid,
            ask: body_there::<JUDGED>(payload, HEADER, op),
        },
    }
}

/// The frame that `payload` was judged to be, and which asks `asked`, borrowed. As `client_ref`.
pub fn judged_ref(asked: Option<Outline>, payload: &[u8]) -> ClientRef<'_>
    requires { (f : ClientFrame) × (asking_of f ≡ asked) × IsSent f × (payload.now ≡ frames.payload f) }
    ensures { (f : ClientFrame) → asking_of f ≡ asked → IsSent f → payload.now ≡ frames.payload f → result ≡ f }
{
    match asked {
        Some(outline) => judged_request(payload, outline),
        None => {
            let (hello, read_only) = known_flagged(payload);
            ClientFrameOf::Connect { hello, read_only }
        }
    }
}

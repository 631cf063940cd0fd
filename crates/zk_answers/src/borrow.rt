//! `borrow_connected`, `borrow_reply`, `borrow_event`: a server's payload judged and returned borrowed.
ghost use Rattle.std.specs.Prelude.{◌≡◌, ◌≢◌, ℕ, List, Ok, negsuc, IfOk, IfErr};
ghost use Rattle.zk_jute.specs.{declared.fault.Reason.TheVariants.NoMemory, Told.IsSurelyTold};
ghost use Rattle.zk_records.specs.declared.header.ReplyHeader as records;
ghost use Rattle.zk_answers.specs.Held as held;
ghost use Rattle.zk_answers.specs.Frames.{IsConnected, IsEvent, IsReplyTo, IsSent};
ghost use Rattle.zk_answers.specs.Frames as sent;
ghost use Rattle.zk_answers.specs.Faults.{IsConnectedFault, IsHead, IsReplyFault, IsEventFault};

use crate::frame::{ServerFrameOf, ServerRef};
use crate::judge::{judge_event, judge_reply};
use crate::known::{JUDGED, event_ref, known_reply};
use zk_asks::Asked;
use zk_jute::{ItemFault, read_ref, scan_flagged};
use zk_records::{ConnectResponseRef, ReplyHeader};

fn connected_in<'a>(payload: &'a [u8]) -> Result<ServerRef<'a>, ItemFault>
    ensures found { IfOk result (λ s. IsConnected s × IsSent s × (payload.now ≡ sent.payload s)) }
    ensures fault { IfErr result (IsSurelyTold (IsConnectedFault payload.now)) }
{
    let (hello, read_only) = scan_flagged::<ConnectResponseRef>(payload)?;
    Ok(ServerFrameOf::Connected { hello, read_only })
}

/// The reply to the connect request, borrowed. Decides as `read_connected` does, allocates nothing, and never returns
/// `NoMemory`.
pub fn borrow_connected<'a>(payload: &'a [u8]) -> Result<ServerRef<'a>, ItemFault>
    // What is read has the form, and is the payload's one value.
    ensures found { IfOk result (λ s. IsConnected s × IsSent s × (payload.now ≡ sent.payload s)) }
    // What has the form is read.
    ensures only { (s : held.ServerFrame) → IsConnected s → IsSent s → payload.now ≡ sent.payload s → result ≡ Ok s }
    // Else the first case that applies is reported.
    ensures fault { IfErr result (IsSurelyTold (IsConnectedFault payload.now)) }
{
    connected_in(payload)
}

/// A reply to the request `form`, borrowed. Decides as `read_reply` does, allocates nothing, and never returns `NoMemory`.
/// Its header, if it is whole, has another xid than -1.
pub fn borrow_reply<'a, F: Asked>(form: &F, payload: &'a [u8]) -> Result<ServerRef<'a>, ItemFault>
    requires { (header : records.ReplyHeader) (rest : List ℕ) → IsHead payload.now header rest → header.xid ≢ negsuc 0 }
    // What is read has the form that the request fixes, and is the payload's one value.
    ensures found { IfOk result (λ s. IsReplyTo (F.operation form.now) (F.part_ops form.now) s × IsSent s × (payload.now ≡ sent.payload s)) }
    // What has the form is read.
    ensures only { (s : held.ServerFrame) → IsReplyTo (F.operation form.now) (F.part_ops form.now) s → IsSent s → payload.now ≡ sent.payload s → result ≡ Ok s }
    // Else the first case that applies is reported.
    ensures fault { IfErr result (IsSurelyTold (IsReplyFault (F.operation form.now) (F.part_ops form.now) payload.now)) }
{
    let (head, _) = read_ref::<ReplyHeader>(payload, 0)?;
    judge_reply::<F, ItemFault>(form, &head, payload)?;
    Ok(known_reply::<JUDGED>(form.op(), payload))
}

/// An event, borrowed. Decides as `read_event` does, allocates nothing, and never returns `NoMemory`. Its header, if it
/// is whole, has the xid -1.
pub fn borrow_event<'a>(payload: &'a [u8]) -> Result<ServerRef<'a>, ItemFault>
    requires { (header : records.ReplyHeader) (rest : List ℕ) → IsHead payload.now header rest → header.xid ≡ negsuc 0 }
    // What is read has the form, and is the payload's one value.
    ensures found { IfOk result (λ s. IsEvent s × IsSent s × (payload.now ≡ sent.payload s)) }
    // What has the form is read.
    ensures only { (s : held.ServerFrame) → IsEvent s → IsSent s → payload.now ≡ sent.payload s → result ≡ Ok s }
    // Else the first case that applies is reported.
    ensures fault { IfErr result (IsSurelyTold (IsEventFault payload.now)) }
{
    let (head, _) = read_ref::<ReplyHeader>(payload, 0)?;
    judge_event::<ItemFault>(&head, payload)?;
    Ok(event_ref(payload))
}

//! `scan_connected`, `scan_reply`, `scan_event`: what the readers decide, without memory or a frame.
ghost use Rattle.std.specs.Prelude.{◌≡◌, ◌≢◌, ℕ, List, negsuc, IsOk, IfOk, IfErr};
ghost use Rattle.zk_jute.specs.Told.{IsSurelyTold};
ghost use Rattle.zk_records.specs.declared.header.ReplyHeader as records;
ghost use Rattle.zk_answers.specs.{Held.ServerFrame, Frames.IsConnected, Frames.IsEvent, Frames.IsReplyTo, Frames.IsSent};
ghost use Rattle.zk_answers.specs.Frames as sent;
ghost use Rattle.zk_answers.specs.Faults.{IsConnectedFault, IsHead, IsReplyFault, IsEventFault};

use crate::borrow::{borrow_connected, borrow_event, borrow_reply};
use zk_asks::Asked;
use zk_jute::ItemFault;

/// Judges a reply to the connect request: decides as `read_connected` does, allocates nothing, and never returns
/// `NoMemory`.
pub fn scan_connected(payload: &[u8]) -> Result<(), ItemFault>
    ensures found { IfOk result (λ _. (s : ServerFrame) × IsConnected s × IsSent s × (payload.now ≡ sent.payload s)) }
    ensures only { (s : ServerFrame) → IsConnected s → IsSent s → payload.now ≡ sent.payload s → IsOk result }
    ensures fault { IfErr result (IsSurelyTold (IsConnectedFault payload.now)) }
{
    match borrow_connected(payload) {
        Ok(_frame) => Ok(()),
        Err(fault) => Err(fault),
    }
}

/// Judges a reply to the request `form`: decides as `read_reply` does, allocates nothing, and never returns `NoMemory`.
/// Its header, if it is whole, has another xid than -1.
pub fn scan_reply<F: Asked>(form: &F, payload: &[u8]) -> Result<(), ItemFault>
    requires { (header : records.ReplyHeader) (rest : List ℕ) → IsHead payload.now header rest → header.xid ≢ negsuc 0 }
    ensures found { IfOk result (λ _. (s : ServerFrame) × IsReplyTo (F.operation form.now) (F.part_ops form.now) s × IsSent s × (payload.now ≡ sent.payload s)) }
    ensures only { (s : ServerFrame) → IsReplyTo (F.operation form.now) (F.part_ops form.now) s → IsSent s → payload.now ≡ sent.payload s → IsOk result }
    ensures fault { IfErr result (IsSurelyTold (IsReplyFault (F.operation form.now) (F.part_ops form.now) payload.now)) }
{
    match borrow_reply(form, payload) {
        Ok(_frame) => Ok(()),
        Err(fault) => Err(fault),
    }
}

/// Judges an event: decides as `read_event` does, allocates nothing, and never returns `NoMemory`. Its header, if it is
/// whole, has the xid -1.
pub fn scan_event(payload: &[u8]) -> Result<(), ItemFault>
    requires { (header : records.ReplyHeader) (rest : List ℕ) → IsHead payload.now header rest → header.xid ≡ negsuc 0 }
    ensures found { IfOk result (λ _. (s : ServerFrame) × IsEvent s × IsSent s × (payload.now ≡ sent.payload s)) }
    ensures only { (s : ServerFrame) → IsEvent s → IsSent s → payload.now ≡ sent.payload s → IsOk result }
    ensures fault { IfErr result (IsSurelyTold (IsEventFault payload.now)) }
{
    match borrow_event(payload) {
        Ok(_frame) => Ok(()),
        Err(fault) => Err(fault),
    }
}

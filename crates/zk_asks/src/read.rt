//! `read_first`, `read_ask`: a client's payload judged, and then copied.
ghost use Rattle.std.specs.Prelude.{◌≡◌, IfOk, IfErr};
ghost use Rattle.zk_jute.specs.Told.{IsReadAs, IsTold};
ghost use Rattle.zk_asks.specs.Frames.{IsSent, IsFirst, IsLater, IsOfProfile};
ghost use Rattle.zk_asks.specs.Frames as frames;
ghost use Rattle.zk_asks.specs.{Held.ClientFrame, Faults.IsFirstFault, Faults.IsAskFault};

use crate::borrow::{borrow_ask, borrow_first};
use crate::frame::ClientFrame;
use std::alloc::Global;
use zk_jute::ItemFault;
use zk_records::{Profile, copied};

/// The first payload of a client: a `ConnectRequest`, and one boolean if more bytes follow it
/// (`ZooKeeperServer.processConnectRequest`).
///
/// # Errors
///
/// The first that applies of: the record's items in order; the boolean; `Trailing` after it. `NoMemory`, at place 0, if
/// memory is refused.
#[tactic(auto, unfolding(zk_jute::specs::Told::IsTold))]
pub fn read_first(alloc: Global, payload: &[u8]) -> Result<ClientFrame, ItemFault>
    // What is read has the form, and is the payload's one value.
    ensures found { IfOk result (λ f. IsFirst f × IsSent f × (payload.now ≡ frames.payload f)) }
    // What has the form is read, unless memory is refused.
    ensures only { (f : ClientFrame) → IsFirst f → IsSent f → payload.now ≡ frames.payload f → IsReadAs f result }
    // Else the first case that applies is reported, unless memory is refused.
    ensures fault { IfErr result (λ e. IsTold (IsFirstFault payload.now) e) }
{
    copied(borrow_first(payload), alloc)
}

/// A later payload of a client: a `RequestHeader`, and the record of its operation
/// (`FinalRequestProcessor.processRequest`).
///
/// # Errors
///
/// The first that applies of: the header's items; `UnknownOp` at 4, a type that is no operation of the profile; `XidOp`
/// at 4, an xid that the operation may not have; the record's items in order, in a multi also `BadPart` at a header that
/// can't come next; `Trailing` after the record. `NoMemory`, at place 0, if memory is refused.
#[tactic(auto, unfolding(zk_jute::specs::Told::IsTold))]
pub fn read_ask(alloc: Global, profile: Profile, payload: &[u8]) -> Result<ClientFrame, ItemFault>
    // What is read has the form, and is the payload's one value.
    ensures found { IfOk result (λ f. IsLater f × IsOfProfile profile f × IsSent f × (payload.now ≡ frames.payload f)) }
    // What has the form is read, unless memory is refused.
    ensures only { (f : ClientFrame) → IsLater f → IsOfProfile profile f → IsSent f → payload.now ≡ frames.payload f → IsReadAs f result }
    // Else the first case that applies is reported, unless memory is refused.
    ensures fault { IfErr result (λ e. IsTold (IsAskFault profile payload.now) e) }
{
    copied(borrow_ask(profile, payload), alloc)
}

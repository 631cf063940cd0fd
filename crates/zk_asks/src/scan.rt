//! `scan_first`, `scan_ask`: what the readers decide, without memory, of which the `Asked` is kept.
ghost use Rattle.std.specs.Prelude.{◌≡◌, ◌<◌, ◌^◌, length, Ok, IsOk, IfOk, IfErr};
ghost use Rattle.zk_asks.specs.declared.frame.ClientFrameOf.TheVariants as frame;
ghost use Rattle.zk_asks.specs.Held.{ClientFrame};
ghost use Rattle.zk_asks.specs.Frames.{IsSent, IsFirst, IsLater, IsOfProfile, ops_of_ask, others_have_none};
ghost use Rattle.zk_asks.specs.Frames as frames;
ghost use Rattle.zk_asks.specs.{Faults.IsAskFault, Faults.IsFirstFault, Rows.op_of_ask};
ghost use Rattle.zk_jute.specs.Told.{IsSurelyTold};

use crate::asked::{Asked, Room};
use crate::borrow::{borrow_ask, borrow_first};
use crate::frame::{AskRef, ClientFrameOf};
use crate::request::RequestRef;
use zk_jute::ItemFault;
use zk_records::{Op, PartOp, Profile};

/// A request that was scanned: its xid, and what its reply is read by.
#[derive(Drop)]
pub struct Scan<'a> {
    /// The request's xid.
    pub xid: i32,
    /// The request without its header.
    pub ask: AskRef<'a>,
    /// At most 4,294,967,295 parts.
    pub ghost bounded: { length (ops_of_ask ask) < 2 ^ 32 },
}

impl Scan<'_> {
    /// The xid of the request.
    pub fn xid(&self) -> i32
        ensures { result ≡ self.now.xid }
    {
        self.xid
    }
}

impl<'a> Asked for Scan<'a> {
    ghost operation = { λ s. op_of_ask s.ask };

    ghost part_ops = { λ s. ops_of_ask s.ask };

    fn op(&self) -> Op {
        self.ask.op()
    }

    fn parts(&self) -> u32 {
        RequestRef::of(&self.ask).parts()
    }

    fn part(&self, j: u32) -> Option<PartOp> {
        RequestRef::of(&self.ask).part(j)
    }

    fn put_ops<R: Room>(&self, room: &mut R) {
        RequestRef::of(&self.ask).put_ops(room);
    }

    ghost lawful = { λ s. others_have_none s.ask };
}

/// Judges a client's first payload: decides as `read_first` does, allocates nothing, and never returns `NoMemory`.
pub fn scan_first(payload: &[u8]) -> Result<(), ItemFault>
    ensures found { IfOk result (λ _. (f : ClientFrame) × IsFirst f × IsSent f × (payload.now ≡ frames.payload f)) }
    ensures only { (f : ClientFrame) → IsFirst f → IsSent f → payload.now ≡ frames.payload f → IsOk result }
    ensures fault { IfErr result (IsSurelyTold (IsFirstFault payload.now)) }
{
    match borrow_first(payload) {
        Ok(_frame) => Ok(()),
        Err(fault) => Err(fault),
    }
}

/// A later payload of a client: decides as `read_ask` does, allocates nothing, and never returns `NoMemory`.
pub fn scan_ask<'a>(profile: Profile, payload: &'a [u8]) -> Result<Scan<'a>, ItemFault>
    requires { length payload.now < 2 ^ 32 }
    ensures found { IfOk result (λ s. let f = frame.Ask s.xid s.ask in IsOfProfile profile f × IsSent f × (payload.now ≡ frames.payload f)) }
    ensures only { (f : ClientFrame) → IsLater f → IsOfProfile profile f → IsSent f → payload.now ≡ frames.payload f → IsOk result }
    ensures fault { IfErr result (IsSurelyTold (IsAskFault profile payload.now)) }
{
    match borrow_ask(profile, payload)? {
        ClientFrameOf::Ask { xid, ask } => Ok(Scan { xid, ask }),
        ClientFrameOf::Connect { .. } => unreachable!(),
    }
}

//! Owned copies of borrowed client frames.
ghost use Rattle.std.specs.Prelude.{◌≡◌};

use crate::frame::{
    Ask, AskOf, AskRef, ClientFrame, ClientFrameOf, ClientRef, Part, PartOf, PartRef,
};
use crate::{ask_rows, part_rows};
use std::alloc::{AllocError, Global};
use zk_records::Own;

impl<'a> Own for PartRef<'a> {
    type Owned = Part;

    ghost same = { λ x. x };

    fn own(&self, alloc: Global) -> Result<Part, AllocError> {
        macro_rules! row {
            ($part:ident: $($op:ident: $record:ident $borrowed:ident),+) => {
                match $part {
                    $(PartOf::$op(body) => Ok(PartOf::$op(body.own(alloc)?)),)+
                }
            };
        }
        part_rows!(row, self)
    }
}

impl<'a> Own for AskRef<'a> {
    type Owned = Ask;

    ghost same = { λ x. x };

    #[tactic(auto, using(zk_records::proofs::Owned::all_same))]
    fn own(&self, alloc: Global) -> Result<Ask, AllocError> {
        macro_rules! row {
            ($ask:ident: $($($held:ident)|+: $record:ident $borrowed:ident),+; $($bare:ident)|+) => {
                match $ask {
                    $($(AskOf::$held(body) => Ok(AskOf::$held(body.own(alloc)?)),)+)+
                    $(AskOf::$bare => Ok(AskOf::$bare),)+
                    AskOf::Multi(parts) => Ok(AskOf::Multi(parts.own(alloc)?)),
                }
            };
        }
        ask_rows!(row, self)
    }
}

impl<'a> Own for ClientRef<'a> {
    type Owned = ClientFrame;

    ghost same = { λ x. x };

    fn own(&self, alloc: Global) -> Result<ClientFrame, AllocError> {
        match self {
            ClientFrameOf::Connect { hello, read_only } => Ok(ClientFrameOf::Connect {
                hello: hello.own(alloc)?,
                read_only: *read_only,
            }),
            ClientFrameOf::Ask { xid, ask } => Ok(ClientFrameOf::Ask {
                xid: *xid,
                ask: ask.own(alloc)?,
            }),
        }
    }
}

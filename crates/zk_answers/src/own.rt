//! Owned copies of borrowed server frames.
ghost use Rattle.std.specs.Prelude.{◌≡◌};

use crate::body_rows;
use crate::frame::{
    Body, BodyOf, BodyRef, Outcome, OutcomeOf, OutcomeRef, PartDone, PartDoneOf, PartDoneRef,
    Reply, ReplyOf, ReplyRef, ServerFrame, ServerFrameOf, ServerRef,
};
use std::alloc::{AllocError, Global};
use zk_records::Own;

impl<'a> Own for PartDoneRef<'a> {
    type Owned = PartDone;

    ghost same = { λ x. x };

    fn own(&self, alloc: Global) -> Result<PartDone, AllocError> {
        match self {
            PartDoneOf::Created(path) => Ok(PartDoneOf::Created(path.own(alloc)?)),
            PartDoneOf::Deleted => Ok(PartDoneOf::Deleted),
            PartDoneOf::DataSet(stat) => Ok(PartDoneOf::DataSet(*stat)),
            PartDoneOf::Checked => Ok(PartDoneOf::Checked),
            PartDoneOf::PartFailed(number) => Ok(PartDoneOf::PartFailed(*number)),
        }
    }
}

impl<'a> Own for BodyRef<'a> {
    type Owned = Body;

    ghost same = { λ x. x };

    #[tactic(auto, using(zk_records::proofs::Owned::all_same))]
    fn own(&self, alloc: Global) -> Result<Body, AllocError> {
        macro_rules! row {
            ($body:ident: $($($one:ident)|+: $only:ident $name:ident $kind:ident),+;
             $($both:ident: $first:ident $first_name:ident $first_kind:ident $borrowed:ident),+; $($bare:ident)|+) => {
                match $body {
                    $($(BodyOf::$one { $only } => Ok(BodyOf::$one { $only: $only.own(alloc)? }),)+)+
                    $(BodyOf::$both { $first, stat } => Ok(BodyOf::$both {
                        $first: $first.own(alloc)?,
                        stat: *stat,
                    }),)+
                    $(BodyOf::$bare => Ok(BodyOf::$bare),)+
                    BodyOf::Multi(dones) => Ok(BodyOf::Multi(dones.own(alloc)?)),
                }
            };
        }
        body_rows!(row, self)
    }
}

impl<'a> Own for OutcomeRef<'a> {
    type Owned = Outcome;

    ghost same = { λ x. x };

    fn own(&self, alloc: Global) -> Result<Outcome, AllocError> {
        match self {
            OutcomeOf::Done(body) => Ok(OutcomeOf::Done(body.own(alloc)?)),
            OutcomeOf::Failed(op, failure) => Ok(OutcomeOf::Failed(*op, *failure)),
        }
    }
}

impl<'a> Own for ReplyRef<'a> {
    type Owned = Reply;

    ghost same = { λ x. x };

    fn own(&self, alloc: Global) -> Result<Reply, AllocError> {
        Ok(ReplyOf {
            xid: self.xid,
            zxid: self.zxid,
            outcome: self.outcome.own(alloc)?,
        })
    }
}

impl<'a> Own for ServerRef<'a> {
    type Owned = ServerFrame;

    ghost same = { λ x. x };

    fn own(&self, alloc: Global) -> Result<ServerFrame, AllocError> {
        match self {
            ServerFrameOf::Connected { hello, read_only } => Ok(ServerFrameOf::Connected {
                hello: hello.own(alloc)?,
                read_only: *read_only,
            }),
            ServerFrameOf::Answered(reply) => Ok(ServerFrameOf::Answered(reply.own(alloc)?)),
            ServerFrameOf::Event { zxid, event } => Ok(ServerFrameOf::Event {
                zxid: *zxid,
                event: event.own(alloc)?,
            }),
        }
    }
}

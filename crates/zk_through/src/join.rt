//! `Through::join`: a connection that is seen late.
ghost use Rattle.std.specs.Prelude.{◌≡◌, ◌<◌, ◌^◌, ℕ, List, [], length, true, IfOk};
ghost use Rattle.zk_frames.specs.Framing.{frame};
ghost use Rattle.zk_through.specs.Resumed.{Hears, IsWelcomed, IsLate};

use crate::through::Through;
use std::alloc::{AllocError, Global};
use zk_talk::{Limits, Side, Stream, Talk};

/// The frame of a connect request that nobody sent: each number is -1, and the password is null.
const REQUEST: &[u8] = &[
    0, 0, 0, 28, 255, 255, 255, 255, 255, 255, 255, 255, 255, 255, 255, 255, 255, 255, 255, 255,
    255, 255, 255, 255, 255, 255, 255, 255, 255, 255, 255, 255,
];
/// The frame of such an answer.
const ANSWER: &[u8] = &[
    0, 0, 0, 20, 255, 255, 255, 255, 255, 255, 255, 255, 255, 255, 255, 255, 255, 255, 255, 255,
    255, 255, 255, 255,
];

/// Gives the talk a whole frame, which may come next.
fn hear(talk: &mut Talk, side: Side, bytes: &[u8])
    ensures limits { talk.new.limits ≡ talk.old.limits }
    ensures told { (p : List ℕ) → bytes.now ≡ frame p → Hears talk.old side p talk.new }
{
    let _stepped = talk.step(side, bytes);
}

/// Begins the talk anew with a connect request and its answer, which nobody sent. Allocates nothing.
fn welcome(talk: &mut Talk)
    ensures limits { talk.new.limits ≡ talk.old.limits }
    ensures welcomed { IsWelcomed talk.new }
{
    talk.renew();
    hear(talk, Side::Client, REQUEST);
    hear(talk, Side::Server, ANSWER);
    talk.drop_kept(Side::Client);
    talk.drop_kept(Side::Server);
}

/// Begins the side anew, at the end of this frame, which is counted.
fn begin_after(stream: &mut Stream, bytes: &[u8])
    requires { length bytes.now < 2 ^ 62 }
    ensures { stream.new ≡ record { limit = stream.old.limit; held = []; kept = []; count = 1; size = length bytes.now } }
{
    stream.renew();
    stream.pass_whole(bytes.len());
}

impl Through {
    /// Begins anew as a connection that is seen late. Allocates nothing.
    pub(crate) fn be_late(&mut self)
        ensures limits { self.new.talk.limits ≡ self.old.talk.limits }
        ensures late { IsLate self.new }
    {
        welcome(&mut self.talk);
        begin_after(&mut self.client, REQUEST);
        begin_after(&mut self.server, ANSWER);
        self.turns.renew();
        self.late = true;
        self.matched = false;
        self.answered = Some(0);
        self.fault = None;
    }

    /// A connection that is seen late, each side from the first byte of a frame on: all requests from some moment on,
    /// and all that the server sent after it. Memory is allocated as by `new`.
    ///
    /// It begins with a connect request and the answer to it, which nobody sent: these are frame 0 of each side, and its
    /// first 32 and 24 bytes. A reply to a request that wasn't seen is `StepOutcome::Unseen`, and the talk doesn't get it.
    /// It is known by its xid, until the first reply to a request that was seen. Pings have one xid, and so have auths and
    /// setWatches: of these each reply is one where none waits.
    ///
    /// # Errors
    ///
    /// `AllocError` if memory is refused, as for `new`; nothing else is.
    pub fn join(alloc: Global, limits: Limits) -> Result<Self, AllocError>
        ensures limits { IfOk result (λ t. t.talk.limits ≡ limits) }
        // It is seen late: the connect pair has come that nobody sent, and no side shows or keeps anything.
        ensures late { IfOk result IsLate }
    {
        let mut through = Through::new(alloc, limits)?;
        through.be_late();
        Ok(through)
    }
}

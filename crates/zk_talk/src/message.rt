//! `Message`, `Kind`, `Fault`, `Ending`: what a conversation is made of, and how it ends.
ghost use Rattle.std.specs.Prelude.{◌≡◌, IfOk};

use std::alloc::{AllocError, Global};
use std::fmt;
use std::fmt::Display;
use thiserror::Error;
use zk_answers::{ServerFrame, ServerRef};
use zk_asks::{ClientFrame, ClientRef};
use zk_jute::Reason;
use zk_records::{Op, Own};

/// The side that sends: `C` and `S` in lines and recordings, 0 and 1 for C.
#[derive(Clone, Copy, Debug, PartialEq, Eq)]
pub enum Side {
    Client,
    Server,
}

/// The letter of a side in lines and recordings.
impl Display for Side {
    fn fmt<W: fmt::Write>(&self, f: &mut fmt::Formatter<W>) -> fmt::Result {
        f.write_str(match self {
            Side::Client => "C",
            Side::Server => "S",
        })
    }
}

/// What is sent in one frame: the payload's message, of the side that sent it.
#[derive(Drop)]
pub enum MessageOf<C, S> {
    /// A frame of the client.
    Client(C),
    /// A frame of the server.
    Server(S),
}

/// An owned message.
pub type Message = MessageOf<ClientFrame, ServerFrame>;

/// A message, borrowed from its frame's payload.
pub type MessageRef<'a> = MessageOf<ClientRef<'a>, ServerRef<'a>>;

impl MessageRef<'_> {
    /// An owned copy of the message.
    ///
    /// # Errors
    ///
    /// `AllocError` if memory is refused.
    pub fn to_message(&self, alloc: Global) -> Result<Message, AllocError>
        ensures { IfOk result (λ message. message ≡ self.now) }
    {
        match self {
            MessageOf::Client(frame) => Ok(MessageOf::Client(frame.own(alloc)?)),
            MessageOf::Server(frame) => Ok(MessageOf::Server(frame.own(alloc)?)),
        }
    }
}

/// The kind of a message, which the bytes of its payload alone may not show.
#[derive(Clone, Copy, Debug, PartialEq, Eq)]
pub enum Kind {
    /// The connect request.
    Connect,
    /// Another request.
    Ask,
    /// The reply to the connect request.
    Connected,
    /// The reply to a request of this operation.
    Answered(Op),
    /// An event.
    Event,
}

impl Kind {
    ghost use Rattle.std.specs.Prelude.{◌≡◌};
    ghost use Rattle.zk_talk.specs.Held.{Message};
    ghost use Rattle.zk_talk.specs.Said.{side_of};
    ghost use Rattle.zk_talk.specs.Written.{kind_of};

    /// The side that sends messages of the kind.
    pub fn side(self) -> Side
        ensures { (m : Message) → kind_of m ≡ self → side_of m ≡ result }
    {
        match self {
            Kind::Connect | Kind::Ask => Side::Client,
            Kind::Connected | Kind::Answered(_) | Kind::Event => Side::Server,
        }
    }
}

/// Why a conversation is refused, and where.
#[derive(Clone, Copy, Debug, PartialEq, Eq, Error)]
#[error("side={side} frame={frame} offset={offset} place={place} reason={reason}")]
pub struct Fault {
    /// The side whose byte decided it.
    pub side: Side,
    /// The number of that side's frame, from 0.
    pub frame: u64,
    /// The number of that side's bytes up to and with the one that decided it.
    pub offset: u64,
    /// The offset in the frame's payload, in bytes; 0 if the fault is one of the frame's length or turn.
    pub place: u32,
    /// What is wrong there.
    pub reason: Reason,
}

/// How a history ends.
#[derive(Clone, Copy, Debug, PartialEq, Eq)]
pub enum Ending {
    /// Both sides end with a whole frame; `unanswered` frames of the client have no reply.
    Whole { unanswered: u32 },
    /// The side ends within its frame of this number, counted from 0, after `got` bytes of it.
    Cut { side: Side, frame: u64, got: u32 },
    /// The history spells no conversation.
    Refused(Fault),
}

/// The messages of a history, and how it ends.
#[derive(Drop)]
pub struct Ended {
    /// The messages, in the order of their last bytes.
    pub messages: Vec<Message>,
    /// How the history ends.
    pub ending: Ending,
}

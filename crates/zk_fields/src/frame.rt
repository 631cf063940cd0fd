//! The fields of whole frames: `client_fields` and `server_fields`.
ghost use Rattle.std.specs.Prelude.{◌<◌, ◌^◌, ◌++◌, length};
ghost use Rattle.zk_asks.specs.Frames as asks;
ghost use Rattle.zk_answers.specs.Frames as answers;
ghost use Rattle.zk_fields.specs.Frames.{AreWritten, Shows, client_fields, flag_entries, rest_entries, server_fields};

use crate::field::{At, Field};
use crate::name::{NONE, READ_ONLY};
use crate::show::{Named, Show};
use zk_answers::{OutcomeOf, OutcomeRef, ServerFrameOf, ServerRef};
use zk_asks::{ClientFrameOf, ClientRef};

/// The bytes of a request's header.
pub(crate) const REQUEST: u32 = 8;

/// The bytes of a reply's header.
pub(crate) const REPLY: u32 = 16;

impl Show for Option<bool> {
    ghost entries = { λ _ flag. flag_entries flag };

    #[tactic(auto, using(crate::proofs::Rooms::takes_nothing))]
    fn show(&self, _name: u16, room: &mut [Field], at: At) -> At {
        match self {
            None => at,
            Some(flag) => flag.show(READ_ONLY, room, at),
        }
    }
}

impl<'a> Show for OutcomeRef<'a> {
    ghost entries = { λ _ o. rest_entries o };

    #[tactic(auto, using(crate::proofs::Rooms::takes_nothing))]
    fn show(&self, name: u16, room: &mut [Field], at: At) -> At {
        match self {
            OutcomeOf::Done(body) => body.show(name, room, at),
            OutcomeOf::Failed(_, _) => at,
        }
    }
}

/// Writes the fields of `value`, which begin at the place `start`, and returns how many there are.
#[tactic(auto, using(crate::proofs::Wholes::shows))]
fn show_from<T: Show>(start: u32, value: &T, room: &mut [Field]) -> u32
    ensures { Shows start (T.entries 0 value.now) room.old room.new result }
{
    let at = At {
        count: 0,
        place: start,
    };
    value.show(NONE, room, at).count
}

/// So those of a connect message, and of its flag if it has one.
fn show_connect<T: Show>(hello: &T, flag: &Option<bool>, room: &mut [Field]) -> u32
    ensures { Shows 0 (T.entries 0 hello.now ++ flag_entries flag.now) room.old room.new result }
{
    let hello = Named {
        name: NONE,
        value: hello,
    };
    let flag = Named {
        name: NONE,
        value: flag,
    };
    show_from(0, &(hello, flag), room)
}

/// Writes the fields of the client's `frame` into `room`, as many as it has places for, and returns how many there are.
/// The clause holds for a frame whose payload is shorter than 4 GiB.
#[tactic(auto, using(crate::proofs::Wholes::client_written))]
pub fn client_fields(frame: &ClientRef<'_>, room: &mut [Field]) -> u32
    ensures { asks.IsSent frame.now → length (asks.payload frame.now) < 2 ^ 32 → AreWritten (client_fields frame.now) room.old room.new result }
{
    match frame {
        ClientFrameOf::Connect { hello, read_only } => show_connect(hello, read_only, room),
        ClientFrameOf::Ask { ask, .. } => show_from(REQUEST, ask, room),
    }
}

/// Writes the fields of the server's `frame` into `room`, as many as it has places for, and returns how many there are.
/// The clause holds for a frame whose payload is shorter than 4 GiB.
#[tactic(auto, using(crate::proofs::Wholes::server_written))]
pub fn server_fields(frame: &ServerRef<'_>, room: &mut [Field]) -> u32
    ensures { answers.IsSent frame.now → length (answers.payload frame.now) < 2 ^ 32 → AreWritten (server_fields frame.now) room.old room.new result }
{
    match frame {
        ServerFrameOf::Connected { hello, read_only } => show_connect(hello, read_only, room),
        ServerFrameOf::Answered(reply) => show_from(REPLY, &reply.outcome, room),
        ServerFrameOf::Event { event, .. } => show_from(REPLY, event, room),
    }
}

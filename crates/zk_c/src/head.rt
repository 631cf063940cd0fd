//! `Head`: a message's kind, and the numbers of its header.
ghost use Rattle.std.specs.Prelude.{◌≡◌};
ghost use Rattle.zk_answers.specs.Frames.{err_of};
ghost use Rattle.zk_c.specs.Answer.{bare_head, client_head, server_head, message_head};

use zk_answers::{OutcomeOf, OutcomeRef, ServerFrameOf, ServerRef};
use zk_asks::{ClientFrameOf, ClientRef};
use zk_records::op_number;
use zk_talk::{MessageOf, MessageRef};

/// A message's kind, and the numbers of its header, 0 where it has none.
#[derive(Clone, Copy)]
pub struct Head {
    /// 1: a connect request. 2: a request. 3: the answer to a connect request. 4: a reply. 5: an event.
    pub kind: u32,
    /// The xid of a request, a reply or an event.
    pub xid: i32,
    /// The number of a request's operation, or of that which a reply answers.
    pub operation: i32,
    /// That of a reply.
    pub err: i32,
    /// That of a reply or an event.
    pub zxid: i64,
}

/// A reply's err.
fn err_of(outcome: &OutcomeRef<'_>) -> i32
    ensures { result ≡ err_of outcome.now }
{
    match outcome {
        OutcomeOf::Done(_) => 0,
        OutcomeOf::Failed(_, failure) => failure.number(),
    }
}

impl Head {
    /// That of a message without such numbers.
    #[inline(always)]
    fn bare(kind: u32) -> Head
        ensures { result ≡ bare_head kind }
    {
        Head {
            kind,
            xid: 0,
            operation: 0,
            err: 0,
            zxid: 0,
        }
    }

    /// That of a client's frame.
    #[inline(always)]
    pub fn of_client(frame: &ClientRef<'_>) -> Head
        ensures { result ≡ client_head frame.now }
    {
        match frame {
            ClientFrameOf::Connect { .. } => Head::bare(1),
            ClientFrameOf::Ask { xid, ask } => Head {
                xid: *xid,
                operation: op_number(ask.op()),
                ..Head::bare(2)
            },
        }
    }

    /// That of a server's frame.
    #[inline(always)]
    pub fn of_server(frame: &ServerRef<'_>) -> Head
        ensures { result ≡ server_head frame.now }
    {
        match frame {
            ServerFrameOf::Connected { .. } => Head::bare(3),
            ServerFrameOf::Answered(reply) => Head {
                xid: reply.xid,
                operation: op_number(reply.op()),
                err: err_of(&reply.outcome),
                zxid: reply.zxid,
                ..Head::bare(4)
            },
            ServerFrameOf::Event { zxid, .. } => Head {
                xid: -1,
                zxid: *zxid,
                ..Head::bare(5)
            },
        }
    }

    /// That of this message.
    #[inline(always)]
    pub fn of(message: &MessageRef<'_>) -> Head
        ensures { result ≡ message_head message.now }
    {
        match message {
            MessageOf::Client(frame) => Head::of_client(frame),
            MessageOf::Server(frame) => Head::of_server(frame),
        }
    }
}

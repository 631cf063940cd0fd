//! The frame that a side keeps, shown as a borrowed message.
ghost use Rattle.std.specs.Prelude.{◌≡◌, IfOk};
ghost use Rattle.zk_frames.specs.Framing.{frame};
ghost use Rattle.zk_asks.specs.Held as asks;
ghost use Rattle.zk_answers.specs.Held as answers;
ghost use Rattle.zk_talk.specs.{Held.Message, Viewed.ShowsClient, Viewed.ShowsServer, Written.IsWritten};

use crate::message::{Kind, Message, MessageOf, MessageRef};
use crate::replied::Replied;
use std::alloc::{AllocError, Global};
use zk_answers::{ServerRef, connected_ref, event_ref, reply_ref, written_reply_ref};
use zk_asks::{ClientRef, client_ref, written_ref};

/// The frame of the client's `payload`, the last of `count` frames.
pub fn shown_client(count: u64, payload: &[u8]) -> ClientRef<'_>
    requires { (f : asks.ClientFrame) × ShowsClient count (frame payload.now) f }
    ensures { (f : asks.ClientFrame) → ShowsClient count (frame payload.now) f → result ≡ f }
{
    if count == 1 {
        client_ref(true, payload)
    } else {
        client_ref(false, payload)
    }
}

/// The frame of the server's `payload`, the last of `count` frames; a reply to `answered`, or none.
pub fn shown_server(count: u64, answered: Option<Replied>, payload: &[u8]) -> ServerRef<'_>
    requires { (s : answers.ServerFrame) × ShowsServer count answered (frame payload.now) s }
    ensures { (s : answers.ServerFrame) → ShowsServer count answered (frame payload.now) s → result ≡ s }
{
    match answered {
        Some(request) => reply_ref(request.op, payload),
        None if count == 1 => connected_ref(payload),
        None => event_ref(payload),
    }
}

/// The message of this kind that has the payload, borrowed. Nothing is judged.
pub fn message_ref(kind: Kind, payload: &[u8]) -> MessageRef<'_>
    requires { (m : Message) × IsWritten kind payload.now m }
    ensures { (m : Message) → IsWritten kind payload.now m → result ≡ m }
{
    match kind {
        Kind::Connect => MessageOf::Client(written_ref(true, payload)),
        Kind::Ask => MessageOf::Client(written_ref(false, payload)),
        Kind::Connected => MessageOf::Server(connected_ref(payload)),
        Kind::Event => MessageOf::Server(event_ref(payload)),
        Kind::Answered(op) => MessageOf::Server(written_reply_ref(op, payload)),
    }
}

/// The message of this kind that has the payload, made.
pub fn made_message(alloc: Global, kind: Kind, payload: &[u8]) -> Result<Message, AllocError>
    requires { (m : Message) × IsWritten kind payload.now m }
    ensures { IfOk result (λ message. (m : Message) → IsWritten kind payload.now m → message ≡ m) }
{
    match message_ref(kind, payload).to_message(alloc) {
        Ok(message) => Ok(message),
        Err(refused) => Err(refused),
    }
}

/// The same in a box: a function that has a message of its own and lends it is dear to prove.
pub fn boxed_message(alloc: Global, kind: Kind, payload: &[u8]) -> Result<Box<Message>, AllocError>
    requires { (m : Message) × IsWritten kind payload.now m }
    ensures { IfOk result (λ held. (m : Message) → IsWritten kind payload.now m → held.value ≡ m) }
{
    let message = made_message(alloc, kind, payload)?;
    Ok(Box::new(alloc, message)?)
}

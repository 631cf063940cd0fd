//! The lines of a server's messages, written.
ghost use Rattle.std.specs.Prelude.{◌≡◌, ◌++◌, OnOk};
ghost use Rattle.zk_items.specs.{Form.Gives, Form.Keeps, Codes.failure_code, Leaf.int, Leaf.long};
ghost use Rattle.zk_lines.specs.Words.{word_of};
ghost use Rattle.zk_lines.specs.declared.word.Word.TheVariants as words;
ghost use Rattle.zk_lines.specs.Answers as answers;
ghost use Rattle.zk_lines.specs.Lines as lines;
ghost use Rattle.zk_lines.specs.Rows.{only_written};

use crate::put::{Put, put_field, put_fields};
use crate::word::{Word, field_word, put_word, read_word, word_bytes};
use std::alloc::AllocError;
use zk_answers::{
    Failure, Outcome, OutcomeOf, OutcomeRef, Reply, ReplyRef, ServerFrame, ServerFrameOf, ServerRef,
};
use zk_items::{
    LineFault, LineReason, Reader, put_error_code, put_event_code, put_int, read_event_code,
    read_failure_code,
};
use zk_records::{ConnectResponseOf, Op, WatcherEventOf, fields_of, op_name};

/// Reads the number of an error, which isn't 0.
pub fn read_failure(line: &mut Reader<'_>) -> Result<Failure, LineFault>
    ensures { Gives result line.new (failure_code.at line.old) }
{
    let fault = line.fault(LineReason::Number);
    match Failure::new(read_failure_code(line)?) {
        Some(failure) => Ok(failure),
        None => Err(fault),
    }
}

#[tactic(auto, using(zk_items::proofs::Kept::then_spelled))]
fn put_failure(out: &mut Vec<u8>, failure: &Failure) -> Result<(), AllocError>
    ensures spelled { OnOk result (out.new.items ≡ out.old.items ++ (word_of words.Err ++ failure_code.spell failure.now)) }
    ensures fits { OnOk result (failure_code.fits failure.now) }
    ensures keeps { Keeps out.old.items out.new.items }
{
    put_word(out, Word::Err)?;
    put_error_code(out, failure.number())
}

/// `outcome!(out, outcome)` appends the error, or the body of the operation.
macro_rules! outcome {
    ($out:ident, $outcome:ident) => {
        match $outcome {
            OutcomeOf::Done(body) => body.put($out),
            OutcomeOf::Failed(_, failure) => put_failure($out, failure),
        }
    };
}

impl Put for Outcome {
    ghost form = { only_written answers.outcome_fits answers.outcome_spell };

    fn put(&self, out: &mut Vec<u8>) -> Result<(), AllocError> {
        outcome!(out, self)
    }
}

impl<'a> Put for OutcomeRef<'a> {
    ghost form = { only_written answers.outcome_fits answers.outcome_spell };

    fn put(&self, out: &mut Vec<u8>) -> Result<(), AllocError> {
        outcome!(out, self)
    }
}

/// Appends a reply: its xid, its operation's name, its zxid and its outcome.
#[tactic(auto, using(zk_items::proofs::Kept::then_spelled, zk_items::proofs::Kept::keeps_more))]
fn put_named<O: Put>(
    out: &mut Vec<u8>,
    xid: i32,
    op: Op,
    zxid: &i64,
    outcome: &O,
) -> Result<(), AllocError>
    ensures spelled { OnOk result (out.new.items ≡ out.old.items ++ answers.reply_to op xid zxid.now (O.form.spell outcome.now)) }
    ensures fits { OnOk result (int.fits xid × (long.fits zxid.now × O.form.fits outcome.now)) }
    ensures keeps { Keeps out.old.items out.new.items }
{
    put_int(out, xid)?;
    put_word(out, Word::Blank)?;
    out.extend_from_slice(op_name(op).as_bytes())?;
    put_field(out, Word::Zxid, zxid)?;
    outcome.put(out)
}

impl Put for Reply {
    ghost form = { answers.reply };

    fn put(&self, out: &mut Vec<u8>) -> Result<(), AllocError> {
        put_named(out, self.xid, self.op(), &self.zxid, &self.outcome)
    }
}

impl<'a> Put for ReplyRef<'a> {
    ghost form = { answers.reply };

    fn put(&self, out: &mut Vec<u8>) -> Result<(), AllocError> {
        put_named(out, self.xid, self.op(), &self.zxid, &self.outcome)
    }
}

/// Appends the connect response's fields in order.
fn put_connected<B: Put>(
    out: &mut Vec<u8>,
    hello: &ConnectResponseOf<B>,
    read_only: &Option<bool>,
) -> Result<(), AllocError>
    ensures spelled { OnOk result (out.new.items ≡ out.old.items ++ (answers.connected_of B.form).spell (hello.now, read_only.now)) }
    ensures fits { OnOk result ((answers.connected_of B.form).fits (hello.now, read_only.now)) }
    ensures keeps { Keeps out.old.items out.new.items }
{
    fields_of!(ConnectResponse, put_fields, out, hello)?;
    put_field(out, Word::ReadOnly, read_only)
}

/// `event_fields!(then, with)` is `then!(with: ..)` with an event's fields after its type, as in `fields_of!`.
macro_rules! event_fields {
    ($then:ident, $($with:ident),+) => { fields_of!(WatcherEvent, after_first, $then, $($with),+) };
}

/// `after_first!(then, with: fields)` is `then!(with: ..)` with the fields after the first.
macro_rules! after_first {
    ($then:ident, $($with:ident),+: $field:ident $name:ident $kind:ident, $($rest:tt)+) => {
        $then!($($with),+: $($rest)+)
    };
}

pub(crate) use after_first;
pub(crate) use event_fields;

/// Appends the zxid and an event's fields in order.
fn put_event<T: Put>(
    out: &mut Vec<u8>,
    zxid: &i64,
    event: &WatcherEventOf<T>,
) -> Result<(), AllocError>
    ensures spelled { OnOk result (out.new.items ≡ out.old.items ++ (answers.event_of T.form).spell (zxid.now, event.now)) }
    ensures fits { OnOk result ((answers.event_of T.form).fits (zxid.now, event.now)) }
    ensures keeps { Keeps out.old.items out.new.items }
{
    put_field(out, Word::Zxid, zxid)?;
    put_word(out, Word::Kind)?;
    put_event_code(out, event.kind)?;
    event_fields!(put_fields, out, event)
}

/// `server!(out, frame)` appends a server's line.
macro_rules! server {
    ($out:ident, $frame:ident) => {
        match $frame {
            ServerFrameOf::Connected { hello, read_only } => {
                $out.extend_from_slice(b"S connect")?;
                put_connected($out, hello, read_only)
            }
            ServerFrameOf::Answered(reply) => {
                $out.extend_from_slice(b"S ")?;
                reply.put($out)
            }
            ServerFrameOf::Event { zxid, event } => {
                $out.extend_from_slice(b"S event")?;
                put_event($out, zxid, event)
            }
        }
    };
}

impl Put for ServerFrame {
    ghost form = { only_written lines.ServerFits lines.server_line };

    fn put(&self, out: &mut Vec<u8>) -> Result<(), AllocError> {
        server!(out, self)
    }
}

impl<'a> Put for ServerRef<'a> {
    ghost form = { only_written lines.ServerFits lines.server_line };

    fn put(&self, out: &mut Vec<u8>) -> Result<(), AllocError> {
        server!(out, self)
    }
}

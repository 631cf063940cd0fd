//! A server's line, read into the bytes of its message's payload.
ghost use Rattle.std.specs.Prelude.{◌≡◌, ◌∷◌, IfErr, IfOk, OnOk};
ghost use Rattle.zk_jute.specs.Item.{AnInt};
ghost use Rattle.zk_answers.specs.declared.frame.ServerFrameOf.TheVariants as server;
ghost use Rattle.zk_answers.specs.Frames.{err_of, rest_items, op_of_reply, reply_items, frame_items};
ghost use Rattle.zk_items.specs.{Encoded.Encoded, Form.Fails, Form.Keeps};
ghost use Rattle.zk_talk.specs.{Written.kind_of, declared.message.MessageOf.TheVariants.Server};
ghost use Rattle.zk_lines.specs.Answers as answers;
ghost use Rattle.zk_lines.specs.Lines.{server_at};

use crate::answer::{after_first, event_fields, read_failure};
use crate::body::encode_body;
use crate::encode_item::{append, encode_field, encode_fields};
use crate::name::{key, op_named};
use crate::word::{Word, field_word, read_word, word_bytes};
use zk_items::{LineFault, LineReason, Reader, read_event_code};
use zk_records::{Op, fields_of, owned};
use zk_talk::Kind;

/// Reads the outcome of an operation, and appends the number of its error and its body.
fn encode_outcome(line: &mut Reader<'_>, op: Op, out: &mut Vec<u8>) -> Result<(), LineFault>
    ensures encoded { OnOk result (Encoded (answers.outcome_at op) (λ o. AnInt (err_of o) ∷ rest_items o) line.old line.new out.old.items out.new.items) }
    ensures refused { IfErr result (λ e. Fails e ((answers.outcome_at op) line.old)) }
    ensures keeps { Keeps out.old.items out.new.items }
{
    if line.passes(word_bytes(Word::Err)) {
        let failure = read_failure(line)?;
        append(out, &failure.number())?;
        return Ok(());
    }
    append(out, &0_i32)?;
    encode_body(line, op, out)
}

/// Reads a reply, and appends its bytes; returns its operation.
fn encode_reply(line: &mut Reader<'_>, out: &mut Vec<u8>) -> Result<Op, LineFault>
    ensures encoded { IfOk result (λ op. (c : Encoded answers.reply.at reply_items line.old line.new out.old.items out.new.items) × (op_of_reply c.value ≡ op)) }
    ensures refused { IfErr result (λ e. Fails e (answers.reply.at line.old)) }
    ensures keeps { Keeps out.old.items out.new.items }
{
    let xid = line.int()?;
    read_word(line, Word::Blank)?;
    let op = key!(line, op_named);
    append(out, &xid)?;
    encode_field::<i64>(line, Word::Zxid, out)?;
    encode_outcome(line, op, out)?;
    Ok(op)
}

/// Reads the reply to the connect request, and appends its bytes.
fn encode_connected(line: &mut Reader<'_>, out: &mut Vec<u8>) -> Result<(), LineFault>
    ensures encoded { OnOk result (Encoded answers.connected.at (λ p. frame_items (server.Connected p.0 p.1)) line.old line.new out.old.items out.new.items) }
    ensures refused { IfErr result (λ e. Fails e (answers.connected.at line.old)) }
    ensures keeps { Keeps out.old.items out.new.items }
{
    fields_of!(ConnectResponse, encode_fields, line, out);
    encode_field::<Option<bool>>(line, Word::ReadOnly, out)?;
    Ok(())
}

/// Reads an event, and appends its bytes.
fn encode_event(line: &mut Reader<'_>, out: &mut Vec<u8>) -> Result<(), LineFault>
    ensures encoded { OnOk result (Encoded answers.event.at (λ p. frame_items (server.Event p.0 p.1)) line.old line.new out.old.items out.new.items) }
    ensures refused { IfErr result (λ e. Fails e (answers.event.at line.old)) }
    ensures keeps { Keeps out.old.items out.new.items }
{
    append(out, &-1_i32)?;
    encode_field::<i64>(line, Word::Zxid, out)?;
    append(out, &0_i32)?;
    read_word(line, Word::Kind)?;
    let kind = read_event_code(line)?;
    append(out, &kind)?;
    event_fields!(encode_fields, line, out);
    Ok(())
}

/// Reads the server's message, after `S `, and appends its bytes.
pub fn encode_server(line: &mut Reader<'_>, out: &mut Vec<u8>) -> Result<Kind, LineFault>
    ensures encoded { IfOk result (λ kind. (c : Encoded server_at frame_items line.old line.new out.old.items out.new.items) × (kind_of (Server c.value) ≡ kind)) }
    ensures refused { IfErr result (λ e. Fails e (server_at line.old)) }
    ensures keeps { Keeps out.old.items out.new.items }
{
    if line.letters() == b"connect".as_slice() {
        line.literal(b"connect")?;
        encode_connected(line, out)?;
        Ok(Kind::Connected)
    } else if line.letters() == b"event".as_slice() {
        line.literal(b"event")?;
        encode_event(line, out)?;
        Ok(Kind::Event)
    } else {
        let op = encode_reply(line, out)?;
        Ok(Kind::Answered(op))
    }
}

//! A client's line, read into the bytes of its message's payload.
ghost use Rattle.std.specs.Prelude.{◌≡◌, IfErr, IfOk, OnOk};
ghost use Rattle.zk_asks.specs.declared.frame.ClientFrameOf.TheVariants as client;
ghost use Rattle.zk_asks.specs.{Frames.frame_items, Parts.record_of, Rows.body_items};
ghost use Rattle.zk_items.specs.{Encoded.Encoded, Form.Fails, Form.Keeps};
ghost use Rattle.zk_talk.specs.{Written.kind_of, declared.message.MessageOf.TheVariants.Client};
ghost use Rattle.zk_lines.specs.Asks as asks;
ghost use Rattle.zk_lines.specs.{Lines.client_at, Rows.row_at};

use crate::encode_item::{
    Encode, append, append_header, encode_field, encode_fields, encode_multi,
};
use crate::name::{key, op_named, part_named};
use crate::word::{Word, field_word, read_word};
use zk_asks::{Part, ask_rows, part_rows};
use zk_items::{LineFault, LineReason, Reader};
use zk_records::{
    AddWatchAsk, AuthAsk, CheckAsk, CreateAsk, CreateTtlAsk, DeleteAsk, Op, PartOp, PathAsk,
    ReconfigAsk, SetAclAsk, SetDataAsk, SetWatchesAsk, WatchAsk, WatchesAsk, fields_of, op_number,
    owned, part_number,
};
use zk_talk::Kind;

/// Reads the record of a part of the operation `op`, and appends its bytes.
fn encode_part(line: &mut Reader<'_>, op: PartOp, out: &mut Vec<u8>) -> Result<(), LineFault>
    ensures encoded { OnOk result (Encoded (row_at (asks.part_line_of op)) record_of line.old line.new out.old.items out.new.items) }
    ensures refused { IfErr result (λ e. Fails e ((row_at (asks.part_line_of op)) line.old)) }
    ensures keeps { Keeps out.old.items out.new.items }
{
    macro_rules! row {
        ($op:ident: $($part:ident: $record:ident $borrowed:ident),+) => {
            match $op {
                $(PartOp::$part => $record::encode(line, out),)+
            }
        };
    }
    part_rows!(row, op)
}

impl Encode for Part {
    fn encode(line: &mut Reader<'_>, out: &mut Vec<u8>) -> Result<(), LineFault> {
        let op = key!(line, part_named);
        append_header(out, part_number(op), false, -1)?;
        encode_part(line, op, out)
    }
}

/// Reads the record of a request of the operation `op`, and appends its bytes.
fn encode_body(line: &mut Reader<'_>, op: Op, out: &mut Vec<u8>) -> Result<(), LineFault>
    ensures encoded { OnOk result (Encoded (row_at (asks.line_of op)) body_items line.old line.new out.old.items out.new.items) }
    ensures refused { IfErr result (λ e. Fails e ((row_at (asks.line_of op)) line.old)) }
    ensures keeps { Keeps out.old.items out.new.items }
{
    macro_rules! row {
        ($op:ident: $($($held:ident)|+: $record:ident $borrowed:ident),+; $($bare:ident)|+) => {
            match $op {
                $($(Op::$held)|+ => $record::encode(line, out),)+
                $(Op::$bare => Ok(()),)+
                Op::Multi => encode_multi::<Part>(line, out),
            }
        };
    }
    ask_rows!(row, op)
}

/// Reads the connect request, and appends its bytes.
fn encode_connect(line: &mut Reader<'_>, out: &mut Vec<u8>) -> Result<(), LineFault>
    ensures encoded { OnOk result (Encoded asks.connect.at (λ p. frame_items (client.Connect p.0 p.1)) line.old line.new out.old.items out.new.items) }
    ensures refused { IfErr result (λ e. Fails e (asks.connect.at line.old)) }
    ensures keeps { Keeps out.old.items out.new.items }
{
    fields_of!(ConnectRequest, encode_fields, line, out);
    encode_field::<Option<bool>>(line, Word::ReadOnly, out)?;
    Ok(())
}

/// Reads a request, and appends its bytes.
fn encode_request(line: &mut Reader<'_>, out: &mut Vec<u8>) -> Result<(), LineFault>
    ensures encoded { OnOk result (Encoded asks.request.at (λ p. frame_items (client.Ask p.0 p.1)) line.old line.new out.old.items out.new.items) }
    ensures refused { IfErr result (λ e. Fails e (asks.request.at line.old)) }
    ensures keeps { Keeps out.old.items out.new.items }
{
    let xid = line.int()?;
    read_word(line, Word::Blank)?;
    let op = key!(line, op_named);
    append(out, &xid)?;
    append(out, &op_number(op))?;
    encode_body(line, op, out)
}

/// Reads the client's message, after `C `, and appends its bytes.
pub fn encode_client(line: &mut Reader<'_>, out: &mut Vec<u8>) -> Result<Kind, LineFault>
    ensures encoded { IfOk result (λ kind. (c : Encoded client_at frame_items line.old line.new out.old.items out.new.items) × (kind_of (Client c.value) ≡ kind)) }
    ensures refused { IfErr result (λ e. Fails e (client_at line.old)) }
    ensures keeps { Keeps out.old.items out.new.items }
{
    if line.letters() == b"connect".as_slice() {
        line.literal(b"connect")?;
        encode_connect(line, out)?;
        Ok(Kind::Connect)
    } else {
        encode_request(line, out)?;
        Ok(Kind::Ask)
    }
}

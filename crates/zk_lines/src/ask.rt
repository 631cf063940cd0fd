//! The lines of a client's messages, written.
ghost use Rattle.std.specs.Prelude.{◌≡◌, ◌++◌, OnOk, codes};
ghost use Rattle.std.specs.Fmt.{signed_decimal};
ghost use Rattle.zk_items.specs.{Form.Gives, Form.Keeps, Leaf.int};
ghost use Rattle.zk_lines.specs.{Words.word_of, declared.word.Word.TheVariants.Blank};
ghost use Rattle.zk_lines.specs.Asks as asks;
ghost use Rattle.zk_lines.specs.Lines as lines;
ghost use Rattle.zk_lines.specs.Rows.{only_written, row_at};

use crate::put::{Put, put_field, put_fields};
use crate::word::{Word, field_word};
use std::alloc::AllocError;
use zk_asks::{
    Ask, AskOf, AskRef, ClientFrame, ClientFrameOf, ClientRef, Part, PartOf, PartRef, ask_rows,
    part_rows,
};
use zk_items::{LineFault, LineReason, Reader, put_int};
use zk_jute::Items;
use zk_records::{ConnectRequestOf, Op, PartOp, fields_of, op_name, part_name};

/// `part_rows!(put_part, out, part)` appends a part's name and its record.
macro_rules! put_part {
    ($out:ident, $part:ident: $($op:ident: $record:ident $borrowed:ident),+) => {{
        $out.extend_from_slice(part_name($part.op()).as_bytes())?;
        match $part {
            $(PartOf::$op(record) => record.put($out),)+
        }
    }};
}

impl Put for Part {
    ghost form = { asks.part_form };

    fn put(&self, out: &mut Vec<u8>) -> Result<(), AllocError> {
        part_rows!(put_part, out, self)
    }
}

impl<'a> Put for PartRef<'a> {
    ghost form = { asks.part_form };

    fn put(&self, out: &mut Vec<u8>) -> Result<(), AllocError> {
        part_rows!(put_part, out, self)
    }
}

/// `ask_rows!(put_ask, out, ask)` appends what follows a request's name.
macro_rules! put_ask {
    ($out:ident, $ask:ident: $($($held:ident)|+: $record:ident $borrowed:ident),+; $($bare:ident)|+) => {
        match $ask {
            $($(AskOf::$held(record) => record.put($out),)+)+
            $(AskOf::$bare => Ok(()),)+
            AskOf::Multi(parts) => parts.put($out),
        }
    };
}

/// Appends what follows a request's name.
// A function of its own: after the `?` of the name, each arm's proof is dear.
fn put_body(out: &mut Vec<u8>, ask: &Ask) -> Result<(), AllocError>
    ensures spelled { OnOk result (out.new.items ≡ out.old.items ++ (asks.ask_written ask.now).spell) }
    ensures fits { OnOk result ((asks.ask_written ask.now).fits) }
    ensures keeps { Keeps out.old.items out.new.items }
{
    ask_rows!(put_ask, out, ask)
}

/// The same of a borrowed request.
fn put_body_ref(out: &mut Vec<u8>, ask: &AskRef<'_>) -> Result<(), AllocError>
    ensures spelled { OnOk result (out.new.items ≡ out.old.items ++ (asks.ask_written ask.now).spell) }
    ensures fits { OnOk result ((asks.ask_written ask.now).fits) }
    ensures keeps { Keeps out.old.items out.new.items }
{
    ask_rows!(put_ask, out, ask)
}

impl Put for Ask {
    ghost form = { asks.ask_form };

    fn put(&self, out: &mut Vec<u8>) -> Result<(), AllocError> {
        out.extend_from_slice(op_name(self.op()).as_bytes())?;
        put_body(out, self)
    }
}

impl<'a> Put for AskRef<'a> {
    ghost form = { asks.ask_form };

    fn put(&self, out: &mut Vec<u8>) -> Result<(), AllocError> {
        out.extend_from_slice(op_name(self.op()).as_bytes())?;
        put_body_ref(out, self)
    }
}

/// Appends the connect request's fields in order.
fn put_connect<B: Put>(
    out: &mut Vec<u8>,
    hello: &ConnectRequestOf<B>,
    read_only: &Option<bool>,
) -> Result<(), AllocError>
    ensures spelled { OnOk result (out.new.items ≡ out.old.items ++ (asks.connect_of B.form).spell (hello.now, read_only.now)) }
    ensures fits { OnOk result ((asks.connect_of B.form).fits (hello.now, read_only.now)) }
    ensures keeps { Keeps out.old.items out.new.items }
{
    fields_of!(ConnectRequest, put_fields, out, hello)?;
    put_field(out, Word::ReadOnly, read_only)
}

/// Appends a request's line: its xid, and what it asks.
fn put_request<A: Put>(out: &mut Vec<u8>, xid: i32, ask: &A) -> Result<(), AllocError>
    ensures spelled { OnOk result (out.new.items ≡ out.old.items ++ (codes "C " ++ (signed_decimal xid ++ (word_of Blank ++ A.form.spell ask.now)))) }
    ensures fits { OnOk result (int.fits xid × A.form.fits ask.now) }
    ensures keeps { Keeps out.old.items out.new.items }
{
    out.extend_from_slice(b"C ")?;
    put_int(out, xid)?;
    put_field(out, Word::Blank, ask)
}

/// `client!(out, frame)` appends a client's line.
macro_rules! client {
    ($out:ident, $frame:ident) => {
        match $frame {
            ClientFrameOf::Connect { hello, read_only } => {
                $out.extend_from_slice(b"C connect")?;
                put_connect($out, hello, read_only)
            }
            ClientFrameOf::Ask { xid, ask } => put_request($out, *xid, ask),
        }
    };
}

impl Put for ClientFrame {
    ghost form = { only_written lines.ClientFits lines.client_line };

    fn put(&self, out: &mut Vec<u8>) -> Result<(), AllocError> {
        client!(out, self)
    }
}

impl<'a> Put for ClientRef<'a> {
    ghost form = { only_written lines.ClientFits lines.client_line };

    fn put(&self, out: &mut Vec<u8>) -> Result<(), AllocError> {
        client!(out, self)
    }
}

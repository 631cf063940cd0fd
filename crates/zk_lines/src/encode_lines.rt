//! `encode_line`: a line, read into the bytes of its message's payload.
ghost use Rattle.std.specs.Prelude.{◌≡◌, [], IfErr, IfOk, OnErr};
ghost use Rattle.zk_items.specs.Form.{Fails, Keeps};
ghost use Rattle.zk_items.specs.declared.fault.LineReason.TheVariants.{NoMemory};
ghost use Rattle.zk_talk.specs.Held.{Message};
ghost use Rattle.zk_lines.specs.{Encoded.EncodedMessage, Encoded.IsEncoded, Lines.Fits, Lines.line, Lines.message_at};

use crate::encode_answer::encode_server;
use crate::encode_ask::encode_client;
use zk_items::{LineFault, LineReason, Reader};
use zk_talk::Kind;

/// `kind`, where nothing is left of the line.
fn at_end(line: &Reader<'_>, kind: Kind) -> Result<Kind, LineFault>
    ensures done { IfOk result (λ k. (k ≡ kind) × (line.now ≡ [])) }
    ensures rest { OnErr result (line.now ≡ [] → ⊥) }
{
    if line.is_done() {
        Ok(kind)
    } else {
        Err(line.fault(LineReason::Rest))
    }
}

/// Reads the message, whose side comes first, and appends its payload.
fn encode_message(line: &mut Reader<'_>, out: &mut Vec<u8>) -> Result<Kind, LineFault>
    ensures encoded { IfOk result (λ kind. EncodedMessage (message_at line.old) kind out.old.items out.new.items) }
    ensures refused { IfErr result (λ e. Fails e (message_at line.old)) }
    ensures keeps { Keeps out.old.items out.new.items }
{
    if line.passes(b"C ") {
        let kind = encode_client(line, out)?;
        return at_end(line, kind);
    }
    line.literal(b"S ")?;
    let kind = encode_server(line, out)?;
    at_end(line, kind)
}

/// Appends the payload of the message whose line `bytes` are, without line feed, and returns the message's kind.
///
/// # Errors
///
/// The item of the line that can't be read: its column, and the reason; `NoMemory`. `out` is then unchanged.
pub fn encode_line(bytes: &[u8], out: &mut Vec<u8>) -> Result<Kind, LineFault>
    ensures encoded { IfOk result (λ kind. IsEncoded kind bytes.now out.old.items out.new.items) }
    // The line of a message is refused for memory alone.
    ensures only { IfErr result (λ e. (m : Message) → Fits m → bytes.now ≡ line m → e.reason ≡ NoMemory) }
    ensures unchanged { OnErr result (out.new.items ≡ out.old.items) }
{
    let start = out.len();
    let mut line = Reader::new(bytes);
    let encoded = encode_message(&mut line, out);
    if encoded.is_err() {
        out.truncate(start);
    }
    encoded
}

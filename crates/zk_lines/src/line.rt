//! `put_line`, `line_of`, `read_line`: the line of a message, and back.
ghost use Rattle.std.specs.Prelude.{◌≡◌, ◌++◌, IfOk, OnErr, OnOk, Some};
ghost use Rattle.zk_items.specs.Form.{Answers};
ghost use Rattle.zk_lines.specs.Lines as lines;
ghost use Rattle.zk_lines.specs.{Lines.Fits, Lines.Reads, Lines.whole, Lines.message_at, Rows.only_written};
ghost use Rattle.zk_talk.specs.Held.{Message};

use crate::encode_lines::encode_line;
use crate::put::Put;
use std::alloc::{AllocError, Global};
use zk_items::LineFault;
use zk_talk::{Message, MessageOf, MessageRef, message_ref};

/// The capacity that most lines fit into, so that few of them grow twice.
const USUAL: usize = 256;

/// `message!(out, message)` appends the message of either side.
macro_rules! message {
    ($out:ident, $message:ident) => {
        match $message {
            MessageOf::Client(frame) => frame.put($out),
            MessageOf::Server(frame) => frame.put($out),
        }
    };
}

impl Put for Message {
    ghost form = { only_written Fits lines.line };

    fn put(&self, out: &mut Vec<u8>) -> Result<(), AllocError> {
        message!(out, self)
    }
}

impl<'a> Put for MessageRef<'a> {
    ghost form = { only_written Fits lines.line };

    // A call of its own would cost `show`.
    #[inline(always)]
    fn put(&self, out: &mut Vec<u8>) -> Result<(), AllocError> {
        message!(out, self)
    }
}

/// Appends the message's line; appends nothing if memory is refused.
#[inline(always)]
fn put_whole<M: Put>(out: &mut Vec<u8>, message: &M) -> Result<(), AllocError>
    ensures line { OnOk result (out.new.items ≡ out.old.items ++ M.form.spell message.now) }
    ensures fits { OnOk result (M.form.fits message.now) }
    ensures unchanged { OnErr result (out.new.items ≡ out.old.items) }
{
    let before = out.len();
    let put = message.put(out);
    if put.is_err() {
        out.truncate(before);
    }
    put
}

/// The message's line alone.
fn spelled<M: Put>(alloc: Global, message: &M) -> Result<Vec<u8>, AllocError>
    ensures line { IfOk result (λ line. line.items ≡ M.form.spell message.now) }
    ensures fits { OnOk result (M.form.fits message.now) }
{
    let mut line = Vec::with_capacity(alloc, USUAL)?;
    put_whole(&mut line, message)?;
    Ok(line)
}

/// Appends the line of `message` to `out`, without line feed. Every message has one, also one that no conversation has.
///
/// # Errors
///
/// `AllocError` if memory is refused; then `out` is unchanged.
pub fn put_line(out: &mut Vec<u8>, message: &Message) -> Result<(), AllocError>
    ensures line { OnOk result (out.new.items ≡ out.old.items ++ lines.line message.now) }
    // Two messages that fit have two lines.
    ensures fits { OnOk result (Fits message.now) }
    // Nothing of a line that isn't whole is left.
    ensures unchanged { OnErr result (out.new.items ≡ out.old.items) }
{
    put_whole(out, message)
}

/// Appends the line of a borrowed message to `out`, without line feed, as `put_line` does. The message isn't copied.
///
/// # Errors
///
/// `AllocError` if memory is refused; then `out` is unchanged.
#[inline(always)]
pub fn put_line_ref(out: &mut Vec<u8>, message: &MessageRef<'_>) -> Result<(), AllocError>
    ensures line { OnOk result (out.new.items ≡ out.old.items ++ lines.line message.now) }
    // Two messages that fit have two lines.
    ensures fits { OnOk result (Fits message.now) }
    // Nothing of a line that isn't whole is left.
    ensures unchanged { OnErr result (out.new.items ≡ out.old.items) }
{
    put_whole(out, message)
}

/// The line of `message`, without line feed.
///
/// # Errors
///
/// `AllocError` if memory is refused.
pub fn line_of(alloc: Global, message: &Message) -> Result<Vec<u8>, AllocError>
    ensures line { IfOk result (λ line. line.items ≡ lines.line message.now) }
    // Two messages that fit have two lines.
    ensures fits { OnOk result (Fits message.now) }
{
    spelled(alloc, message)
}

/// The line of a borrowed message, without line feed.
///
/// # Errors
///
/// `AllocError` if memory is refused.
pub fn line_of_ref(alloc: Global, message: &MessageRef<'_>) -> Result<Vec<u8>, AllocError>
    ensures line { IfOk result (λ line. line.items ≡ lines.line message.now) }
    // Two messages that fit have two lines.
    ensures fits { OnOk result (Fits message.now) }
{
    spelled(alloc, message)
}

/// The message whose line `bytes` are, without line feed.
///
/// # Errors
///
/// The item of the line that can't be read: its column, and the reason; `NoMemory`.
pub fn read_line(alloc: Global, bytes: &[u8]) -> Result<Message, LineFault>
    // What is read has this line.
    ensures found { IfOk result (λ m. (bytes.now ≡ lines.line m) × Fits m) }
    // A message that has this line is read, unless memory is refused.
    ensures only { (m : Message) → Fits m → bytes.now ≡ lines.line m → Reads m result }
{
    let mut payload = Vec::new(alloc);
    let kind = encode_line(bytes, &mut payload)?;
    Ok(message_ref(kind, &payload).to_message(alloc)?)
}

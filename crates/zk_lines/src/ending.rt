//! `ending_line`: the line of an ending, which begins with a dot.
ghost use Rattle.std.specs.Prelude.{◌≡◌, ◌++◌, IfOk, OnOk};
ghost use Rattle.std.specs.Fmt.{decimal};
ghost use Rattle.zk_talk.specs.declared.message.Ending.TheVariants.{Cut};
ghost use Rattle.zk_lines.specs.Endings.{count, ending_text, order_text, place_text, reason_text, sided};

use itoa::Buffer;
use std::alloc::{AllocError, Global};
use zk_items::put_int;
use zk_jute::{Reason, reason_name};
use zk_talk::{Ending, Fault, Side};

/// Room for the line of an ending with the longest numbers.
const ROOM: usize = 192;

/// Appends `word` and the letter of `side`.
#[tactic(auto, unfolding(crate::specs::Endings::sided))]
fn put_side(out: &mut Vec<u8>, word: &[u8], side: Side) -> Result<(), AllocError>
    ensures { OnOk result (out.new.items ≡ out.old.items ++ sided word.now side) }
{
    out.extend_from_slice(word)?;
    match side {
        Side::Client => out.extend_from_slice(b"C"),
        Side::Server => out.extend_from_slice(b"S"),
    }
}

/// Appends `word` and `n` in decimal.
#[tactic(auto, unfolding(crate::specs::Endings::count))]
fn put_count(out: &mut Vec<u8>, word: &[u8], n: u64) -> Result<(), AllocError>
    ensures { OnOk result (out.new.items ≡ out.old.items ++ count word.now n) }
{
    out.extend_from_slice(word)?;
    out.extend_from_slice(Buffer::new().format(n).as_bytes())
}

/// Appends ` reason=` and the reason's name; for `XidOrder` its two xids follow.
fn put_reason(out: &mut Vec<u8>, reason: &Reason) -> Result<(), AllocError>
    ensures { OnOk result (out.new.items ≡ out.old.items ++ reason_text reason.now) }
{
    out.extend_from_slice(b" reason=")?;
    out.extend_from_slice(reason_name(reason).as_bytes())?;
    put_order(out, reason)
}

fn put_order(out: &mut Vec<u8>, reason: &Reason) -> Result<(), AllocError>
    ensures { OnOk result (out.new.items ≡ out.old.items ++ order_text reason.now) }
{
    match reason {
        Reason::XidOrder { expected, got } => {
            out.extend_from_slice(b" expected=")?;
            put_int(out, *expected)?;
            out.extend_from_slice(b" got=")?;
            put_int(out, *got)
        }
        _ => Ok(()),
    }
}

/// Appends where the fault is: its side, frame, offset and place, and its reason.
fn put_place(out: &mut Vec<u8>, fault: &Fault) -> Result<(), AllocError>
    ensures { OnOk result (out.new.items ≡ out.old.items ++ place_text fault.now) }
{
    put_side(out, b". refused side=", fault.side)?;
    put_count(out, b" frame=", fault.frame)?;
    put_count(out, b" offset=", fault.offset)?;
    put_count(out, b" place=", u64::from(fault.place))
}

/// Appends which side ends within a frame, the frame's number, and how many bytes of it came.
fn put_cut(out: &mut Vec<u8>, side: Side, frame: u64, got: u64) -> Result<(), AllocError>
    ensures { OnOk result (out.new.items ≡ out.old.items ++ ending_text (Cut side frame got)) }
{
    put_side(out, b". cut side=", side)?;
    put_count(out, b" frame=", frame)?;
    put_count(out, b" got=", got)
}

fn put_ending(out: &mut Vec<u8>, ending: &Ending) -> Result<(), AllocError>
    ensures { OnOk result (out.new.items ≡ out.old.items ++ ending_text ending.now) }
{
    match ending {
        Ending::Whole { unanswered } => {
            put_count(out, b". whole unanswered=", u64::from(*unanswered))
        }
        Ending::Cut { side, frame, got } => { put_cut(out, *side, *frame, u64::from(*got)) }
        Ending::Refused(fault) => {
            put_place(out, fault)?;
            put_reason(out, &fault.reason)
        }
    }
}

/// The line of `ending`, without line feed.
///
/// # Errors
///
/// `AllocError` if memory is refused.
pub fn ending_line(alloc: Global, ending: &Ending) -> Result<Vec<u8>, AllocError>
    ensures { IfOk result (λ line. line.items ≡ ending_text ending.now) }
{
    let mut line = Vec::with_capacity(alloc, ROOM)?;
    put_ending(&mut line, ending)?;
    Ok(line)
}

//! What a piece does to a side, client or server alike, and the fault that stays.
ghost use Rattle.std.specs.Prelude.{◌≡◌, ◌≢◌, ◌<◌, ◌+◌, ◌^◌, [], Some};
ghost use Rattle.zk_jute.specs.declared.fault.Reason.TheVariants.{NoMemory};
ghost use Rattle.zk_frames.specs.Framing.{IsBeginning};
ghost use Rattle.zk_talk.specs.{Fault.fault_of, Sound.IsKnown, Receiving.IsReceived};

use crate::frame::is_no_memory;
use crate::message::{Fault, Side};
use crate::stream::{Advance, Stream};
use zk_jute::{ItemFault, Reason};

/// The fault of `item` in the side's next frame, after `used` bytes more of the side.
pub fn next_fault(side: Side, stream: &Stream, used: usize, item: ItemFault) -> Fault
    requires { stream.now.size + used < 2 ^ 64 }
    ensures { result ≡ fault_of side stream.now.count (stream.now.size + used) item.place item.reason }
{
    Fault {
        side,
        frame: stream.count(),
        offset: stream.size() + used as u64,
        place: item.place,
        reason: item.reason,
    }
}

/// The fault of the frame to which `used` more bytes belong. It stays, unless memory was refused.
pub fn refuse(
    kept: &mut Option<Fault>,
    side: Side,
    stream: &Stream,
    used: usize,
    item: ItemFault,
) -> Fault
    requires { stream.now.size + used < 2 ^ 64 }
    ensures wanting { item.reason ≡ NoMemory → (result ≡ fault_of side stream.now.count stream.now.size 0 NoMemory) × (kept.new ≡ kept.old) }
    ensures told { item.reason ≢ NoMemory → (result ≡ fault_of side stream.now.count (stream.now.size + used) item.place item.reason) × (kept.new ≡ Some result) }
    ensures known { IsKnown kept.old → IsKnown kept.new }
{
    if is_no_memory(item) {
        let wanted = ItemFault::at(0, Reason::NoMemory);
        return next_fault(side, stream, 0, wanted);
    }
    let fault = next_fault(side, stream, used, item);
    *kept = Some(fault);
    fault
}

/// Takes the piece up to the end of the first frame that becomes whole, or all of it. Returns the number of bytes that
/// were taken, if a frame is whole, and `None` if all were taken and none is.
///
/// # Errors
///
/// `LengthRange` at a length, or `StreamEnd` at a byte too many, which then stays.
#[inline(always)]
pub fn receive(
    kept: &mut Option<Fault>,
    side: Side,
    stream: &mut Stream,
    piece: &[u8],
) -> Result<Option<usize>, Fault>
    requires begins { IsBeginning stream.old.limit stream.old.held }
    requires dropped { stream.old.kept ≡ [] }
    requires size { stream.old.size < 2 ^ 62 }
    ensures received { IsReceived side stream.old piece.now kept.old result stream.new kept.new }
    ensures known { IsKnown kept.old → IsKnown kept.new }
{
    match stream.take(piece) {
        Advance::Within => {
            stream.go_on(piece.len());
            Ok(None)
        }
        Advance::Whole(used) => Ok(Some(used)),
        Advance::Refused(used, reason) => {
            let item = ItemFault::at(0, reason);
            Err(refuse(kept, side, stream, used, item))
        }
    }
}

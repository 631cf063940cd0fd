//! The front of a room of a known size, appended.
ghost use Rattle.std.specs.Prelude.{◌≡◌, ◌≤◌, ◌++◌, OnOk, length, take};
ghost use Rattle.zk_items.specs.Form.{Keeps};

use std::alloc::AllocError;

/// Appends the first `count` bytes of `room`.
// The whole room is copied, and what comes after them taken back: a copy of a length that isn't known beforehand is a call.
#[inline(always)]
pub fn append_first(out: &mut Vec<u8>, room: &[u8], count: usize) -> Result<(), AllocError>
    requires { count ≤ length room.now }
    ensures appended { OnOk result (out.new.items ≡ out.old.items ++ take count room.now) }
    ensures keeps { Keeps out.old.items out.new.items }
{
    let end = out.len() + count;
    out.extend_from_slice(room)?;
    out.truncate(end);
    Ok(())
}

//! Whether a reply is to a request that wasn't seen, of a connection that is seen late.
ghost use Rattle.std.specs.Prelude.{◌≡◌, true, IfSome, IfNone, MatchBool};
ghost use Rattle.zk_through.specs.{Turns.IsEarlier, Turns.matched_after, LeftOut.has_turn, LeftOut.xid_of, LeftOut.zxid_of, LeftOut.err_of};

use crate::frame_header::header;
use crate::turns::{Turns, has_matched};

/// Whether the reply with this xid is to a request that wasn't seen. If it isn't, it counts for `matched`.
#[cold]
#[inline(never)]
fn is_unseen(matched: &mut bool, turns: &Turns, ahead: Option<i32>) -> bool
    ensures earlier { MatchBool result (IsEarlier matched.old turns.now ahead) (IsEarlier matched.old turns.now ahead → ⊥) }
    ensures now { MatchBool result (matched.new ≡ matched.old) (matched.new ≡ matched_after ahead matched.old) }
{
    if turns.is_earlier(ahead, *matched) {
        return true;
    }
    *matched = has_matched(ahead, *matched);
    false
}

/// The xid, the zxid and the err of the server's frame with this payload, if that is such a reply, of a connection that is
/// seen `late`; nothing of another.
#[inline(always)]
pub fn unseen(
    late: bool,
    matched: &mut bool,
    turns: &Turns,
    payload: &[u8],
    ahead: Option<i32>,
) -> Option<(i32, i64, i32)>
    requires ahead { IfSome ahead (λ xid. has_turn 16 payload.now ≡ true) }
    ensures late { IfSome result (λ head. late ≡ true) }
    ensures some { IfSome result (λ head. IsEarlier matched.old turns.now ahead × (head ≡ (xid_of payload.now, zxid_of payload.now, err_of payload.now))) }
    ensures none { IfNone result (late ≡ true → IsEarlier matched.old turns.now ahead → ⊥) }
    ensures same { late ≡ true → IsEarlier matched.old turns.now ahead → matched.new ≡ matched.old }
    ensures counts { late ≡ true → (IsEarlier matched.old turns.now ahead → ⊥) → matched.new ≡ matched_after ahead matched.old }
{
    if !late {
        return None;
    }
    if !is_unseen(matched, turns, ahead) {
        return None;
    }
    header(payload)
}

//! What comes after a header within a multi (`MultiTransactionRecord.deserialize`), and the walk to the end marker.
ghost use Rattle.std.specs.Prelude.{◌≡◌, ◌≤◌, ◌↔◌, ℕ, List, length, IsTrue};
ghost use Rattle.zk_jute.specs.{Item.HaveBytes, Shown.AreTold, Standing.OneStands, Told.StandsAt};
ghost use Rattle.zk_asks.specs.{Multi.AreHeaded, Multi.Marks, Parts.end_header, Parts.ended};

use zk_jute::{Member, Sequence, known_at};
use zk_records::{MultiHeader, PartOp, part_of};

/// What comes after a header within a multi: a part, nothing, or what can't be read.
#[derive(Drop)]
pub(crate) enum PartMark {
    Part(PartOp),
    End,
    Bad,
}

pub(crate) fn part_mark_of(header: &MultiHeader) -> PartMark
    ensures { Marks header.now result }
{
    if header.err != -1 {
        return PartMark::Bad;
    }
    if header.done {
        if header.kind == -1 {
            PartMark::End
        } else {
            PartMark::Bad
        }
    } else {
        match part_of(header.kind) {
            Some(op) => PartMark::Part(op),
            None => PartMark::Bad,
        }
    }
}

/// Whether the header is the end marker: done, with -1 for its type and its error
/// (`MultiTransactionRecord.serialize`).
pub fn is_end(header: &MultiHeader) -> bool
    ensures { IsTrue result ↔ (header.now ≡ end_header) }
{
    header.done && header.kind == -1 && header.err == -1
}

/// The values that are known to be at `place`, up to the end marker. Each begins with a header.
pub fn known_multi<'a, M: Member>(payload: &'a [u8], place: usize) -> Sequence<'a, M>
    requires within { place ≤ length payload.now }
    requires headed { AreHeaded M.items }
    requires told { AreTold M.items (M.value payload.now) payload.now }
    requires stand { OneStands (ended M.items) payload.now place }
    ensures { (ms : List M) (end : ℕ) → HaveBytes (ended M.items ms) → StandsAt (ended M.items ms) payload.now place end → result ≡ ms }
{
    let mut count = 0;
    let mut at = place;
    loop {
        let (header, _) = known_at::<MultiHeader>(payload, at);
        if is_end(&header) {
            return Sequence::known(payload, count, place);
        }
        let (_, next) = M::pass(payload, at);
        at = next;
        count += 1;
    }
}

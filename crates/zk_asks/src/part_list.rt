//! `PartList`: the parts of a multi, borrowed from its payload.
ghost use Rattle.std.specs.Prelude.{List, ◌≡◌, ◌≤◌, ℕ, length, Ok, IfOk, IfErr};
ghost use Rattle.zk_jute.specs.{Item.HaveBytes, Layout.IsValueOf, Told.StandsAt, Told.HasSureFault, Told.IsSurelyToldAt, Verdict.Says, Standing.OneStands};
ghost use Rattle.zk_asks.specs.{Held.Part, Faults.IsMultiFault, Fronts.IsRecordAt, Fronts.IsOwnRecord, Shown.part_value};
ghost use Rattle.zk_asks.specs.Parts.{part_row, part_layout, op_of_part, record_of, part_items, multi_items};

use crate::frame::{PartOf, PartRef};
use crate::multi::{PartMark, part_mark_of};
use crate::part_rows;
use zk_jute::{Ends, KnownIn, Member, Reason, Sequence, Verdict, known_at, read_ref};
use zk_records::{
    CheckAskRef, CreateAskRef, DeleteAskRef, MultiHeader, PartOp, SetDataAskRef, part_of,
};

/// The parts of a multi, borrowed.
pub type PartList<'a> = Sequence<'a, PartRef<'a>>;

impl<'a> Member for PartRef<'a> {
    type Mark = PartOp;

    ghost items = { part_items };

    ghost value = { part_value };

    ghost mark = { op_of_part };

    #[inline(always)]
    fn pass(payload: &[u8], place: usize) -> (PartOp, usize)
        requires place { place ≤ length payload.now }
        requires known { OneStands part_items payload.now place }
        ensures value { (p : Part) × (part_value payload.now place ≡ Ok (p, result.1)) × (op_of_part p ≡ result.0) }
        ensures only { (p : Part) (end : ℕ) → HaveBytes (part_items p) → StandsAt (part_items p) payload.now place end → result.1 ≡ end }
    {
        let (op, after) = op_before(payload, place);
        (op, record_end(payload, after, op))
    }
}

impl<'a> KnownIn<'a> for PartRef<'a> {
    #[inline(always)]
    fn known_in(payload: &'a [u8], place: usize) -> (Self, usize) {
        let (op, after) = op_before(payload, place);
        record_in(payload, after, op)
    }
}

/// The operation of the part that is known to be at `place`, and the place after its header.
#[inline(always)]
fn op_before(payload: &[u8], place: usize) -> (PartOp, usize)
    requires place { place ≤ length payload.now }
    requires known { OneStands part_items payload.now place }
    ensures within { result.1 ≤ length payload.now }
    ensures known { OneStands (part_row result.0).wired.items payload.now result.1 }
    ensures op { (p : Part) (end : ℕ) → HaveBytes (part_items p) → StandsAt (part_items p) payload.now place end → op_of_part p ≡ result.0 }
    ensures record { (p : Part) (end : ℕ) → HaveBytes (part_items p) → StandsAt (part_items p) payload.now place end → IsOwnRecord p payload.now result.1 end }
{
    let (header, after) = known_at::<MultiHeader>(payload, place);
    (part_of(header.kind).unwrap(), after)
}

/// The record that is known to be at `place`, of a part of the operation `op`, and the place after it.
#[inline(always)]
fn record_in<'a>(payload: &'a [u8], place: usize, op: PartOp) -> (PartRef<'a>, usize)
    requires place { place ≤ length payload.now }
    requires known { OneStands (part_row op).wired.items payload.now place }
    ensures { (p : Part) (end : ℕ) → op_of_part p ≡ op → HaveBytes (record_of p) → StandsAt (record_of p) payload.now place end → result ≡ (p, end) }
{
    macro_rules! row {
        ($op:ident: $($part:ident: $record:ident $borrowed:ident),+) => {
            match $op {
                $(PartOp::$part => {
                    let (body, end) = known_at::<$borrowed>(payload, place);
                    (PartOf::$part(body), end)
                })+
            }
        };
    }
    part_rows!(row, op)
}

/// The place that `record_in` returns. No record is made, which costs less where only parts are passed over.
fn record_end(payload: &[u8], place: usize, op: PartOp) -> usize
    requires place { place ≤ length payload.now }
    requires known { OneStands (part_row op).wired.items payload.now place }
    ensures { (p : Part) (end : ℕ) → op_of_part p ≡ op → HaveBytes (record_of p) → StandsAt (record_of p) payload.now place end → result ≡ end }
{
    macro_rules! row {
        ($op:ident: $($part:ident: $record:ident $borrowed:ident),+) => {
            match $op {
                $(PartOp::$part => known_at::<$borrowed>(payload, place).1,)+
            }
        };
    }
    part_rows!(row, op)
}

/// The place after the record of a part of the operation `op` at `place`. No record is made.
fn part_end<V: Verdict>(payload: &[u8], place: usize, op: PartOp) -> Result<usize, V>
    requires { place ≤ length payload.now }
    ensures found { IfOk result (λ end. IsRecordAt op payload.now place end) }
    ensures fault { IfErr result (Says V.tells (HasSureFault (IsValueOf (part_layout op)) payload.now place)) }
    ensures within { IfOk result (λ end. end ≤ length payload.now) }
{
    macro_rules! row {
        ($op:ident: $($part:ident: $record:ident $borrowed:ident),+) => {
            match $op {
                $(PartOp::$part => $borrowed::end(payload, place),)+
            }
        };
    }
    part_rows!(row, op)
}

/// How many parts there are from `place` on, and the place after the end marker.
pub(crate) fn multi_end<V: Verdict>(payload: &[u8], place: usize) -> Result<(usize, usize), V>
    requires { place ≤ length payload.now }
    ensures found { IfOk result (λ x. (ds : List Part) × (length ds ≡ x.0) × HaveBytes (multi_items ds) × StandsAt (multi_items ds) payload.now place x.1) }
    ensures fault { IfErr result (Says V.tells (IsSurelyToldAt IsMultiFault payload.now place)) }
    ensures within { IfOk result (λ x. x.1 ≤ length payload.now) }
{
    let mut count = 0;
    let mut at = place;
    loop {
        let (header, after) = V::on(read_ref::<MultiHeader>(payload, at))?;
        match part_mark_of(&header) {
            PartMark::Part(op) => {
                let next = part_end::<V>(payload, after, op)?;
                at = next;
                count += 1;
            }
            PartMark::End => return Ok((count, after)),
            PartMark::Bad => return Err(V::at(at, Reason::BadPart)),
        }
    }
}

//! `DoneList`: the results of a multi, borrowed from its payload.
ghost use Rattle.std.specs.Prelude.{◌≡◌, ◌≤◌, ℕ, length, Ok, IfOk, IfErr};
ghost use Rattle.zk_jute.specs.{Item.HaveBytes, Layout.IsValueOf, Standing.OneStands, Told.StandsAt, Told.HasSureFault, Told.IsSurelyToldAt, Verdict.Says};
ghost use Rattle.zk_answers.specs.{Held.PartDone, Fronts.AreDonesAt, Fronts.IsResultAt, Fronts.IsDoneAt, Fronts.IsDoneFaultAt, Shown.done_value};
ghost use Rattle.zk_answers.specs.Results.{done_items, result_layout, result_of, IsDoneFault, Own};

use crate::frame::{PartDoneOf, PartDoneRef};
use crate::multi::{ResultMark, result_mark_of};
use zk_asks::{Asked, is_end};
use zk_jute::{Ends, KnownIn, Member, Reason, Sequence, TextRef, Verdict, known_at, read_ref};
use zk_records::{MultiHeader, PartOp, Stat, part_of};

/// The results of a multi's parts, borrowed.
pub type DoneList<'a> = Sequence<'a, PartDoneRef<'a>>;

impl<'a> Member for PartDoneRef<'a> {
    type Mark = ();

    ghost items = { done_items };

    ghost value = { done_value };

    ghost mark = { λ _. tt };

    fn pass(payload: &[u8], place: usize) -> ((), usize)
        requires place { place ≤ length payload.now }
        requires known { OneStands done_items payload.now place }
        ensures value { (d : PartDone) × (done_value payload.now place ≡ Ok (d, result.1)) × (tt ≡ result.0) }
        ensures only { (d : PartDone) (end : ℕ) → HaveBytes (done_items d) → StandsAt (done_items d) payload.now place end → result.1 ≡ end }
    {
        let (_, end) = PartDoneRef::known_in(payload, place);
        ((), end)
    }
}

/// A result is of the operation in its own header.
impl<'a> KnownIn<'a> for PartDoneRef<'a> {
    fn known_in(payload: &'a [u8], place: usize) -> (Self, usize) {
        let (header, after) = known_at::<MultiHeader>(payload, place);
        match part_of(header.kind) {
            Some(op) => result_in(payload, after, op),
            None => {
                let (number, end) = known_at(payload, after);
                (PartDoneOf::PartFailed(number), end)
            }
        }
    }
}

/// The record that is known to be at `place`, of a part of the operation `op` that was done, and the place after it.
fn result_in<'a>(payload: &'a [u8], place: usize, op: PartOp) -> (PartDoneRef<'a>, usize)
    requires place { place ≤ length payload.now }
    requires known { (end : ℕ) × IsResultAt op payload.now place end }
    ensures { (d : PartDone) (end : ℕ) → Own op d → HaveBytes (result_of d) → StandsAt (result_of d) payload.now place end → result ≡ (d, end) }
{
    match op {
        PartOp::Create => {
            let (path, end) = known_at(payload, place);
            (PartDoneOf::Created(path), end)
        }
        PartOp::Delete => (PartDoneOf::Deleted, place),
        PartOp::SetData => {
            let (stat, end) = known_at(payload, place);
            (PartDoneOf::DataSet(stat), end)
        }
        PartOp::Check => (PartDoneOf::Checked, place),
    }
}

/// The place after the record at `place` of a part of the operation `op` that was done. No result is made.
fn result_end<V: Verdict>(payload: &[u8], place: usize, op: PartOp) -> Result<usize, V>
    requires { place ≤ length payload.now }
    ensures found { IfOk result (λ end. IsResultAt op payload.now place end) }
    ensures fault { IfErr result (Says V.tells (HasSureFault (IsValueOf (result_layout op)) payload.now place)) }
    ensures within { IfOk result (λ end. end ≤ length payload.now) }
{
    match op {
        PartOp::Create => TextRef::end(payload, place),
        PartOp::SetData => Stat::end(payload, place),
        PartOp::Delete | PartOp::Check => Ok(place),
    }
}

/// The place after the result at `place`, its header included, of a part of the operation `op`.
fn done_end<V: Verdict>(payload: &[u8], place: usize, op: PartOp) -> Result<usize, V>
    requires { place ≤ length payload.now }
    ensures found { IfOk result (λ end. IsDoneAt op payload.now place end) }
    ensures fault { IfErr result (Says V.tells (IsDoneFaultAt op payload.now place)) }
    ensures within { IfOk result (λ end. end ≤ length payload.now) }
{
    let (header, after) = V::on(read_ref::<MultiHeader>(payload, place))?;
    match result_mark_of(&header, op) {
        ResultMark::Bad => Err(V::at(place, Reason::BadPart)),
        ResultMark::Error => {
            let (number, end) = V::on(read_ref::<i32>(payload, after))?;
            if number != header.err {
                return Err(V::at(place, Reason::BadPart));
            }
            Ok(end)
        }
        ResultMark::Result => result_end(payload, after, op),
    }
}

/// The place after the results at `place` of the parts of `form`, and the end marker.
pub(crate) fn results_end<F: Asked, V: Verdict>(
    form: &F,
    payload: &[u8],
    place: usize,
) -> Result<usize, V>
    requires { place ≤ length payload.now }
    ensures found { IfOk result (AreDonesAt (F.part_ops form.now) payload.now place) }
    ensures fault { IfErr result (Says V.tells (IsSurelyToldAt (IsDoneFault (F.part_ops form.now)) payload.now place)) }
    ensures within { IfOk result (λ end. end ≤ length payload.now) }
{
    let mut at = place;
    for j in 0..form.parts() {
        let op = form.part(j).unwrap();
        let next = done_end::<V>(payload, at, op)?;
        at = next;
    }
    let (header, end) = V::on(read_ref::<MultiHeader>(payload, at))?;
    if !is_end(&header) {
        return Err(V::at(at, Reason::BadPart));
    }
    Ok(end)
}

//! `fits`: whether a reply fits a request.
ghost use Rattle.std.specs.Prelude.{◌↔◌, IsTrue};
ghost use Rattle.zk_answers.specs.{Results.Answers, Results.AnswerAll, Frames.Fits};

use crate::frame::{Body, Outcome, PartDone, Reply};
use zk_asks::Asked;
use zk_records::PartOp;

/// Whether `done` is the result of a part of the operation `op`: its own, or an error.
fn answers(op: PartOp, done: &PartDone) -> bool
    ensures { IsTrue result ↔ Answers op done.now }
{
    match done {
        PartDone::Created(_) => op == PartOp::Create,
        PartDone::Deleted => op == PartOp::Delete,
        PartDone::DataSet(_) => op == PartOp::SetData,
        PartDone::Checked => op == PartOp::Check,
        PartDone::PartFailed(_) => true,
    }
}

/// Whether there are as many results as `form` has parts, each its part's own or an error.
fn answer_all<F: Asked>(form: &F, dones: &[PartDone]) -> bool
    ensures { IsTrue result ↔ AnswerAll (F.part_ops form.now) dones.now }
{
    if form.parts() as usize != dones.len() {
        return false;
    }
    for j in 0..form.parts() {
        if !answers(form.part(j).unwrap(), &dones[j as usize]) {
            return false;
        }
    }
    true
}

/// Whether `reply` fits the request `form`: the operations are equal, and a multi that was done has as many results as
/// parts, each its part's own or an error.
pub fn fits<F: Asked>(form: &F, reply: &Reply) -> bool
    ensures { IsTrue result ↔ Fits (F.operation form.now) (F.part_ops form.now) reply.now }
{
    if reply.op() != form.op() {
        return false;
    }
    match &reply.outcome {
        Outcome::Done(Body::Multi(dones)) => answer_all(form, dones.as_slice()),
        _ => true,
    }
}

//! `ResultMark`: what comes after a header within a multi's results (`MultiResponse`).
ghost use Rattle.zk_answers.specs.Results.{ItsPlace};

use zk_records::{MultiHeader, PartOp, part_number};

/// What comes after a header while a part is left: the part's record, an error, or what can't be read.
#[derive(Drop)]
pub(crate) enum ResultMark {
    Result,
    Error,
    Bad,
}

pub(crate) fn result_mark_of(header: &MultiHeader, op: PartOp) -> ResultMark
    ensures { ItsPlace op header.now result }
{
    if header.done {
        ResultMark::Bad
    } else if header.kind == -1 {
        ResultMark::Error
    } else if header.kind == part_number(op) && header.err == 0 {
        ResultMark::Result
    } else {
        ResultMark::Bad
    }
}

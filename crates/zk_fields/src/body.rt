//! The fields of replies, and of a multi's results.
ghost use Rattle.std.specs.Prelude.{◌≡◌};
ghost use Rattle.zk_answers.specs.Results.{mark_before};
ghost use Rattle.zk_fields.specs.{Room.Takes, Heads.result_entries, Heads.done_entries, Rows.body_entries};

use crate::ask::{plain_head, show_head};
use crate::field::{At, Field};
use crate::name::{ACL, CHILDREN, CODE, COUNT, DATA, ERR, NONE, PATH};
use crate::show::Show;
use zk_answers::{BodyOf, BodyRef, PartDoneOf, PartDoneRef, body_rows};
use zk_records::{MultiHeader, PartOp, part_number};

/// The header that begins a result.
fn mark_before(done: &PartDoneRef<'_>) -> MultiHeader
    ensures { result ≡ mark_before done.now }
{
    match done {
        PartDoneOf::Created(_) => plain_head(part_number(PartOp::Create), 0),
        PartDoneOf::Deleted => plain_head(part_number(PartOp::Delete), 0),
        PartDoneOf::DataSet(_) => plain_head(part_number(PartOp::SetData), 0),
        PartDoneOf::Checked => plain_head(part_number(PartOp::Check), 0),
        PartDoneOf::PartFailed(error) => plain_head(-1, *error),
    }
}

/// Writes the fields after a result's header.
#[tactic(auto, using(crate::proofs::Rooms::takes_nothing))]
fn show_result(done: &PartDoneRef<'_>, room: &mut [Field], at: At) -> At
    ensures { Takes at room.old (result_entries done.now) result room.new }
{
    match done {
        PartDoneOf::Created(path) => path.show(PATH, room, at),
        PartDoneOf::Deleted => at,
        PartDoneOf::DataSet(stat) => stat.show(NONE, room, at),
        PartDoneOf::Checked => at,
        PartDoneOf::PartFailed(error) => error.show(ERR, room, at),
    }
}

impl<'a> Show for PartDoneRef<'a> {
    ghost entries = { λ _ d. done_entries d };

    #[tactic(auto, using(crate::proofs::Rooms::takes_headed))]
    fn show(&self, _name: u16, room: &mut [Field], at: At) -> At {
        let at = show_head(&mark_before(self), room, at);
        show_result(self, room, at)
    }
}

impl<'a> Show for BodyRef<'a> {
    ghost entries = { λ _ b. body_entries b };

    #[tactic(auto, using(crate::proofs::Rooms::takes_nothing, crate::proofs::Rooms::takes_both))]
    fn show(&self, _name: u16, room: &mut [Field], at: At) -> At {
        macro_rules! row {
            ($body:ident: $($($one:ident)|+: $only:ident $name:ident $kind:ident),+;
             $($both:ident: $first:ident $first_name:ident $first_kind:ident $borrowed:ident),+; $($bare:ident)|+) => {
                match $body {
                    $($(BodyOf::$one { $only } => $only.show($name, room, at),)+)+
                    $(BodyOf::$both { $first, stat } => {
                        let at = $first.show($first_name, room, at);
                        stat.show(NONE, room, at)
                    })+
                    $(BodyOf::$bare => at,)+
                    BodyOf::Multi(dones) => dones.show(NONE, room, at),
                }
            };
        }
        body_rows!(row, self)
    }
}

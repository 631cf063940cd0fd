//! The fields of requests, and of a multi's parts.
ghost use Rattle.std.specs.Prelude.{◌≡◌, ◌∷◌, []};
ghost use Rattle.zk_asks.specs.Parts.{part_header};
ghost use Rattle.zk_fields.specs.{Fields.Head, Heads.plain_head, Heads.record_entries, Heads.part_entries, Rows.ask_entries, Room.Takes};

use crate::field::{At, Field, put};
use crate::kind::PART;
use crate::name::NONE;
use crate::show::Show;
use zk_asks::{AskOf, AskRef, PartOf, PartRef, ask_rows, part_rows};
use zk_records::{MultiHeader, PartOp, part_number};

/// Writes the field of the header that begins a part or a result.
#[tactic(auto, using(crate::proofs::Rooms::takes_one))]
pub(crate) fn show_head(header: &MultiHeader, room: &mut [Field], at: At) -> At
    ensures { Takes at room.old (Head header.now ∷ []) result room.new }
{
    let field = Field {
        place: at.place,
        length: 9,
        number: i64::from(header.kind),
        name: NONE,
        kind: PART,
        null: 0,
    };
    put(field, 9, room, at)
}

/// A header that isn't the end marker.
pub(crate) fn plain_head(kind: i32, err: i32) -> MultiHeader
    ensures { result ≡ plain_head kind err }
{
    MultiHeader {
        kind,
        done: false,
        err,
    }
}

/// The header that begins a part.
fn show_part(op: PartOp, room: &mut [Field], at: At) -> At
    ensures { Takes at room.old (Head (part_header op) ∷ []) result room.new }
{
    show_head(&plain_head(part_number(op), -1), room, at)
}

/// A part's record.
fn show_record(part: &PartRef<'_>, room: &mut [Field], at: At) -> At
    ensures { Takes at room.old (record_entries part.now) result room.new }
{
    macro_rules! row {
        ($part:ident: $($op:ident: $record:ident $borrowed:ident),+) => {
            match $part {
                $(PartOf::$op(record) => record.show(NONE, room, at),)+
            }
        };
    }
    part_rows!(row, part)
}

impl<'a> Show for PartRef<'a> {
    ghost entries = { λ _ p. part_entries p };

    #[tactic(auto, using(crate::proofs::Rooms::takes_headed))]
    fn show(&self, _name: u16, room: &mut [Field], at: At) -> At {
        let at = show_part(self.op(), room, at);
        show_record(self, room, at)
    }
}

impl<'a> Show for AskRef<'a> {
    ghost entries = { λ _ a. ask_entries a };

    #[tactic(auto, using(crate::proofs::Rooms::takes_nothing))]
    fn show(&self, _name: u16, room: &mut [Field], at: At) -> At {
        macro_rules! row {
            ($ask:ident: $($($held:ident)|+: $record:ident $borrowed:ident),+; $($bare:ident)|+) => {
                match $ask {
                    $($(AskOf::$held(record) => record.show(NONE, room, at),)+)+
                    $(AskOf::$bare => at,)+
                    AskOf::Multi(parts) => parts.show(NONE, room, at),
                }
            };
        }
        ask_rows!(row, self)
    }
}

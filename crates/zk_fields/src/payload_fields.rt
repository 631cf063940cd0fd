//! `opened_fields`: the fields of any payload, up to a place.
ghost use Rattle.std.specs.Prelude.{◌≡◌, ℕ, ◌≤◌, ◌<◌, ◌^◌, List, length, take, IfOk, IfSome};
ghost use Rattle.zk_jute.specs.Reading.{Tells};
ghost use Rattle.zk_fields.specs.{Frames.AreWritten, Heads.OfHead, Heads.headed_part, Heads.headed_result, Heads.headed_shape, Rows.ask_content, Rows.body_content};
ghost use Rattle.zk_fields.specs.Walks.{Met, Walks, walk, head_met, header_at, content_met, opened_content, opened_start, opened_fields};

use crate::ask::show_head;
use crate::field::{At, Field};
use crate::frame::{REPLY, REQUEST};
use crate::name::*;
use crate::walk::{Column, Many, Walk, Walked, walk_fields, walk_nothing, walk_times, walked};
use std::marker::PhantomData;
use zk_answers::body_rows;
use zk_asks::{ask_rows, part_rows};
use zk_jute::{ItemFault, bool_at, int_at};
use zk_records::{MultiHeader, Op, PartOp, borrowed, fields_of, part_of};

/// The kind of message that a payload is read as.
#[derive(Clone, Copy)]
pub enum Opened {
    /// A connect request.
    First,
    /// A request of this operation.
    Ask(Op),
    /// The answer to a connect request.
    Connected,
    /// A reply to a request of this operation.
    Reply(Op),
    /// An event.
    Event,
}

/// The header of a part or a result, and the place after it.
fn head_at(payload: &[u8], place: usize) -> Result<(MultiHeader, usize), ItemFault>
    requires { place ≤ length payload.now }
    ensures exact { Tells (λ x. x) result (header_at payload.now place) }
    ensures within { IfOk result (λ x. x.1 ≤ length payload.now) }
{
    let (kind, place) = int_at(payload, place)?;
    let (done, place) = bool_at(payload, place)?;
    let (err, place) = int_at(payload, place)?;
    Ok((MultiHeader { kind, done, err }, place))
}

/// What follows a multi's header: a part, a part's own result, or an error.
#[derive(Clone, Copy)]
pub enum Headed {
    Part(PartOp),
    Own(PartOp),
    Error,
}

/// The body of a request or a reply; of a multi's, what follows its headers.
trait Multi: Sized {
    ghost headed: { OfHead };

    /// What follows `header`; `None` for the end marker, and for a header of nothing.
    fn headed(header: &MultiHeader) -> Option<Headed>
        ensures { result ≡ headed header.now };
}

/// The body of a request of this operation.
#[derive(Clone, Copy)]
struct Asked(Op);

impl Multi for Asked {
    ghost headed = { headed_part };

    #[tactic(auto, using(crate::proofs::Heads::part_end, crate::proofs::Heads::part_none, crate::proofs::Heads::part_some))]
    fn headed(header: &MultiHeader) -> Option<Headed> {
        if header.done {
            return None;
        }
        match part_of(header.kind) {
            Some(op) => Some(Headed::Part(op)),
            None => None,
        }
    }
}

/// The body of a reply to a request of this operation.
#[derive(Clone, Copy)]
struct Answered(Op);

impl Multi for Answered {
    ghost headed = { headed_result };

    #[tactic(auto, using(crate::proofs::Heads::result_end, crate::proofs::Heads::result_error, crate::proofs::Heads::result_none, crate::proofs::Heads::result_some))]
    fn headed(header: &MultiHeader) -> Option<Headed> {
        if header.done {
            return None;
        }
        if header.kind == -1 {
            return Some(Headed::Error);
        }
        match part_of(header.kind) {
            Some(op) => Some(Headed::Own(op)),
            None => None,
        }
    }
}

/// What the bytes from a place on are read as.
trait WalkAs: Copy {
    /// The entries that are whole there.
    ghost met: { Self → List ℕ → ℕ → Met };

    /// Writes their fields, as many as `room` has places for.
    fn walk_as(self, payload: &[u8], place: usize, room: &mut [Field], at: At) -> Walked
        requires { place ≤ length payload.now }
        ensures walks { Walks at room.old (met self payload.now place) result room.new }
        ensures within { IfSome result.end (λ end. end ≤ length payload.now) };
}

impl WalkAs for Headed {
    ghost met = { λ headed. walk (headed_shape headed) };

    fn walk_as(self, payload: &[u8], place: usize, room: &mut [Field], at: At) -> Walked {
        macro_rules! row {
            ($headed:ident: $($op:ident: $record:ident $borrowed:ident),+) => {
                match $headed {
                    $(Headed::Part(PartOp::$op) => fields_of!($record, walk_fields, payload, place, room, at),)+
                    Headed::Own(PartOp::Create) => <walked!(PATH text)>::walk(payload, place, room, at),
                    Headed::Own(PartOp::SetData) => fields_of!(Stat, walk_fields, payload, place, room, at),
                    Headed::Own(PartOp::Delete) => walk_nothing(place, at),
                    Headed::Own(PartOp::Check) => walk_nothing(place, at),
                    Headed::Error => <walked!(ERR int)>::walk(payload, place, room, at),
                }
            };
        }
        part_rows!(row, self)
    }
}

/// A part or a result of a multi, under its header.
#[derive(Drop)]
struct Under<M> {
    of: PhantomData<M>,
}

impl<'a, M: Multi> Walk<'a> for Under<M> {
    ghost met = { head_met M.headed };

    fn walk(payload: &'a [u8], place: usize, room: &mut [Field], at: At) -> Walked {
        match head_at(payload, place) {
            Ok((header, place)) => match M::headed(&header) {
                Some(headed) => {
                    let at = show_head(&header, room, at);
                    headed.walk_as(payload, place, room, at)
                }
                None => Walked { at, end: None },
            },
            Err(_fault) => Walked { at, end: None },
        }
    }
}

impl WalkAs for Asked {
    ghost met = { λ asked. content_met (ask_content asked.0) };

    fn walk_as(self, payload: &[u8], place: usize, room: &mut [Field], at: At) -> Walked {
        macro_rules! row {
            ($op:ident: $($($held:ident)|+: $record:ident $borrowed:ident),+; $($bare:ident)|+) => {
                match $op {
                    $($(Op::$held)|+ => fields_of!($record, walk_fields, payload, place, room, at),)+
                    $(Op::$bare)|+ => walk_nothing(place, at),
                    Op::Multi => walk_times::<Under<Asked>>(payload, payload.len(), place, room, at),
                }
            };
        }
        let op = self.0;
        ask_rows!(row, op)
    }
}

impl WalkAs for Answered {
    ghost met = { λ answered. content_met (body_content answered.0) };

    fn walk_as(self, payload: &[u8], place: usize, room: &mut [Field], at: At) -> Walked {
        macro_rules! row {
            ($op:ident: $($($one:ident)|+: $only:ident $name:ident $kind:ident),+;
             $($both:ident: $first:ident $first_name:ident $first_kind:ident $borrowed:ident),+; $($bare:ident)|+) => {
                match $op {
                    $($(Op::$one)|+ => <walked!($name $kind)>::walk(payload, place, room, at),)+
                    $(Op::$both => walk_fields!(
                        payload, place, room, at: $first $first_name $first_kind, stat NONE stat
                    ),)+
                    $(Op::$bare)|+ => walk_nothing(place, at),
                    Op::Multi => walk_times::<Under<Answered>>(payload, payload.len(), place, room, at),
                }
            };
        }
        let op = self.0;
        body_rows!(row, op)
    }
}

impl WalkAs for Opened {
    ghost met = { λ opened. content_met (opened_content opened) };

    fn walk_as(self, payload: &[u8], place: usize, room: &mut [Field], at: At) -> Walked {
        match self {
            Opened::First => {
                <(
                    fields_of!(ConnectRequest, walk_fields, as),
                    walked!(READ_ONLY boolean),
                )>::walk(payload, place, room, at)
            }
            Opened::Ask(op) => Asked(op).walk_as(payload, place, room, at),
            Opened::Connected => {
                <(
                    fields_of!(ConnectResponse, walk_fields, as),
                    walked!(READ_ONLY boolean),
                )>::walk(payload, place, room, at)
            }
            Opened::Reply(op) => Answered(op).walk_as(payload, place, room, at),
            Opened::Event => fields_of!(WatcherEvent, walk_fields, payload, place, room, at),
        }
    }
}

/// The place where the fields begin: after the header.
fn start_of(opened: Opened) -> u32
    ensures { result ≡ opened_start opened }
{
    match opened {
        Opened::First | Opened::Connected => 0,
        Opened::Ask(_) => REQUEST,
        Opened::Reply(_) | Opened::Event => REPLY,
    }
}

/// The bytes before `place`; all if it is beyond them.
#[tactic(auto, using(std::proofs::lemmas::List::take_all))]
fn before(payload: &[u8], place: u32) -> &[u8]
    ensures { result.now ≡ take place payload.now }
{
    let place = place as usize;
    if place < payload.len() {
        &payload[..place]
    } else {
        payload
    }
}

/// Writes the fields of the items of `payload` that end at or before `place`, read as `opened`, into `room`, as many as
/// it has places for, and returns how many there are. The clause holds for a payload shorter than 4 GiB.
pub fn opened_fields(opened: Opened, payload: &[u8], place: u32, room: &mut [Field]) -> u32
    ensures { length payload.now < 2 ^ 32 → AreWritten (opened_fields opened payload.now place) room.old room.new result }
{
    let front = before(payload, place);
    let start = start_of(opened);
    if start as usize > front.len() {
        return 0;
    }
    let at = At {
        count: 0,
        place: start,
    };
    opened.walk_as(front, start as usize, room, at).at.count
}

//! `MultiRef`, `RequestRef`: borrowed requests, as an `Asked`.
ghost use Rattle.std.specs.Prelude.{◌≡◌, ◌<◌, ◌≤◌, ◌+◌, ◌^◌, ◌++◌, length, map, refl};
ghost use Rattle.std.specs.List.{slice_get};
ghost use Rattle.zk_records.specs.declared.op.Op.TheVariants as ops;
ghost use Rattle.zk_asks.specs.{Parts.op_of_part, Frames.ops_of_ask, Frames.others_have_none, Rows.op_of_ask};

use crate::asked::{Asked, Room};
use crate::frame::{AskOf, AskRef, PartRef};
use crate::part_list::PartList;
use zk_jute::Members;
use zk_records::{Op, PartOp};

/// The operation of the part `j`, counted from 0; `None` past the last one.
fn op_at(list: &PartList<'_>, j: u32) -> Option<PartOp>
    ensures { result ≡ slice_get (map op_of_part list.now) j }
{
    let mut items = list.items();
    let mut passed = 0;
    while passed < j {
        items.next()?;
        passed += 1;
    }
    Some(items.next()?.op())
}

/// Appends the operations of all parts that are left to `room`.
fn put_all<R: Room>(parts: Members<'_, PartRef<'_>>, room: &mut R)
    requires { length (R.ops room.old) + length (map op_of_part parts) ≤ R.room room.old }
    ensures put { R.ops room.new ≡ R.ops room.old ++ map op_of_part parts.entry }
    ensures room { R.room room.new ≡ R.room room.old }
    ensures kept { R.kept room.new ≡ R.kept room.old }
{
    let mut items = parts;
    while let Some(op) = items.pass() {
        room.push(op);
    }
}

/// A borrowed multi, as an `Asked`. Nothing is allocated, and `part` walks over the parts before.
#[derive(Drop)]
pub struct MultiRef<'a> {
    /// The parts.
    pub list: PartList<'a>,
    /// At most 4,294,967,295 parts.
    pub ghost bounded: { length list < 2 ^ 32 },
}

impl<'a> Asked for MultiRef<'a> {
    ghost operation = { λ m. ops.Multi };

    ghost part_ops = { λ m. map op_of_part m.list };

    fn op(&self) -> Op {
        Op::Multi
    }

    fn parts(&self) -> u32 {
        self.list.count() as u32
    }

    fn part(&self, j: u32) -> Option<PartOp> {
        op_at(&self.list, j)
    }

    fn put_ops<R: Room>(&self, room: &mut R) {
        put_all(self.list.items(), room);
    }

    ghost lawful = { λ m other. absurd (other refl) };
}

/// A borrowed request, as an `Asked`. Nothing is allocated, and `part` walks over the parts before.
#[derive(Drop)]
pub struct RequestRef<'b, 'a> {
    /// The request without its header.
    pub ask: &'b AskRef<'a>,
    /// At most 4,294,967,295 parts.
    pub ghost bounded: { length (ops_of_ask ask.now) < 2 ^ 32 },
}

impl<'b, 'a> RequestRef<'b, 'a> {
    /// Wraps a request of fewer than 4,294,967,296 parts.
    pub fn of(ask: &'b AskRef<'a>) -> Self
        requires { length (ops_of_ask ask.now) < 2 ^ 32 }
        ensures { result.ask.now ≡ ask.now }
    {
        RequestRef { ask }
    }
}

impl<'b, 'a> Asked for RequestRef<'b, 'a> {
    ghost operation = { λ r. op_of_ask r.ask.now };

    ghost part_ops = { λ r. ops_of_ask r.ask.now };

    fn op(&self) -> Op {
        self.ask.op()
    }

    fn parts(&self) -> u32 {
        match self.ask {
            AskOf::Multi(parts) => parts.count() as u32,
            _ => 0,
        }
    }

    fn part(&self, j: u32) -> Option<PartOp> {
        let AskOf::Multi(parts) = self.ask else {
            return None;
        };
        op_at(parts, j)
    }

    fn put_ops<R: Room>(&self, room: &mut R) {
        let AskOf::Multi(parts) = self.ask else {
            return;
        };
        put_all(parts.items(), room);
    }

    ghost lawful = { λ r. others_have_none r.ask.now };
}

//! `Alone`: a request without parts, reduced to its operation.
ghost use Rattle.std.specs.Prelude.{[], refl};

use crate::asked::{Asked, Room};
use zk_records::{Op, PartOp};

/// A request without parts, as an `Asked`.
#[derive(Clone, Copy, Debug)]
pub struct Alone {
    /// Its operation.
    pub op: Op,
}

impl Asked for Alone {
    ghost operation = { λ a. a.op };

    ghost part_ops = { λ a. [] };

    fn op(&self) -> Op {
        self.op
    }

    fn parts(&self) -> u32 {
        0
    }

    fn part(&self, _j: u32) -> Option<PartOp> {
        None
    }

    fn put_ops<R: Room>(&self, _room: &mut R) {}

    ghost lawful = { λ a other. refl };
}

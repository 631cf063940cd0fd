//! `Asked`: what of a request its reply is read by, its operation and those of its parts.
ghost use Rattle.std.specs.Prelude.{◌≡◌, ◌≢◌, ◌+◌, ◌<◌, ◌≤◌, ◌↔◌, ◌∷◌, ◌++◌, ℕ, List, [], length, Option, Some, None};
ghost use Rattle.std.specs.List.{slice_get};
ghost use Rattle.zk_records.specs.declared.op.Op.{Op};
ghost use Rattle.zk_records.specs.declared.op.Op.TheVariants as ops;
ghost use Rattle.zk_records.specs.declared.op.PartOp.{PartOp};

use zk_records::{Op, PartOp};

/// What takes the operations of parts, in order.
pub trait Room {
    ghost ops: { Self → List PartOp };

    /// How many more it takes at most.
    ghost room: { Self → ℕ };

    /// What else it has.
    ghost Kept: { Type 0 };

    ghost kept: { Self → Self.Kept };

    /// Appends `op`.
    fn push(&mut self, op: PartOp)
        requires { length (ops self.old) < room self.old }
        ensures pushed { ops self.new ≡ ops self.old ++ op ∷ [] }
        ensures room { room self.new ≡ room self.old }
        ensures kept { kept self.new ≡ kept self.old };
}

/// The operation of a request, and the operations of its parts: what its reply is read by.
pub trait Asked {
    ghost operation: { Self → Op };

    /// The operations of a multi's parts, in order.
    ghost part_ops: { Self → List PartOp };

    /// The operation.
    fn op(&self) -> Op
        ensures { result ≡ operation self.now };

    /// The number of parts.
    fn parts(&self) -> u32
        ensures { result ≡ length (part_ops self.now) };

    /// The operation of the part `j`, counted from 0; `None` past the last one.
    fn part(&self, j: u32) -> Option<PartOp>
        ensures { result ≡ slice_get (part_ops self.now) j };

    /// Appends the operations of all parts to `room`.
    fn put_ops<R: Room>(&self, room: &mut R)
        requires { length (R.ops room.old) + length (part_ops self.now) ≤ R.room room.old }
        ensures put { R.ops room.new ≡ R.ops room.old ++ part_ops self.now }
        ensures room { R.room room.new ≡ R.room room.old }
        ensures kept { R.kept room.new ≡ R.kept room.old }
    {
        for j in 0..self.parts() {
            room.push(self.part(j).unwrap());
        }
    }

    /// Only a multi has parts.
    ghost lawful: { (x : Self) → operation x ≢ ops.Multi → part_ops x ≡ [] };
}

/// The laws of `Asked`: there are as many parts as it says, and only a multi has any. The function does nothing.
pub fn asked_laws<T: Asked>()
    // There is a part `j` exactly if `j` is below their number.
    ensures part { (x : T) (j : ℕ) → (j < length (T.part_ops x)) ↔ ((op : PartOp) × (slice_get (T.part_ops x) j ≡ Some op)) }
    // Their number is 0 for everything but a multi.
    ensures none { (x : T) → T.operation x ≢ ops.Multi → length (T.part_ops x) ≡ 0 }
{}

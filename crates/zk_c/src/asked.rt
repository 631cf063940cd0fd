//! `Numbered`: an operation and its parts by their numbers, by which a reply is judged.
ghost use Rattle.std.specs.Prelude.{◌≡◌, ◌≢◌, ◌<◌, ◌^◌, List, [], length, MatchBool, MatchOption, IsTrue, ◌↔◌};
ghost use Rattle.zk_records.specs.declared.op.Op.{Op};
ghost use Rattle.zk_records.specs.declared.op.Op.TheVariants as ops;
ghost use Rattle.zk_records.specs.declared.op.PartOp.{PartOp};
ghost use Rattle.zk_c.specs.Asked.{parts_of, AreParts, AreAsked, AreNoneAsked};

use zk_asks::Asked;
use zk_records::{NEWEST, Op, PartOp, op_of, part_of};

/// An operation, and the numbers of its parts' operations; nothing is allocated.
#[derive(Drop)]
pub struct Numbered<'a> {
    /// The operation.
    pub op: Op,
    /// The numbers of its parts' operations.
    pub numbers: &'a [i32],
    pub ghost named: { AreParts numbers.now (parts_of numbers.now) },
    pub ghost bounded: { length (parts_of numbers.now) < 2 ^ 32 },
    pub ghost lawful: { op ≢ ops.Multi → parts_of numbers.now ≡ [] },
}

/// Whether each number is that of a part's operation.
fn are_parts(numbers: &[i32]) -> bool
    ensures { MatchBool result ((parts : List PartOp) × AreParts numbers.now parts) ((parts : List PartOp) → AreParts numbers.now parts → ⊥) }
{
    for number in numbers {
        let number = *number;
        match part_of(number) {
            Some(_part) => {}
            None => return false,
        }
    }
    true
}

/// Whether there are at most 4,294,967,295 numbers.
fn are_few(numbers: &[i32]) -> bool
    ensures { IsTrue result ↔ (length numbers.now < 2 ^ 32) }
{
    numbers.len() <= u32::MAX as usize
}

/// Whether the operation may have parts of these numbers: only a multi has any.
fn may_have(op: Op, numbers: &[i32]) -> bool
    ensures { IsTrue result ↔ (op ≢ ops.Multi → length numbers.now ≡ 0) }
{
    op == Op::Multi || numbers.is_empty()
}

impl<'a> Numbered<'a> {
    /// The operation whose number is `number`, with the parts of these `numbers`; `None` if there is none.
    pub fn of(number: i32, numbers: &'a [i32]) -> Option<Self>
        ensures { MatchOption result (AreNoneAsked number numbers.now) (λ a. AreAsked number numbers.now a.op (parts_of a.numbers.now)) }
    {
        let op = op_of(NEWEST, number)?;
        if !are_few(numbers) {
            return None;
        }
        if !may_have(op, numbers) {
            return None;
        }
        if !are_parts(numbers) {
            return None;
        }
        Some(Numbered { op, numbers })
    }
}

impl<'a> Asked for Numbered<'a> {
    ghost operation = { λ a. a.op };

    ghost part_ops = { λ a. parts_of a.numbers.now };

    fn op(&self) -> Op {
        self.op
    }

    fn parts(&self) -> u32 {
        self.numbers.len() as u32
    }

    fn part(&self, j: u32) -> Option<PartOp> {
        part_of(*self.numbers.get(j as usize)?)
    }

    ghost lawful = { λ a. a.lawful };
}

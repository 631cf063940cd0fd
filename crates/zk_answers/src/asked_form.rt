//! `Form`: an owned `Asked`, what of a request its reply is read by.
ghost use Rattle.std.specs.Prelude.{◌≡◌, ◌≢◌, ◌<◌, ◌^◌, [], length, IfOk, map, refl};
ghost use Rattle.std.specs.List.{slice_get};
ghost use Rattle.zk_records.specs.declared.op.Op.TheVariants as ops;
ghost use Rattle.zk_asks.specs.{Frames.ops_of_ask, Rows.op_of_ask};

use std::alloc::{AllocError, Global};
use zk_asks::{Ask, Asked};
use zk_records::{Op, PartOp};

/// The operation of a request, and those of its parts.
#[derive(Debug, Drop)]
pub struct Form {
    /// The request's operation.
    pub op: Op,
    /// The operations of its parts: at most 4,294,967,295, and none unless the operation is multi.
    pub parts: Vec<PartOp>,
    pub ghost bounded: { length parts.items < 2 ^ 32 },
    pub ghost lawful: { op ≢ ops.Multi → parts.items ≡ [] },
}

impl Asked for Form {
    ghost operation = { λ f. f.op };

    ghost part_ops = { λ f. f.parts.items };

    fn op(&self) -> Op {
        self.op
    }

    fn parts(&self) -> u32 {
        self.parts.len() as u32
    }

    fn part(&self, j: u32) -> Option<PartOp> {
        self.parts.get(j as usize).copied()
    }

    ghost lawful = { λ f. f.lawful };
}

/// What of the request `ask` its reply is read by.
///
/// # Errors
///
/// `AllocError` if memory is refused.
pub fn form_of(alloc: Global, ask: &Ask) -> Result<Form, AllocError>
    requires { length (ops_of_ask ask.now) < 2 ^ 32 }
    ensures { IfOk result (λ f. (f.op ≡ op_of_ask ask.now) × (f.parts.items ≡ ops_of_ask ask.now)) }
{
    let mut parts = Vec::new(alloc);
    for part in ask.parts() {
        parts.push(part.op())?;
    }
    Ok(Form {
        op: ask.op(),
        parts,
    })
}

//! The operations, parts and results by their names in a line.
ghost use Rattle.std.specs.Prelude.{◌≡◌, bytes_eq};
ghost use Rattle.zk_lines.specs.Asks as asks;
ghost use Rattle.zk_lines.specs.Answers as answers;

use crate::multi_result::{DoneName, done_name};
use zk_records::{Op, PartOp, op_rows, part_codes};

/// Whether `name`, of a line, is `row_name`, the name in a row of the operations or parts.
// Inlined, so that the name of the row is known where it is compared.
#[inline(always)]
fn is_row_name(name: &[u8], row_name: &str) -> bool
    ensures { result ≡ bytes_eq name.now row_name.now }
{
    name == row_name.as_bytes()
}

/// The operation whose name is `name`; `None` if there is none.
#[tactic(auto, unfolding(crate::specs::Asks::op_named))]
pub fn op_named(name: &[u8]) -> Option<Op>
    ensures { result ≡ asks.op_named name.now }
{
    macro_rules! row {
        ($name:ident: $($release:ident: $($op:ident $code:literal $text:literal),+);+) => {{
            $($(if is_row_name($name, $text) {
                return Some(Op::$op);
            })+)+
            None
        }};
    }
    op_rows!(row, name)
}

/// The part's operation whose name is `name`; `None` if there is none.
#[tactic(auto, unfolding(crate::specs::Asks::part_named))]
pub fn part_named(name: &[u8]) -> Option<PartOp>
    ensures { result ≡ asks.part_named name.now }
{
    macro_rules! row {
        ($name:ident: $($op:ident $code:literal $text:literal),+) => {{
            $(if is_row_name($name, $text) {
                return Some(PartOp::$op);
            })+
            None
        }};
    }
    part_codes!(row, name)
}

/// `key!(line, named)` reads a name, and is what `named` finds by it; where that is nothing, the function returns the fault.
macro_rules! key {
    ($line:ident, $named:ident) => {{
        let fault = $line.fault(LineReason::Word);
        let Some(key) = $named($line.name()) else {
            return Err(fault);
        };
        key
    }};
}

pub(crate) use key;

/// What a result may begin with.
const DONE_NAMES: [DoneName; 5] = [
    DoneName::Create,
    DoneName::Delete,
    DoneName::SetData,
    DoneName::Check,
    DoneName::Fail,
];

/// The kind of a part's result whose name is `name`; `None` if there is none.
#[tactic(auto, unfolding(crate::specs::Answers::done_named))]
pub fn done_named(name: &[u8]) -> Option<DoneName>
    ensures { result ≡ answers.done_named name.now }
{
    DONE_NAMES
        .iter()
        .copied()
        .find(|done| name == done_name(*done))
}

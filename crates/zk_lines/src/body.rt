//! The bodies of replies in a line: written and read, by operation.
ghost use Rattle.std.specs.Prelude.{◌≡◌, ◌++◌, IfErr, OnOk};
ghost use Rattle.zk_answers.specs.Rows.{body_items};
ghost use Rattle.zk_items.specs.{Encoded.Encoded, Form.Fails, Form.Gives, Form.Keeps};
ghost use Rattle.zk_lines.specs.Encoded.{with_stat};
ghost use Rattle.zk_lines.specs.Answers as answers;
ghost use Rattle.zk_lines.specs.Rows.{only_written, row_at};

use crate::encode_item::{Encode, encode_field, encode_multi};
use crate::put::{Put, put_field};
use crate::word::{Word, field_word};
use std::alloc::AllocError;
use zk_answers::{Body, BodyOf, BodyRef, PartDone, body_rows};
use zk_items::{LineFault, Reader};
use zk_jute::Items;
use zk_records::{Op, Stat, owned};

/// `body_rows!(put_body, out, body)` appends the body.
macro_rules! put_body {
    (
        $out:ident, $body:ident: $($($one:ident)|+: $only:ident $name:ident $kind:ident),+;
        $($both:ident: $first:ident $first_name:ident $first_kind:ident $borrowed:ident),+; $($bare:ident)|+
    ) => {
        match $body {
            $($(BodyOf::$one { $only } => put_field($out, field_word!($only), $only),)+)+
            $(BodyOf::$both { $first, stat } => put_with_stat($out, field_word!($first), $first, stat),)+
            $(BodyOf::$bare => Ok(()),)+
            BodyOf::Multi(results) => results.put($out),
        }
    };
}

/// Reads the field after `word`, and the `Stat` after it, and appends their bytes.
fn encode_with_stat<T: Encode>(
    line: &mut Reader<'_>,
    word: Word,
    out: &mut Vec<u8>,
) -> Result<(), LineFault>
    ensures encoded { OnOk result (Encoded (answers.with_stat word T.form).at (with_stat T.items) line.old line.new out.old.items out.new.items) }
    ensures refused { IfErr result (λ e. Fails e ((answers.with_stat word T.form).at line.old)) }
    ensures keeps { Keeps out.old.items out.new.items }
{
    encode_field::<T>(line, word, out)?;
    encode_field::<Stat>(line, Word::Stat, out)?;
    Ok(())
}

/// Reads the body of a reply to `op`, and appends its bytes.
pub fn encode_body(line: &mut Reader<'_>, op: Op, out: &mut Vec<u8>) -> Result<(), LineFault>
    ensures encoded { OnOk result (Encoded (row_at (answers.line_of op)) body_items line.old line.new out.old.items out.new.items) }
    ensures refused { IfErr result (λ e. Fails e ((row_at (answers.line_of op)) line.old)) }
    ensures keeps { Keeps out.old.items out.new.items }
{
    macro_rules! row {
        ($op:ident: $($($one:ident)|+: $only:ident $name:ident $kind:ident),+;
         $($both:ident: $first:ident $first_name:ident $first_kind:ident $borrowed:ident),+; $($bare:ident)|+) => {
            match $op {
                $($(Op::$one => encode_field::<owned!($kind)>(line, field_word!($only), out),)+)+
                $(Op::$both => encode_with_stat::<owned!($first_kind)>(line, field_word!($first), out),)+
                $(Op::$bare => Ok(()),)+
                Op::Multi => encode_multi::<PartDone>(line, out),
            }
        };
    }
    body_rows!(row, op)
}

/// Appends a field, and the `Stat` after it.
fn put_with_stat<T: Put>(
    out: &mut Vec<u8>,
    word: Word,
    value: &T,
    stat: &Stat,
) -> Result<(), AllocError>
    ensures spelled { OnOk result (out.new.items ≡ out.old.items ++ (answers.with_stat word T.form).spell (value.now, stat.now)) }
    ensures fits { OnOk result ((answers.with_stat word T.form).fits (value.now, stat.now)) }
    ensures keeps { Keeps out.old.items out.new.items }
{
    put_field(out, word, value)?;
    put_field(out, Word::Stat, stat)
}

impl Put for Body {
    ghost form = { only_written (λ b. (answers.body_written b).fits) (λ b. (answers.body_written b).spell) };

    fn put(&self, out: &mut Vec<u8>) -> Result<(), AllocError> {
        body_rows!(put_body, out, self)
    }
}

impl<'a> Put for BodyRef<'a> {
    ghost form = { only_written (λ b. (answers.body_written b).fits) (λ b. (answers.body_written b).spell) };

    fn put(&self, out: &mut Vec<u8>) -> Result<(), AllocError> {
        body_rows!(put_body, out, self)
    }
}

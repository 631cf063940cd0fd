//! The results of a multi in a line: written and read.
ghost use Rattle.std.specs.Prelude.{◌≡◌, ◌++◌, IfErr, OnOk};
ghost use Rattle.zk_answers.specs.Results as results;
ghost use Rattle.zk_items.specs.{Encoded.Encoded, Form.Fails, Form.Gives, Form.Keeps, Codes.error_code};
ghost use Rattle.zk_lines.specs.{Words.word_of, declared.word.Word.TheVariants.Err, declared.multi_result.DoneName.TheVariants.Fail};
ghost use Rattle.zk_lines.specs.Answers as answers;
ghost use Rattle.zk_lines.specs.Rows.{row_at};

use crate::encode_item::{Encode, append, append_header, encode_field};
use crate::name::{done_named, key};
use crate::put::{Put, put_field};
use crate::word::{Word, put_word, read_word};
use std::alloc::AllocError;
use zk_answers::{PartDone, PartDoneOf, PartDoneRef};
use zk_items::{LineFault, LineReason, Reader, put_error_code, read_error_code};
use zk_jute::Text;
use zk_records::{PartOp, Stat, part_number};

/// The name that a result of a multi begins with.
#[derive(Clone, Copy, Debug, PartialEq, Eq)]
pub enum DoneName {
    Create,
    Delete,
    SetData,
    Check,
    Fail,
}

/// `name_of_done!(done)` is the name that a result begins with.
macro_rules! name_of_done {
    ($done:ident) => {
        match $done {
            PartDoneOf::Created(_) => DoneName::Create,
            PartDoneOf::Deleted => DoneName::Delete,
            PartDoneOf::DataSet(_) => DoneName::SetData,
            PartDoneOf::Checked => DoneName::Check,
            PartDoneOf::PartFailed(_) => DoneName::Fail,
        }
    };
}

fn name_of(done: &PartDone) -> DoneName
    ensures { result ≡ answers.name_of_done done.now }
{
    name_of_done!(done)
}

fn name_of_ref(done: &PartDoneRef<'_>) -> DoneName
    ensures { result ≡ answers.name_of_done done.now }
{
    name_of_done!(done)
}

/// What a result begins with, as a line shows it.
pub fn done_name(name: DoneName) -> &'static [u8]
    ensures { result.now ≡ answers.done_name name }
{
    match name {
        DoneName::Create => b"create",
        DoneName::Delete => b"delete",
        DoneName::SetData => b"setData",
        DoneName::Check => b"check",
        DoneName::Fail => b"fail",
    }
}

#[tactic(auto, using(zk_items::proofs::Kept::then_spelled))]
fn put_failed(out: &mut Vec<u8>, number: i32) -> Result<(), AllocError>
    ensures spelled { OnOk result (out.new.items ≡ out.old.items ++ (word_of Err ++ error_code.spell number)) }
    ensures fits { OnOk result (error_code.fits number) }
    ensures keeps { Keeps out.old.items out.new.items }
{
    put_word(out, Word::Err)?;
    put_error_code(out, number)
}

/// `done_body!(out, done)` appends what comes after a result's name.
macro_rules! done_body {
    ($out:ident, $done:ident) => {
        match $done {
            PartDoneOf::Created(path) => put_field($out, Word::Path, path),
            PartDoneOf::DataSet(stat) => put_field($out, Word::Stat, stat),
            PartDoneOf::Deleted | PartDoneOf::Checked => Ok(()),
            PartDoneOf::PartFailed(number) => put_failed($out, *number),
        }
    };
}

fn put_done(out: &mut Vec<u8>, done: &PartDone) -> Result<(), AllocError>
    ensures spelled { OnOk result (out.new.items ≡ out.old.items ++ (answers.done_written done.now).spell) }
    ensures fits { OnOk result ((answers.done_written done.now).fits) }
    ensures keeps { Keeps out.old.items out.new.items }
{
    done_body!(out, done)
}

fn put_done_ref(out: &mut Vec<u8>, done: &PartDoneRef<'_>) -> Result<(), AllocError>
    ensures spelled { OnOk result (out.new.items ≡ out.old.items ++ (answers.done_written done.now).spell) }
    ensures fits { OnOk result ((answers.done_written done.now).fits) }
    ensures keeps { Keeps out.old.items out.new.items }
{
    done_body!(out, done)
}

impl Put for PartDone {
    ghost form = { answers.done_form };

    fn put(&self, out: &mut Vec<u8>) -> Result<(), AllocError> {
        out.extend_from_slice(done_name(name_of(self)))?;
        put_done(out, self)
    }
}

impl<'a> Put for PartDoneRef<'a> {
    ghost form = { answers.done_form };

    fn put(&self, out: &mut Vec<u8>) -> Result<(), AllocError> {
        out.extend_from_slice(done_name(name_of_ref(self)))?;
        put_done_ref(out, self)
    }
}

/// Reads the error of a part, and appends its result.
fn encode_failed(line: &mut Reader<'_>, out: &mut Vec<u8>) -> Result<(), LineFault>
    ensures encoded { OnOk result (Encoded (row_at (answers.done_line_of Fail)) results.done_items line.old line.new out.old.items out.new.items) }
    ensures refused { IfErr result (λ e. Fails e ((row_at (answers.done_line_of Fail)) line.old)) }
    ensures keeps { Keeps out.old.items out.new.items }
{
    read_word(line, Word::Err)?;
    let number = read_error_code(line)?;
    append_header(out, -1, false, number)?;
    append(out, &number)?;
    Ok(())
}

/// Reads the result after the name `name`, and appends its bytes.
fn encode_done(line: &mut Reader<'_>, name: DoneName, out: &mut Vec<u8>) -> Result<(), LineFault>
    ensures encoded { OnOk result (Encoded (row_at (answers.done_line_of name)) results.done_items line.old line.new out.old.items out.new.items) }
    ensures refused { IfErr result (λ e. Fails e ((row_at (answers.done_line_of name)) line.old)) }
    ensures keeps { Keeps out.old.items out.new.items }
{
    match name {
        DoneName::Create => {
            append_header(out, part_number(PartOp::Create), false, 0)?;
            encode_field::<Text>(line, Word::Path, out)
        }
        DoneName::Delete => {
            append_header(out, part_number(PartOp::Delete), false, 0)?;
            Ok(())
        }
        DoneName::SetData => {
            append_header(out, part_number(PartOp::SetData), false, 0)?;
            encode_field::<Stat>(line, Word::Stat, out)
        }
        DoneName::Check => {
            append_header(out, part_number(PartOp::Check), false, 0)?;
            Ok(())
        }
        DoneName::Fail => encode_failed(line, out),
    }
}

impl Encode for PartDone {
    fn encode(line: &mut Reader<'_>, out: &mut Vec<u8>) -> Result<(), LineFault> {
        let name = key!(line, done_named);
        encode_done(line, name, out)
    }
}

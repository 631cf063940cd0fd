//! `Encode`: an item of a line, read into its bytes; and a field, a word and such an item.
ghost use Rattle.std.specs.Prelude.{◌++◌, IfErr, OnErr, OnOk};
ghost use Rattle.std.specs.List.{flat_map};
ghost use Rattle.zk_jute.specs.Item.{HaveBytes};
ghost use Rattle.zk_asks.specs.Parts.{end_header, marked};
ghost use Rattle.zk_items.specs.{Encoded.Encoded, Form.Fails, Form.Keeps};
ghost use Rattle.zk_lines.specs.{Encoded.Appended, Series.multi_at, Words.field_at};

use crate::list::{PARTS, encode_series};
use crate::put::Put;
use crate::record::read_stat;
use crate::word::{Word, read_word};
use std::alloc::AllocError;
use zk_items::{LineFault, Reader};
use zk_jute::{Blob, Spell, Text};
use zk_records::{MultiHeader, Stat};

/// A value of a line whose bytes are appended as it is read.
// No value is made that asks for memory.
pub trait Encode: Put + Spell {
    /// Reads the item that is next, and appends its bytes. Whatever `out` began with, it begins with.
    fn encode(line: &mut Reader<'_>, out: &mut Vec<u8>) -> Result<(), LineFault>
        ensures encoded { OnOk result (Encoded Self.form.at Self.items line.old line.new out.old.items out.new.items) }
        ensures refused { IfErr result (λ e. Fails e (Self.form.at line.old)) }
        ensures keeps { Keeps out.old.items out.new.items };
}

/// Reads a field, `word` and then the value, and appends the value's bytes.
#[inline(always)]
pub fn encode_field<T: Encode>(
    line: &mut Reader<'_>,
    word: Word,
    out: &mut Vec<u8>,
) -> Result<(), LineFault>
    ensures encoded { OnOk result (Encoded (field_at word T.form.at) T.items line.old line.new out.old.items out.new.items) }
    ensures refused { IfErr result (λ e. Fails e ((field_at word T.form.at) line.old)) }
    ensures keeps { Keeps out.old.items out.new.items }
{
    read_word(line, word)?;
    T::encode(line, out)
}

/// `fields_of!(R, encode_fields, line, out)` reads the fields of the record in order, each after its word, and appends their
/// bytes.
macro_rules! encode_fields {
    ($line:ident, $out:ident: $($field:ident $name:ident $kind:ident),+) => {{
        $(encode_field::<owned!($kind)>($line, field_word!($field), $out)?;)+
    }};
}

pub(crate) use encode_fields;

/// Appends the bytes of `value`.
pub fn append<T: Spell>(out: &mut Vec<u8>, value: &T) -> Result<(), AllocError>
    requires { HaveBytes (T.items value.now) }
    ensures appended { OnOk result (Appended (T.items value.now) out.old.items out.new.items) }
    ensures keeps { Keeps out.old.items out.new.items }
{
    value.put(out)
}

/// Appends the header of a multi that comes before a part or a result, or after the last.
pub fn append_header(out: &mut Vec<u8>, kind: i32, done: bool, err: i32) -> Result<(), AllocError>
    ensures appended { OnOk result (Appended (marked (record { kind = kind; done = done; err = err })) out.old.items out.new.items) }
    ensures keeps { Keeps out.old.items out.new.items }
{
    append(out, &MultiHeader { kind, done, err })
}

/// Reads the parts or the results of a multi, and appends their bytes and the header after them.
pub fn encode_multi<T: Encode>(line: &mut Reader<'_>, out: &mut Vec<u8>) -> Result<(), LineFault>
    ensures encoded { OnOk result (Encoded (multi_at T.form.at) (λ xs. flat_map T.items xs ++ marked end_header) line.old line.new out.old.items out.new.items) }
    ensures refused { IfErr result (λ e. Fails e ((multi_at T.form.at) line.old)) }
    ensures keeps { Keeps out.old.items out.new.items }
{
    read_word(line, Word::Parts)?;
    encode_series::<T>(line, PARTS, out)?;
    append_header(out, -1, true, -1)?;
    Ok(())
}

impl Encode for i32 {
    fn encode(line: &mut Reader<'_>, out: &mut Vec<u8>) -> Result<(), LineFault> {
        let value = line.int()?;
        append(out, &value)?;
        Ok(())
    }
}

impl Encode for i64 {
    fn encode(line: &mut Reader<'_>, out: &mut Vec<u8>) -> Result<(), LineFault> {
        let value = line.long()?;
        append(out, &value)?;
        Ok(())
    }
}

impl Encode for bool {
    fn encode(line: &mut Reader<'_>, out: &mut Vec<u8>) -> Result<(), LineFault> {
        let value = line.bit()?;
        append(out, &value)?;
        Ok(())
    }
}

impl Encode for Option<bool> {
    fn encode(line: &mut Reader<'_>, out: &mut Vec<u8>) -> Result<(), LineFault> {
        let value = line.read_only()?;
        append(out, &value)?;
        Ok(())
    }
}

impl Encode for Text {
    fn encode(line: &mut Reader<'_>, out: &mut Vec<u8>) -> Result<(), LineFault> {
        line.encode_text(out)
    }
}

impl Encode for Blob {
    fn encode(line: &mut Reader<'_>, out: &mut Vec<u8>) -> Result<(), LineFault> {
        line.encode_blob(out)
    }
}

impl Encode for Stat {
    fn encode(line: &mut Reader<'_>, out: &mut Vec<u8>) -> Result<(), LineFault> {
        let value = read_stat(line)?;
        append(out, &value)?;
        Ok(())
    }
}

//! `Put`: a value of a line, as it is written, owned or borrowed; and a field, a word and a value.
ghost use Rattle.std.specs.Prelude.{◌≡◌, ◌++◌, OnOk};
ghost use Rattle.zk_items.specs.Form.{Form, Keeps};
ghost use Rattle.zk_lines.specs.Words.{word_of};

use crate::word::{Word, put_word};
use std::alloc::AllocError;
use zk_items::{
    put_bit, put_blob, put_blob_ref, put_int, put_long, put_read_only, put_text, put_text_ref,
};
use zk_jute::{Blob, BlobRef, Text, TextRef};

/// A value that a line can show.
pub trait Put {
    /// What every value that a program holds is, and how it is spelled.
    ghost form: { Form Self };

    /// Appends the value.
    fn put(&self, out: &mut Vec<u8>) -> Result<(), AllocError>
        ensures spelled { OnOk result (out.new.items ≡ out.old.items ++ Self.form.spell self.now) }
        ensures fits { OnOk result (Self.form.fits self.now) }
        ensures keeps { Keeps out.old.items out.new.items };
}

/// Appends a field: `word`, and then the value.
#[inline(always)]
pub fn put_field<T: Put>(out: &mut Vec<u8>, word: Word, value: &T) -> Result<(), AllocError>
    ensures spelled { OnOk result (out.new.items ≡ out.old.items ++ (word_of word ++ T.form.spell value.now)) }
    ensures fits { OnOk result (T.form.fits value.now) }
    ensures keeps { Keeps out.old.items out.new.items }
{
    put_word(out, word)?;
    value.put(out)
}

/// `fields_of!(R, put_fields, out, record)` appends the fields of the record in order, each after its word.
macro_rules! put_fields {
    ($out:ident, $record:ident: $field:ident $name:ident $kind:ident) => {
        put_field($out, field_word!($field), &$record.$field)
    };
    ($out:ident, $record:ident: $field:ident $name:ident $kind:ident, $($rest:tt)+) => {{
        put_field($out, field_word!($field), &$record.$field)?;
        put_fields!($out, $record: $($rest)+)
    }};
}

pub(crate) use put_fields;

impl Put for i32 {
    ghost use Rattle.zk_items.specs.Leaf.{int};

    ghost form = { int };

    fn put(&self, out: &mut Vec<u8>) -> Result<(), AllocError> {
        put_int(out, *self)
    }
}

impl Put for i64 {
    ghost use Rattle.zk_items.specs.Leaf.{long};

    ghost form = { long };

    fn put(&self, out: &mut Vec<u8>) -> Result<(), AllocError> {
        put_long(out, *self)
    }
}

impl Put for bool {
    ghost use Rattle.zk_items.specs.Leaf.{bit};

    ghost form = { bit };

    fn put(&self, out: &mut Vec<u8>) -> Result<(), AllocError> {
        put_bit(out, *self)
    }
}

impl Put for Option<bool> {
    ghost use Rattle.zk_items.specs.Leaf.{ro};

    ghost form = { ro };

    fn put(&self, out: &mut Vec<u8>) -> Result<(), AllocError> {
        put_read_only(out, *self)
    }
}

impl Put for Text {
    ghost use Rattle.zk_items.specs.Leaf.{text};

    ghost form = { text };

    fn put(&self, out: &mut Vec<u8>) -> Result<(), AllocError> {
        put_text(out, self)
    }
}

impl<'a> Put for TextRef<'a> {
    ghost use Rattle.zk_items.specs.Leaf.{text};

    ghost form = { text };

    #[inline(always)]
    fn put(&self, out: &mut Vec<u8>) -> Result<(), AllocError> {
        put_text_ref(out, self)
    }
}

impl Put for Blob {
    ghost use Rattle.zk_items.specs.Leaf.{blob};

    ghost form = { blob };

    fn put(&self, out: &mut Vec<u8>) -> Result<(), AllocError> {
        put_blob(out, self)
    }
}

impl<'a> Put for BlobRef<'a> {
    ghost use Rattle.zk_items.specs.Leaf.{blob};

    ghost form = { blob };

    fn put(&self, out: &mut Vec<u8>) -> Result<(), AllocError> {
        put_blob_ref(out, self)
    }
}

//! Texts and blobs of a line, read into the bytes that they are in a payload.
ghost use Rattle.std.specs.Prelude.{◌≡◌, ◌↔◌, ◌+◌, ◌<◌, ◌≤◌, ◌^◌, ◌++◌, ℤ, pos, negsuc, false, Some, length, take, drop, IsTrue, IsUtf8, IfErr, IfOk, OnErr, OnOk};
ghost use Rattle.zk_jute.specs.{Item.int_bytes, Values.text_items, Values.blob_items};
ghost use Rattle.zk_items.specs.{Form.Fails, Form.Keeps, Leaf.text_at, Leaf.blob_at, Leaf.chars_at, Encoded.Encoded, Encoded.chars_after};

use crate::fault::{LineFault, LineReason};
use crate::number::hex_len;
use crate::read_hex::append_bytes;
use crate::reader::Reader;
use std::alloc::AllocError;

/// Appends `bytes`.
fn append(out: &mut Vec<u8>, bytes: &[u8]) -> Result<(), AllocError>
    ensures appended { OnOk result (out.new.items ≡ out.old.items ++ bytes.now) }
    ensures keeps { Keeps out.old.items out.new.items }
{
    out.extend_from_slice(bytes)
}

/// Appends the length of null.
fn append_null(out: &mut Vec<u8>) -> Result<(), AllocError>
    ensures appended { OnOk result (out.new.items ≡ out.old.items ++ int_bytes (negsuc 0)) }
    ensures keeps { Keeps out.old.items out.new.items }
{
    append(out, &(-1_i32).to_be_bytes())
}

/// The four bytes of a length or a count. An error where no int can say it, as in no payload.
fn count_bytes(count: usize) -> Result<[u8; 4], AllocError>
    ensures { IfOk result (λ bytes. (count < 2 ^ 31) × (bytes ≡ int_bytes (pos count))) }
{
    match i32::try_from(count) {
        Ok(count) => Ok(count.to_be_bytes()),
        Err(_) => Err(AllocError),
    }
}

/// Writes `count` as an int over the four bytes at `start`. An error: it is no int, and `out` is unchanged.
pub fn set_count(out: &mut Vec<u8>, start: usize, count: usize) -> Result<(), AllocError>
    requires { start + 4 ≤ length out.old.items }
    ensures small { OnOk result (count < 2 ^ 31) }
    ensures set { OnOk result (out.new.items ≡ take start out.old.items ++ (int_bytes (pos count) ++ drop (start + 4) out.old.items)) }
    ensures unchanged { OnErr result (out.new.items ≡ out.old.items) }
{
    let bytes = count_bytes(count)?;
    out[start..start + 4].copy_from_slice(&bytes);
    Ok(())
}

/// Whether the bytes are UTF-8.
fn is_text(bytes: &[u8]) -> bool
    ensures { IsTrue result ↔ IsUtf8 bytes.now }
{
    std::str::from_utf8(bytes).is_ok()
}

impl<'a> Reader<'a> {
    /// Appends the longest run of plain bytes, and passes the sign after it; false: something else follows.
    fn encode_plain(&mut self, out: &mut Vec<u8>) -> Result<bool, AllocError>
        ensures whole { IfOk result (λ all. IsTrue all → chars_after out.old.items self.old ≡ Some (out.new.items, self.new)) }
        ensures plain { IfOk result (λ all. IsTrue all → IsUtf8 (drop (length out.old.items) out.new.items)) }
        ensures more { IfOk result (λ all. all ≡ false → chars_after out.new.items self.new ≡ chars_after out.old.items self.old) }
        ensures keeps { Keeps out.old.items out.new.items }
    {
        append(out, self.plain())?;
        Ok(self.passes(b"\""))
    }

    /// Reads the bytes of a text, up to the sign after it, and appends them; else returns `fault`.
    // Bytes that are plain up to the sign are looked at once: they are UTF-8.
    fn encode_chars(&mut self, fault: LineFault, out: &mut Vec<u8>) -> Result<(), LineFault>
        ensures read { OnOk result (chars_after out.old.items self.old ≡ Some (out.new.items, self.new)) }
        ensures text { OnOk result (IsUtf8 (drop (length out.old.items) out.new.items)) }
        ensures refused { IfErr result (λ e. Fails e (chars_at self.old)) }
        ensures keeps { Keeps out.old.items out.new.items }
    {
        let start = out.len();
        if self.encode_plain(out)? {
            return Ok(());
        }
        self.inside(fault, out)?;
        if is_text(&out[start..]) {
            Ok(())
        } else {
            Err(fault)
        }
    }

    /// Reads the bytes of a text, up to the sign after it, and appends their number and them; else returns `fault`.
    fn encode_inside(&mut self, fault: LineFault, out: &mut Vec<u8>) -> Result<(), LineFault>
        ensures encoded { OnOk result (Encoded chars_at text_items self.old self.new out.old.items out.new.items) }
        ensures refused { IfErr result (λ e. Fails e (chars_at self.old)) }
        ensures keeps { Keeps out.old.items out.new.items }
    {
        let start = out.len();
        append(out, &[0; 4])?;
        self.encode_chars(fault, out)?;
        let count = out.len() - (start + 4);
        set_count(out, start, count)?;
        Ok(())
    }

    /// Reads a text, and appends its bytes. Whatever `out` began with, it begins with.
    #[tactic(auto, using(crate::proofs::Encoding::null_text, crate::proofs::Encoding::full_text), unfolding(crate::specs::Leaf::text_at))]
    pub fn encode_text(&mut self, out: &mut Vec<u8>) -> Result<(), LineFault>
        ensures encoded { OnOk result (Encoded text_at text_items self.old self.new out.old.items out.new.items) }
        ensures refused { IfErr result (λ e. Fails e (text_at self.old)) }
        ensures keeps { Keeps out.old.items out.new.items }
    {
        let fault = self.fault(LineReason::Text);
        match self.ahead.split_first() {
            Some((b'~', rest)) => {
                self.ahead = rest;
                append_null(out)?;
                Ok(())
            }
            Some((b'"', rest)) => {
                self.ahead = rest;
                self.encode_inside(fault, out)?;
                Ok(())
            }
            _ => Err(fault),
        }
    }

    /// Reads a blob, and appends its bytes. Whatever `out` began with, it begins with.
    #[tactic(auto, unfolding(crate::specs::Leaf::blob_at))]
    pub fn encode_blob(&mut self, out: &mut Vec<u8>) -> Result<(), LineFault>
        ensures encoded { OnOk result (Encoded blob_at blob_items self.old self.new out.old.items out.new.items) }
        ensures refused { IfErr result (λ e. Fails e (blob_at self.old)) }
        ensures keeps { Keeps out.old.items out.new.items }
    {
        let fault = self.fault(LineReason::Blob);
        match self.ahead.split_first() {
            Some((b'~', rest)) => {
                self.ahead = rest;
                append_null(out)?;
                Ok(())
            }
            Some((b'#', rest)) => {
                let (run, rest) = rest.split_at(hex_len(rest));
                if run.len() % 2 != 0 {
                    return Err(fault);
                }
                append(out, &count_bytes(run.len() / 2)?)?;
                append_bytes(out, run)?;
                self.ahead = rest;
                Ok(())
            }
            _ => Err(fault),
        }
    }
}

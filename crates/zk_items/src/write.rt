//! How the items of a line are written.
ghost use Rattle.std.specs.Prelude.{◌≡◌, ◌∷◌, ◌++◌, [], ◌+◌, ◌<◌, ◌≤◌, slice_index, IfOk, OnOk, false, length, take, drop};
ghost use Rattle.std.specs.{Fmt.signed_decimal, List.AllByRecursion, List.flat_map};
ghost use Rattle.zk_jute.specs.declared.value.Nullable.TheVariants as nullable;
ghost use Rattle.zk_items.specs.Form.{Keeps};
ghost use Rattle.zk_items.specs.Leaf.{int, long, is_plain, text_fits, text_spell, blob_fits, blob_spell, symbol_spell, bit_spell, ro_spell};

use crate::append::append_first;
use crate::escape::{block_of, odd_len, put_escapes};
use crate::plain::{are_plain, plain_len};
use crate::text_byte::{hex_digit, is_plain};
use crate::write_hex::put_digits;
use itoa::write_digits;
use std::alloc::AllocError;
use zk_jute::{Blob, BlobRef, Text, TextRef};

/// Writes `byte` before `end`, and returns its place.
fn byte_before(room: &mut [u8], end: usize, byte: u8) -> usize
    requires room { (1 ≤ end) × (end ≤ length room.old) }
    ensures begins { result + 1 ≡ end }
    ensures written { drop result room.new ≡ byte ∷ drop end room.old }
    ensures before { take result room.new ≡ take result room.old }
{
    room[end - 1] = byte;
    end - 1
}

/// Writes `n` in decimal, so that it ends at `end`; returns where it begins.
fn decimal_before(room: &mut [u8], end: usize, n: i64) -> usize
    requires room { (20 ≤ end) × (end ≤ length room.old) }
    ensures near { (end ≤ result + 20) × (result < end) }
    ensures begins { result + length (signed_decimal n) ≡ end }
    ensures written { drop result room.new ≡ signed_decimal n ++ drop end room.old }
    ensures before { take result room.new ≡ take result room.old }
{
    let start = write_digits(n.unsigned_abs(), room, end);
    if n < 0 {
        byte_before(room, start, b'-')
    } else {
        start
    }
}

/// Writes `sign` and after it `n` in decimal, so that they end at `end`; returns where they begin.
// `itoa` writes a number from its last digit on; so are numbers in a row, in place, and copied together.
pub fn long_before(room: &mut [u8], end: usize, sign: u8, n: i64) -> usize
    requires room { (21 ≤ end) × (end ≤ length room.old) }
    ensures near { (end ≤ result + 21) × (result < end) }
    ensures written { drop result room.new ≡ sign ∷ (signed_decimal n ++ drop end room.old) }
    ensures before { take result room.new ≡ take result room.old }
    ensures fits { long.fits n }
{
    let start = decimal_before(room, end, n);
    byte_before(room, start, sign)
}

/// Writes `sign` and after it the int `n` in decimal, so that they end at `end`; returns where they begin.
pub fn int_before(room: &mut [u8], end: usize, sign: u8, n: i32) -> usize
    requires room { (21 ≤ end) × (end ≤ length room.old) }
    ensures near { (end ≤ result + 21) × (result < end) }
    ensures written { drop result room.new ≡ sign ∷ (signed_decimal n ++ drop end room.old) }
    ensures before { take result room.new ≡ take result room.old }
    ensures fits { int.fits n }
{
    long_before(room, end, sign, i64::from(n))
}

/// Appends an int.
pub fn put_int(out: &mut Vec<u8>, n: i32) -> Result<(), AllocError>
    ensures spelled { OnOk result (out.new.items ≡ out.old.items ++ signed_decimal n) }
    ensures fits { OnOk result (int.fits n) }
    ensures keeps { Keeps out.old.items out.new.items }
{
    put_long(out, i64::from(n))
}

/// Appends a long.
pub fn put_long(out: &mut Vec<u8>, n: i64) -> Result<(), AllocError>
    ensures spelled { OnOk result (out.new.items ≡ out.old.items ++ signed_decimal n) }
    ensures fits { OnOk result (long.fits n) }
    ensures keeps { Keeps out.old.items out.new.items }
{
    let mut room = [0; 40];
    let start = decimal_before(&mut room, 20, n);
    append_first(out, &room[start..start + 20], 20 - start)
}

/// Appends a bit: `0` or `1`.
pub fn put_bit(out: &mut Vec<u8>, bit: bool) -> Result<(), AllocError>
    ensures spelled { OnOk result (out.new.items ≡ out.old.items ++ bit_spell bit) }
    ensures keeps { Keeps out.old.items out.new.items }
{
    out.extend_from_slice(if bit { b"1" } else { b"0" })
}

/// Appends a bit, or `-` for none.
pub fn put_read_only(out: &mut Vec<u8>, bit: Option<bool>) -> Result<(), AllocError>
    ensures spelled { OnOk result (out.new.items ≡ out.old.items ++ ro_spell bit) }
    ensures keeps { Keeps out.old.items out.new.items }
{
    match bit {
        None => out.extend_from_slice(b"-"),
        Some(bit) => put_bit(out, bit),
    }
}

/// Appends a blob: `~`, or `#` and its bytes' digits.
pub fn put_blob(out: &mut Vec<u8>, blob: &Blob) -> Result<(), AllocError>
    ensures spelled { OnOk result (out.new.items ≡ out.old.items ++ blob_spell blob.now) }
    ensures fits { OnOk result (blob_fits blob.now) }
    ensures keeps { Keeps out.old.items out.new.items }
{
    match blob {
        Blob::Null => out.extend_from_slice(b"~"),
        Blob::Full(bytes) => put_bytes(out, bytes.as_slice()),
    }
}

/// Appends a borrowed blob: `~`, or `#` and its bytes' digits.
pub fn put_blob_ref(out: &mut Vec<u8>, blob: &BlobRef<'_>) -> Result<(), AllocError>
    ensures spelled { OnOk result (out.new.items ≡ out.old.items ++ blob_spell blob.now) }
    ensures fits { OnOk result (blob_fits blob.now) }
    ensures keeps { Keeps out.old.items out.new.items }
{
    match blob {
        BlobRef::Null => out.extend_from_slice(b"~"),
        BlobRef::Full(bytes) => put_bytes(out, bytes.as_slice()),
    }
}

/// Appends the bytes of a blob: `#` and their digits.
fn put_bytes(out: &mut Vec<u8>, bytes: &[u8]) -> Result<(), AllocError>
    ensures spelled { OnOk result (out.new.items ≡ out.old.items ++ blob_spell (nullable.Full bytes.now)) }
    ensures fits { OnOk result (blob_fits (nullable.Full bytes.now)) }
    ensures keeps { Keeps out.old.items out.new.items }
{
    out.extend_from_slice(b"#")?;
    put_digits(out, bytes)
}

/// Appends the escape of `b`, which isn't plain.
fn put_escape(out: &mut Vec<u8>, b: u8) -> Result<(), AllocError>
    requires { is_plain b ≡ false }
    ensures spelled { OnOk result (out.new.items ≡ out.old.items ++ symbol_spell b) }
    ensures keeps { Keeps out.old.items out.new.items }
{
    out.extend_from_slice(&[b'\\', hex_digit(b / 16), hex_digit(b % 16)])
}

/// Appends the escapes of a few bytes, none of them plain, one by one.
fn put_few(out: &mut Vec<u8>, bytes: &[u8]) -> Result<(), AllocError>
    requires { AllByRecursion (λ b. is_plain b ≡ false) bytes.now }
    ensures spelled { OnOk result (out.new.items ≡ out.old.items ++ flat_map symbol_spell bytes.now) }
    ensures keeps { Keeps out.old.items out.new.items }
{
    for b in bytes {
        put_escape(out, *b)?;
    }
    Ok(())
}

/// Appends the escapes of bytes in front, of which the first isn't plain; returns how many.
// One alone needs no block of sixteen, and where fewer are left a block costs a copy.
fn put_odd(out: &mut Vec<u8>, bytes: &[u8]) -> Result<usize, AllocError>
    requires some { 0 < length bytes.now }
    requires odd { is_plain (slice_index bytes.now 0) ≡ false }
    ensures many { IfOk result (λ n. (1 ≤ n) × (n ≤ length bytes.now)) }
    ensures spelled { IfOk result (λ n. out.new.items ≡ out.old.items ++ flat_map symbol_spell (take n bytes.now)) }
    ensures keeps { Keeps out.old.items out.new.items }
{
    if bytes.len() < 2 || is_plain(bytes[1]) {
        put_escape(out, bytes[0])?;
        return Ok(1);
    }
    let run = odd_len(bytes);
    if run < 4 && bytes.len() < 16 {
        put_few(out, &bytes[..run])?;
    } else {
        put_escapes(out, block_of(bytes), run)?;
    }
    Ok(run)
}

/// Appends the bytes of a text, each plain or as its escape.
// A run of plain ones is copied whole.
fn put_symbols(out: &mut Vec<u8>, bytes: &[u8]) -> Result<(), AllocError>
    ensures spelled { OnOk result (out.new.items ≡ out.old.items ++ flat_map symbol_spell bytes.now) }
    ensures keeps { Keeps out.old.items out.new.items }
{
    let mut ahead = bytes;
    while let Some(first) = ahead.first() {
        if is_plain(*first) {
            let (run, rest) = ahead.split_at(plain_len(ahead));
            out.extend_from_slice(run)?;
            ahead = rest;
        } else {
            let count = put_odd(out, ahead)?;
            ahead = &ahead[count..];
        }
    }
    Ok(())
}

/// Appends a text: `~`, or its bytes between quotation marks.
pub fn put_text(out: &mut Vec<u8>, text: &Text) -> Result<(), AllocError>
    ensures spelled { OnOk result (out.new.items ≡ out.old.items ++ text_spell text.now) }
    ensures fits { OnOk result (text_fits text.now) }
    ensures keeps { Keeps out.old.items out.new.items }
{
    match text {
        Text::Null => out.extend_from_slice(b"~"),
        Text::Full(text) => put_chars(out, text.as_str()),
    }
}

/// Appends a borrowed text: `~`, or its bytes between quotation marks.
#[inline(always)]
pub fn put_text_ref(out: &mut Vec<u8>, text: &TextRef<'_>) -> Result<(), AllocError>
    ensures spelled { OnOk result (out.new.items ≡ out.old.items ++ text_spell text.now) }
    ensures fits { OnOk result (text_fits text.now) }
    ensures keeps { Keeps out.old.items out.new.items }
{
    match text {
        TextRef::Null => out.extend_from_slice(b"~"),
        TextRef::Full(text) => put_chars(out, text.as_str()),
    }
}

/// Appends plain bytes between quotation marks.
// Memory is reserved once.
#[inline(always)]
fn put_plain(out: &mut Vec<u8>, bytes: &[u8]) -> Result<(), AllocError>
    ensures spelled { OnOk result (out.new.items ≡ out.old.items ++ (34 ∷ (bytes.now ++ (34 ∷ [])))) }
    ensures keeps { Keeps out.old.items out.new.items }
{
    out.reserve(bytes.len() + 2)?;
    out.push_reserved(b'"');
    out.extend_from_slice(bytes)?;
    out.push_reserved(b'"');
    Ok(())
}

/// Appends bytes between quotation marks, each plain or as its escape.
fn put_escaped(out: &mut Vec<u8>, bytes: &[u8]) -> Result<(), AllocError>
    ensures spelled { OnOk result (out.new.items ≡ out.old.items ++ (34 ∷ (flat_map symbol_spell bytes.now ++ (34 ∷ [])))) }
    ensures keeps { Keeps out.old.items out.new.items }
{
    out.extend_from_slice(b"\"")?;
    put_symbols(out, bytes)?;
    out.extend_from_slice(b"\"")
}

/// Appends the bytes of a text between quotation marks.
// Most texts have no escapes, and are written whole.
#[inline(always)]
fn put_chars(out: &mut Vec<u8>, text: &str) -> Result<(), AllocError>
    ensures spelled { OnOk result (out.new.items ≡ out.old.items ++ text_spell (nullable.Full text.now)) }
    ensures fits { OnOk result (text_fits (nullable.Full text.now)) }
    ensures keeps { Keeps out.old.items out.new.items }
{
    let bytes = text.as_bytes();
    if are_plain(bytes) {
        put_plain(out, bytes)
    } else {
        put_escaped(out, bytes)
    }
}

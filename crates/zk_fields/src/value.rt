//! `Value`: what a field says, as the bytes that are written of it.
ghost use Rattle.std.specs.Prelude.{◌≡◌, ◌<◌, ◌^◌, ◌∷◌, ◌++◌, [], pos, Some, None, IfSome, option_copied, length};
ghost use Rattle.std.specs.Option.{option_map, option_and_then};
ghost use Rattle.zk_jute.specs.Item.{AnInt, ALong, ABoolean, AUstring, ABuffer, ACount, bytes_of, int_bytes};
ghost use Rattle.zk_records.specs.Records.{multi_header};
ghost use Rattle.zk_fields.specs.{Heads.plain_head, Values.value_bytes, Values.IsSaid, Values.Fills};
ghost use Rattle.zk_fields.specs.Written.{int_said, number_said, int_number, bool_said, count_said, stretch_said, run_said, utf8_said, list_said, Pair, error_said, head_err, head_said, said, said_at};

use crate::field::Field;
use crate::kind::{BLOB, BOOLEAN, INT, LIST, LONG, PART, TEXT};
use std::str::from_utf8;

/// Which headers the fields of a multi stand for.
#[derive(Clone, Copy)]
pub enum Heads {
    /// Those of a request's parts.
    Parts,
    /// Those of a reply's results.
    Results,
}

/// What a field says.
#[derive(Clone, Copy)]
pub(crate) enum Value<'a> {
    /// An int, a list's count, or the -1 of what is null.
    Int(i32),
    Long(i64),
    Boolean(bool),
    /// A length and the bytes.
    Run { length: i32, bytes: &'a [u8] },
    /// The header of a part or a result.
    Head { kind: i32, err: i32 },
}

/// The number, if an int can say it.
fn int_of(number: i64) -> Option<i32>
    ensures { result ≡ int_said number }
{
    i32::try_from(number).ok()
}

/// The number of a field that isn't null.
fn number_in(field: &Field) -> Option<i64>
    ensures { result ≡ number_said field.now }
{
    if field.null != 0 {
        return None;
    }
    Some(field.number)
}

/// Such a number, if an int can say it.
fn int_in(field: &Field) -> Option<i32>
    ensures { result ≡ int_number field.now }
{
    int_of(number_in(field)?)
}

fn int_value<'a>(field: &Field) -> Option<Value<'a>>
    ensures { IsSaid (option_map (λ n. AnInt n ∷ []) (int_number field.now)) result }
{
    Some(Value::Int(int_in(field)?))
}

fn long_value<'a>(field: &Field) -> Option<Value<'a>>
    ensures { IsSaid (option_map (λ n. ALong n ∷ []) (number_said field.now)) result }
{
    Some(Value::Long(number_in(field)?))
}

fn bool_value<'a>(field: &Field) -> Option<Value<'a>>
    ensures { IsSaid (option_map (λ b. ABoolean b ∷ []) (option_and_then bool_said (number_said field.now))) result }
{
    match number_in(field)? {
        0 => Some(Value::Boolean(false)),
        1 => Some(Value::Boolean(true)),
        _ => None,
    }
}

/// The content of a field, if it is there.
fn stretch<'a>(field: &Field, content: &'a [u8]) -> Option<&'a [u8]>
    ensures said { option_copied result ≡ stretch_said content.now field.now }
    ensures short { IfSome result (λ bytes. length bytes.now < 2 ^ 31) }
{
    let place = field.place as usize;
    let length = field.length as usize;
    if place > content.len() || length > content.len() - place {
        return None;
    }
    if length > i32::MAX as usize {
        return None;
    }
    Some(&content[place..place + length])
}

/// A length and the bytes, if an int can say the length.
fn run_value<'a>(bytes: &'a [u8]) -> Option<Value<'a>>
    ensures { length bytes.now < 2 ^ 31 → IsSaid (Some (ABuffer (Some bytes.now) ∷ [])) result }
{
    let length = i32::try_from(bytes.len()).ok()?;
    Some(Value::Run { length, bytes })
}

/// The content of a text.
fn text<'a>(field: &Field, content: &'a [u8]) -> Option<Value<'a>>
    ensures { IsSaid (option_map (λ t. AUstring t ∷ []) (option_and_then utf8_said (option_map Some (stretch_said content.now field.now)))) result }
{
    let bytes = stretch(field, content)?;
    match from_utf8(bytes) {
        Ok(_) => run_value(bytes),
        Err(_) => None,
    }
}

/// The bytes of a text, a blob or a list that is null.
fn null_value<'a>() -> Option<Value<'a>>
    ensures { IsSaid (Some (ABuffer None ∷ [])) result }
{
    Some(Value::Int(-1))
}

fn text_value<'a>(field: &Field, content: &'a [u8]) -> Option<Value<'a>>
    ensures { IsSaid (option_map (λ t. AUstring t ∷ []) (option_and_then utf8_said (run_said content.now field.now))) result }
{
    if field.null == 0 {
        text(field, content)
    } else {
        null_value()
    }
}

fn blob_value<'a>(field: &Field, content: &'a [u8]) -> Option<Value<'a>>
    ensures { IsSaid (option_map (λ b. ABuffer b ∷ []) (run_said content.now field.now)) result }
{
    if field.null == 0 {
        run_value(stretch(field, content)?)
    } else {
        null_value()
    }
}

/// The number, if a list can have that number of elements.
fn count_of(number: i64) -> Option<i32>
    ensures { result ≡ option_map pos (count_said number) }
{
    if number < 0 {
        return None;
    }
    int_of(number)
}

fn list_value<'a>(field: &Field) -> Option<Value<'a>>
    ensures { IsSaid (option_map (λ n. ACount n ∷ []) (list_said field.now)) result }
{
    if field.null == 0 {
        Some(Value::Int(count_of(field.number)?))
    } else {
        null_value()
    }
}

/// The number of an int's field.
fn error_of(next: Option<&Field>) -> Option<i32>
    ensures { result ≡ error_said (option_copied next.entry) }
{
    let field = next?;
    if field.kind != INT {
        return None;
    }
    int_in(field)
}

/// The err in the header of a part or a result with this number, before the field `next`.
fn err_of(heads: Heads, number: i32, next: Option<&Field>) -> Option<i32>
    ensures { result ≡ head_err heads number (option_copied next.entry) }
{
    match heads {
        Heads::Parts => Some(-1),
        Heads::Results => match number {
            -1 => error_of(next),
            _ => Some(0),
        },
    }
}

fn head_value<'a>(heads: Heads, field: &Field, next: Option<&Field>) -> Option<Value<'a>>
    ensures { IsSaid (option_map multi_header.items (option_and_then (head_said heads (option_copied next.entry)) (int_number field.now))) result }
{
    let kind = int_in(field)?;
    let err = err_of(heads, kind, next)?;
    Some(Value::Head { kind, err })
}

/// What a field says, before the field `next`; `None` if that is nothing.
fn value_of<'a>(
    heads: Heads,
    field: &Field,
    next: Option<&Field>,
    content: &'a [u8],
) -> Option<Value<'a>>
    ensures { IsSaid (said heads content.now (field.now, option_copied next.entry)) result }
{
    match field.kind {
        INT => int_value(field),
        LONG => long_value(field),
        BOOLEAN => bool_value(field),
        TEXT => text_value(field, content),
        BLOB => blob_value(field, content),
        LIST => list_value(field),
        PART => head_value(heads, field, next),
        _ => None,
    }
}

/// What the field of this index says; `None` if that is nothing.
pub(crate) fn value_at<'a>(
    heads: Heads,
    fields: &[Field],
    index: usize,
    content: &'a [u8],
) -> Option<Value<'a>>
    requires { index < length fields.now }
    ensures { (d : Pair) → IsSaid (said_at heads content.now fields.now index d) result }
{
    value_of(heads, &fields[index], fields.get(index + 1), content)
}

impl<'a> Value<'a> {
    /// The number of its bytes.
    pub(crate) fn size(&self) -> u64
        ensures { result ≡ length (value_bytes self.now) }
    {
        match self {
            Value::Int(_) => 4,
            Value::Long(_) => 8,
            Value::Boolean(_) => 1,
            Value::Run { bytes, .. } => bytes.len() as u64 + 4,
            Value::Head { .. } => 9,
        }
    }

    /// Writes its bytes, if `room` has place for them there, and returns the place after them.
    pub(crate) fn fill(&self, room: &mut [u8], at: usize) -> usize
        ensures { Fills (value_bytes self.now) at room.old result room.new }
    {
        match self {
            Value::Int(n) => fill_int(*n, room, at),
            Value::Long(n) => fill(&n.to_be_bytes(), room, at),
            Value::Boolean(b) => fill(&[u8::from(*b)], room, at),
            Value::Run { length, bytes } => fill_run(*length, bytes, room, at),
            Value::Head { kind, err } => fill(&head_bytes(*kind, *err), room, at),
        }
    }
}

/// Writes the bytes, if `room` has place for them there, and returns the place after them.
pub(crate) fn fill(bytes: &[u8], room: &mut [u8], at: usize) -> usize
    ensures { Fills bytes.now at room.old result room.new }
{
    if at > room.len() {
        return at;
    }
    if bytes.len() > room.len() - at {
        return at;
    }
    let end = at + bytes.len();
    room[at..end].copy_from_slice(bytes);
    end
}

pub(crate) fn fill_int(n: i32, room: &mut [u8], at: usize) -> usize
    ensures { Fills (int_bytes n) at room.old result room.new }
{
    fill(&n.to_be_bytes(), room, at)
}

fn fill_run(length: i32, bytes: &[u8], room: &mut [u8], at: usize) -> usize
    ensures { Fills (int_bytes length ++ bytes.now) at room.old result room.new }
{
    let at = fill_int(length, room, at);
    fill(bytes, room, at)
}

/// The bytes of the header of a part or a result.
fn head_bytes(kind: i32, err: i32) -> [u8; 9]
    ensures { result ≡ bytes_of (multi_header.items (plain_head kind err)) }
{
    let k = kind.to_be_bytes();
    let e = err.to_be_bytes();
    [k[0], k[1], k[2], k[3], 0, e[0], e[1], e[2], e[3]]
}

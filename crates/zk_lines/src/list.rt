//! Lists of items in a line: written, owned or borrowed, and read.
ghost use Rattle.std.specs.Prelude.{◌≡◌, ◌+◌, ◌++◌, ◌<◌, ◌≤◌, ◌^◌, ◌∷◌, [], List, length, take, drop, pos, IfErr, IfOk, OnErr, OnOk};
ghost use Rattle.zk_jute.specs.Item.{int_bytes};
ghost use Rattle.std.specs.List.{flat_map, AllByRecursion};
ghost use Rattle.zk_jute.specs.Values.{list_items};
ghost use Rattle.zk_items.specs.{Encoded.Encoded, Form.Fails, Form.Gives, Form.GivesSeen, Form.Keeps, Many.many_at, Many.with_first};
ghost use Rattle.zk_lines.specs.Encoded.{EncodedOthers, EncodedSeries};
ghost use Rattle.zk_lines.specs.Series.{element_at, series_at, full_at, list_of, multi_of, series_spell};

use crate::encode_item::{Encode, append};
use crate::put::Put;
use crate::word::{Word, put_word, read_word};
use std::alloc::{AllocError, Global};
use zk_items::{LineFault, LineReason, Reader, set_count};
use zk_jute::{Items, KnownIn, Left, Lent, List, Sequence, Series};

/// The sign between the items, and the sign after the last.
#[derive(Clone, Copy, Debug, PartialEq, Eq)]
pub struct Signs {
    /// The sign between two items.
    pub between: u8,
    /// The sign after the last item.
    pub behind: u8,
}

/// The signs between the items of a list and after the last.
const COMMAS: Signs = Signs {
    between: b',',
    behind: b']',
};

/// The signs between the parts or the results of a multi and after the last.
pub const PARTS: Signs = Signs {
    between: b';',
    behind: b'}',
};

/// Reads the items after the first, and appends their bytes; returns how many there are, with the first.
fn encode_others<T: Encode>(
    line: &mut Reader<'_>,
    signs: Signs,
    out: &mut Vec<u8>,
) -> Result<usize, LineFault>
    ensures encoded { IfOk result (λ n. EncodedOthers signs.between signs.behind T.form.at T.items n line.old line.new out.old.items out.new.items) }
    ensures refused { IfErr result (λ e. Fails e (many_at (element_at signs.between signs.behind T.form.at) (length line.old) line.old)) }
    ensures keeps { Keeps out.old.items out.new.items }
{
    let turns = line.left();
    for turn in 0..turns {
        if line.passes(&[signs.behind]) {
            return Ok(turn + 1);
        }
        line.literal(&[signs.between])?;
        T::encode(line, out)?;
    }
    Err(line.fault(LineReason::Word))
}

/// Reads items, with a sign between two and one after the last, and appends their bytes; returns how many there are.
/// Whatever `out` began with, it begins with.
pub fn encode_series<T: Encode>(
    line: &mut Reader<'_>,
    signs: Signs,
    out: &mut Vec<u8>,
) -> Result<usize, LineFault>
    ensures encoded { IfOk result (λ n. EncodedSeries signs.between signs.behind T.form.at T.items n line.old line.new out.old.items out.new.items) }
    ensures refused { IfErr result (λ e. Fails e (series_at signs.between signs.behind T.form.at line.old)) }
    ensures keeps { Keeps out.old.items out.new.items }
{
    if line.passes(&[signs.behind]) {
        return Ok(0);
    }
    T::encode(line, out)?;
    encode_others::<T>(line, signs, out)
}

/// Reads items between brackets, after the first of these, and appends their count and their bytes.
fn encode_counted<T: Encode>(line: &mut Reader<'_>, out: &mut Vec<u8>) -> Result<(), LineFault>
    ensures encoded { OnOk result (Encoded (full_at T.form.at) (list_items T.items) line.old line.new out.old.items out.new.items) }
    ensures refused { IfErr result (λ e. Fails e ((full_at T.form.at) line.old)) }
    ensures keeps { Keeps out.old.items out.new.items }
{
    let start = out.len();
    append(out, &0_i32)?;
    let count = encode_series::<T>(line, COMMAS, out)?;
    set_count(out, start, count)?;
    Ok(())
}

impl<'a, T: Put> Put for Lent<'a, T> {
    ghost form = { T.form };

    fn put(&self, out: &mut Vec<u8>) -> Result<(), AllocError> {
        self.get().put(out)
    }
}

fn put_elements<I: Left>(out: &mut Vec<u8>, items: I, sign: u8) -> Result<(), AllocError>
where
    I::One: Put,
    ensures spelled { OnOk result (out.new.items ≡ out.old.items ++ flat_map (λ y. sign ∷ I.One.form.spell y) (I.left items)) }
    ensures fits { OnOk result (AllByRecursion I.One.form.fits (I.left items)) }
    ensures keeps { Keeps out.old.items out.new.items }
{
    let mut items = items;
    while let Some(item) = items.take() {
        out.push(sign)?;
        item.put(out)?;
    }
    Ok(())
}

/// Appends the items after the first.
fn put_others<I: Left>(out: &mut Vec<u8>, items: I, signs: Signs) -> Result<(), AllocError>
where
    I::One: Put,
    ensures spelled { OnOk result (out.new.items ≡ out.old.items ++ (flat_map (λ y. signs.between ∷ I.One.form.spell y) (I.left items) ++ (signs.behind ∷ []))) }
    ensures fits { OnOk result (AllByRecursion I.One.form.fits (I.left items)) }
    ensures keeps { Keeps out.old.items out.new.items }
{
    put_elements(out, items, signs.between)?;
    out.extend_from_slice(&[signs.behind])
}

/// Appends the items that are left, with a sign between two and one after the last.
pub fn put_series<I: Left>(out: &mut Vec<u8>, items: I, signs: Signs) -> Result<(), AllocError>
where
    I::One: Put,
    ensures spelled { OnOk result (out.new.items ≡ out.old.items ++ series_spell signs.between signs.behind I.One.form.spell (I.left items)) }
    ensures fits { OnOk result (AllByRecursion I.One.form.fits (I.left items)) }
    ensures keeps { Keeps out.old.items out.new.items }
{
    let mut items = items;
    match items.take() {
        None => out.extend_from_slice(&[signs.behind]),
        Some(first) => {
            first.put(out)?;
            put_others(out, items, signs)
        }
    }
}

impl<T: Put> Put for List<T> {
    ghost form = { list_of T.form };

    /// Appends `~`, or the items between brackets, with commas between them.
    fn put(&self, out: &mut Vec<u8>) -> Result<(), AllocError> {
        match self {
            List::Null => out.extend_from_slice(b"~"),
            List::Full(items) => {
                out.extend_from_slice(b"[")?;
                put_series(out, items.as_slice().iter(), COMMAS)
            }
        }
    }
}

impl<T: Encode> Encode for List<T> {
    fn encode(line: &mut Reader<'_>, out: &mut Vec<u8>) -> Result<(), LineFault> {
        if line.passes(b"~") {
            append(out, &-1_i32)?;
            return Ok(());
        }
        line.literal(b"[")?;
        encode_counted::<T>(line, out)
    }
}

impl<'a, R: KnownIn<'a> + Put> Put for Series<'a, R> {
    ghost form = { list_of R.form };

    /// Appends `~`, or the items between brackets, with commas between them.
    fn put(&self, out: &mut Vec<u8>) -> Result<(), AllocError> {
        match self {
            Series::Null => out.extend_from_slice(b"~"),
            Series::Full(elements) => {
                out.extend_from_slice(b"[")?;
                put_series(out, elements.items(), COMMAS)
            }
        }
    }
}

/// Items by themselves are a multi's; those of a list are within a `List`.
impl<T: Put> Put for Items<T> {
    ghost form = { multi_of T.form };

    /// Appends the parts or the results of a multi, after their word.
    fn put(&self, out: &mut Vec<u8>) -> Result<(), AllocError> {
        put_word(out, Word::Parts)?;
        put_series(out, self.as_slice().iter(), PARTS)
    }
}

impl<'a, M: KnownIn<'a> + Put> Put for Sequence<'a, M> {
    ghost form = { multi_of M.form };

    /// Appends the parts or the results of a multi, after their word.
    fn put(&self, out: &mut Vec<u8>) -> Result<(), AllocError> {
        put_word(out, Word::Parts)?;
        put_series(out, self.items(), PARTS)
    }
}

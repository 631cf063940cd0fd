//! Two records that are items of a line: an entry of an access list, and a `Stat`.
ghost use Rattle.std.specs.Prelude.{◌≡◌, ◌++◌, ◌∷◌, ◌+◌, ◌<◌, ◌≤◌, ℕ, OnOk, length, drop};
ghost use Rattle.zk_items.specs.{Form.Form, Form.Gives, Form.Keeps, Leaf.int};
ghost use Rattle.zk_lines.specs.Records as records;

use crate::encode_item::{Encode, encode_field};
use crate::put::{Put, put_field};
use crate::word::{Word, read_word};
use std::alloc::AllocError;
use zk_items::{LineFault, Reader, int_before, long_before, put_int};
use zk_jute::Text;
use zk_records::{Acl, AclOf, IdOf, Stat, fields_of};

/// Appends an entry of an access list: its bits, and its two texts, each after a colon.
#[tactic(auto, using(zk_items::proofs::Kept::then_spelled))]
fn put_entry<T: Put>(out: &mut Vec<u8>, perms: i32, scheme: &T, ident: &T) -> Result<(), AllocError>
    ensures spelled { OnOk result (out.new.items ≡ out.old.items ++ records.entry T.form.spell perms scheme.now ident.now) }
    ensures fits { OnOk result (int.fits perms × (T.form.fits scheme.now × T.form.fits ident.now)) }
    ensures keeps { Keeps out.old.items out.new.items }
{
    put_int(out, perms)?;
    put_field(out, Word::Colon, scheme)?;
    put_field(out, Word::Colon, ident)
}

impl<T: Put> Put for AclOf<IdOf<T>> {
    ghost use Rattle.zk_lines.specs.Records.{acl_of};

    ghost form = { acl_of T.form };

    fn put(&self, out: &mut Vec<u8>) -> Result<(), AllocError> {
        put_entry(out, self.perms, &self.who.scheme, &self.who.ident)
    }
}

impl Encode for Acl {
    fn encode(line: &mut Reader<'_>, out: &mut Vec<u8>) -> Result<(), LineFault> {
        i32::encode(line, out)?;
        encode_field::<Text>(line, Word::Colon, out)?;
        encode_field::<Text>(line, Word::Colon, out)?;
        Ok(())
    }
}

/// Numbers in a row: one, or one and others after a comma.
trait Numbers: Sized + Drop {
    ghost form: { Form Self };

    /// The bytes that they and a sign before each take at most.
    ghost most: { ℕ };

    /// Reads the numbers.
    fn read(line: &mut Reader<'_>) -> Result<Self, LineFault>
        ensures { Gives result line.new (Self.form.at line.old) };

    /// Writes `sign` and after it the numbers, so that they end at `end`; returns where they begin.
    // From the last number on, as `long_before` writes, so that all are copied once.
    fn write_before(&self, room: &mut [u8], end: usize, sign: u8) -> usize
        requires room { (Self.most ≤ end) × (end ≤ length room.old) }
        ensures near { (end ≤ result + Self.most) × (result < end) }
        ensures written { drop result room.new ≡ sign ∷ (Self.form.spell self.now ++ drop end room.old) }
        ensures fits { Self.form.fits self.now };
}

impl Numbers for i64 {
    ghost use Rattle.zk_items.specs.Leaf.{long};

    ghost form = { long };

    ghost most = { 21 };

    #[inline(always)]
    fn read(line: &mut Reader<'_>) -> Result<Self, LineFault> {
        line.long()
    }

    #[inline(always)]
    fn write_before(&self, room: &mut [u8], end: usize, sign: u8) -> usize {
        long_before(room, end, sign, *self)
    }
}

impl Numbers for i32 {
    ghost use Rattle.zk_items.specs.Leaf.{int};

    ghost form = { int };

    ghost most = { 21 };

    #[inline(always)]
    fn read(line: &mut Reader<'_>) -> Result<Self, LineFault> {
        line.int()
    }

    #[inline(always)]
    fn write_before(&self, room: &mut [u8], end: usize, sign: u8) -> usize {
        int_before(room, end, sign, *self)
    }
}

impl<A: Numbers, B: Numbers> Numbers for (A, B) {
    ghost use Rattle.std.specs.Prelude.{◌+◌};
    ghost use Rattle.zk_lines.specs.Records.{row};

    ghost form = { row A.form B.form };

    ghost most = { A.most + B.most };

    #[inline(always)]
    fn read(line: &mut Reader<'_>) -> Result<Self, LineFault> {
        let first = A::read(line)?;
        read_word(line, Word::Comma)?;
        let others = B::read(line)?;
        Ok((first, others))
    }

    #[inline(always)]
    #[tactic(auto, using(crate::proofs::Records::row_written), unfolding(crate::specs::Words::word_of))]
    fn write_before(&self, room: &mut [u8], end: usize, sign: u8) -> usize {
        let at = self.1.write_before(room, end, b',');
        self.0.write_before(room, at, sign)
    }
}

/// `fields_of!(R, row, record)` is `(record.a, (record.b, record.c))`, the numbers of the record as a row.
macro_rules! row {
    ($record:ident: $last:ident $name:ident $kind:ident) => { $record.$last };
    ($record:ident: $first:ident $name:ident $kind:ident, $($rest:tt)+) => {
        ($record.$first, row!($record: $($rest)+))
    };
}

/// `row_let!(a, b, c)` is the pattern `(a, (b, c))`.
macro_rules! row_let {
    ($last:ident) => { $last };
    ($first:ident, $($rest:ident),+) => { ($first, row_let!($($rest),+)) };
}

/// `fields_of!(R, read_row, line, R)` reads the numbers of the record as a row.
macro_rules! read_row {
    ($line:ident, $record:ident: $($field:ident $name:ident $kind:ident),+) => {{
        let row_let!($($field),+) = Numbers::read($line)?;
        $record { $($field),+ }
    }};
}

/// Reads a `Stat`.
pub fn read_stat(line: &mut Reader<'_>) -> Result<Stat, LineFault>
    ensures { Gives result line.new (records.stat.at line.old) }
{
    read_word(line, Word::Open)?;
    let stat = fields_of!(Stat, read_row, line, Stat);
    read_word(line, Word::Close)?;
    Ok(stat)
}

impl Put for Stat {
    ghost use Rattle.zk_lines.specs.Records.{stat};

    ghost form = { stat };

    fn put(&self, out: &mut Vec<u8>) -> Result<(), AllocError> {
        let mut room = [0; STAT_ROOM];
        let start = write_stat(&mut room, self);
        out.extend_from_slice(&room[start..])
    }
}

/// Room for the longest `Stat`: eleven numbers of at most twenty bytes, a sign before each, and one after them.
const STAT_ROOM: usize = 11 * 21 + 1;

/// Writes `stat` at the end of `room`, and returns where it begins.
fn write_stat(room: &mut [u8; STAT_ROOM], stat: &Stat) -> usize
    ensures within { result < 232 }
    ensures written { drop result room.new ≡ records.stat.spell stat.now }
    ensures fits { records.stat.fits stat.now }
{
    room[STAT_ROOM - 1] = b')';
    let numbers = fields_of!(Stat, row, stat);
    numbers.write_before(room, STAT_ROOM - 1, b'(')
}

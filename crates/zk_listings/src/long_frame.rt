//! `Gathered`: the bytes of a long frame that is begun, one after another, until it is whole.
ghost use Rattle.std.specs.Prelude.{◌≡◌, ◌≢◌, ◌+◌, ◌-◌, ◌^◌, ◌<◌, ◌≤◌, ◌++◌, ◌↔◌, [], true, Err, min, length, take, IsTrue, IfOk, OnOk, OnErr, IsErrOf};
ghost use Rattle.std.specs.Io.KnownBytes.{IsAtEnd, Keeps};
ghost use Rattle.zk_listings.specs.declared.listing.RunFault.TheVariants.{Read, Write, Memory};
ghost use Rattle.zk_listings.specs.Gathered.{ReadsAfter};

use crate::engines::BLOCK;
use crate::listing::RunFault;
use crate::streams::Source;
use std::alloc::{AllocError, Global};
use std::marker::Model;
use zk_talk::Side;

/// The bytes that are asked for first: a block that the C library makes longer without a copy.
const ROOM: usize = 262_144;

/// Bytes of one side, in room for more.
#[derive(Drop)]
pub(crate) struct Gathered {
    side: Side,
    /// The bytes, and after them others of no account, over which the next ones come.
    room: Vec<u8>,
    held: usize,
}

impl Model for Gathered {
    ghost use Rattle.std.specs.Prelude.{◌≤◌, length, take};
    ghost use Rattle.zk_listings.specs.Gathered.{SideBytes};

    ghost Value = { SideBytes };

    ghost view = { λ g. record { side = g.side; bytes = take g.held g.room.items } };

    ghost invariant = { λ g. g.held ≤ length g.room.items };
}

/// Makes room for `most` bytes at `at`, of those of `block`, which are of no account.
fn widen(room: &mut Vec<u8>, at: usize, most: usize, block: &[u8]) -> Result<(), AllocError>
    requires at { at ≤ length room.old.items }
    requires most { most ≤ length block.now }
    ensures front { take at room.new.items ≡ take at room.old.items }
    ensures kept { length room.old.items ≤ length room.new.items }
    ensures room { OnOk result (at + most ≤ length room.new.items) }
{
    if room.len() - at < most {
        room.extend_from_slice(block)?;
    }
    Ok(())
}

/// Puts `more` at `at`.
fn put_at(room: &mut [u8], at: usize, more: &[u8])
    requires { at + length more.now ≤ length room.old }
    ensures long { length room.new ≡ length room.old }
    ensures bytes { take (at + length more.now) room.new ≡ take at room.old ++ more.now }
{
    room[at..at + more.len()].copy_from_slice(more);
}

/// Reads at most `most` bytes to `at`.
fn read_to<R: Source>(
    reader: &mut R,
    room: &mut [u8],
    at: usize,
    most: usize,
) -> Result<usize, RunFault>
    requires most { 0 < most }
    requires room { at + most ≤ length room.old }
    ensures long { length room.new ≡ length room.old }
    ensures bound { IfOk result (λ n. n ≤ most) }
    ensures bytes { IfOk result (λ n. ReadsAfter (R.remaining reader.old) (R.remaining reader.new) (take at room.old) n (take (at + n) room.new)) }
    ensures end { IfOk result (λ n. n ≡ 0 → IsAtEnd (R.remaining reader.new)) }
    ensures same { OnErr result (take at room.new ≡ take at room.old) }
    ensures kept { OnErr result (Keeps (R.remaining reader.old) (R.remaining reader.new)) }
    ensures fault { OnErr result (result ≡ Err Read) }
    ensures counted { R.read_count reader.new ≡ min (R.read_count reader.old + 1) (2 ^ 64 - 1) }
    ensures live { OnOk result (R.has_failed reader.new ≡ R.has_failed reader.old) }
    ensures failed { OnErr result (R.has_failed reader.new ≡ true) }
{
    match reader.read(&mut room[at..at + most]) {
        Ok(count) => Ok(count),
        Err(_failed) => Err(RunFault::Read),
    }
}

impl Gathered {
    /// No bytes.
    pub fn new(alloc: Global) -> Self
        ensures { result.bytes ≡ [] }
    {
        Gathered {
            side: Side::Client,
            room: Vec::new(alloc),
            held: 0,
        }
    }

    /// The side whose bytes they are.
    pub fn side(&self) -> Side
        ensures { result ≡ self.now.side }
    {
        self.side
    }

    /// The bytes.
    pub fn bytes(&self) -> &[u8]
        ensures { result.now ≡ self.now.bytes }
    {
        &self.room[..self.held]
    }

    /// Whether there are none.
    #[inline(always)]
    pub fn is_empty(&self) -> bool
        ensures { IsTrue result ↔ (self.now.bytes ≡ []) }
    {
        self.held == 0
    }

    /// The number of bytes for which earlier ones have left room.
    pub fn spare(&self) -> usize {
        self.room.len() - self.held
    }

    /// Forgets the bytes; the next ones are of `side`.
    pub fn begin(&mut self, side: Side)
        ensures { self.new ≡ record { side = side; bytes = [] } }
    {
        self.side = side;
        self.held = 0;
    }

    /// Appends `more`.
    pub fn append(&mut self, more: &[u8]) -> Result<(), AllocError>
        ensures ok { OnOk result (self.new ≡ record self.old { bytes = self.old.bytes ++ more.now }) }
        ensures same { OnErr result (self.new ≡ self.old) }
    {
        if self.room.len() - self.held < more.len() {
            if self.room.is_empty() {
                self.room.reserve_exact(ROOM)?;
            }
            self.room.truncate(self.held);
            self.room.extend_from_slice(more)?;
        } else {
            put_at(self.room.as_mut_slice(), self.held, more);
        }
        self.held += more.len();
        Ok(())
    }

    /// Reads at most `most` bytes, which are at most a block, after these, and returns how many came: 0 only at the end. Where
    /// earlier bytes have left no room, those of `block` make some.
    pub fn read<R: Source>(
        &mut self,
        reader: &mut R,
        most: usize,
        block: &[u8],
    ) -> Result<usize, RunFault>
        requires most { (0 < most) × (most ≤ 65536) }
        requires block { length block.now ≡ 65536 }
        ensures bound { IfOk result (λ n. n ≤ most) }
        ensures side { self.new.side ≡ self.old.side }
        ensures bytes { IfOk result (λ n. ReadsAfter (R.remaining reader.old) (R.remaining reader.new) self.old.bytes n self.new.bytes) }
        ensures end { IfOk result (λ n. n ≡ 0 → IsAtEnd (R.remaining reader.new)) }
        ensures same { OnErr result (self.new.bytes ≡ self.old.bytes) }
        ensures kept { OnErr result (Keeps (R.remaining reader.old) (R.remaining reader.new)) }
        ensures memory { IsErrOf result RunFault.Memory → reader.new ≡ reader.old }
        ensures no_write { result ≢ Err Write }
        ensures counted { result ≢ Err Memory → R.read_count reader.new ≡ min (R.read_count reader.old + 1) (2 ^ 64 - 1) }
        ensures live { OnOk result (R.has_failed reader.new ≡ R.has_failed reader.old) }
        ensures failed { IsErrOf result RunFault.Read → R.has_failed reader.new ≡ true }
    {
        widen(&mut self.room, self.held, most, block)?;
        let count = read_to(reader, self.room.as_mut_slice(), self.held, most)?;
        self.held += count;
        Ok(count)
    }
}

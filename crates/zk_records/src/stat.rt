//! The record `Stat` of zookeeper.jute: what is known of a node.
ghost use Rattle.std.specs.Prelude.{◌≡◌, refl};
ghost use Rattle.zk_records.specs.{Ordered.stat_row, Records.stat};

use crate::fields::pairs;
use crate::fields_of;
use std::alloc::{AllocError, Global};
use zk_jute::{Ends, Output, Spell, Verdict, View, Wire};

/// What is known of a node: `Stat`, 68 bytes, as `DataNode.copyStat` fills it. A transaction is its zxid.
#[derive(Clone, Copy, Debug)]
pub struct Stat {
    /// The transaction that made the node.
    pub czxid: i64,
    /// The transaction that last set its data.
    pub mzxid: i64,
    /// When it was made, in milliseconds since 1970.
    pub ctime: i64,
    /// When its data was last set, in milliseconds since 1970.
    pub mtime: i64,
    /// How often its data was set.
    pub version: i32,
    /// How often its children changed.
    pub cversion: i32,
    /// How often its access list was set.
    pub aversion: i32,
    /// The session that it ends with; 0 for none.
    pub ephemeral_owner: i64,
    /// The length of its data in bytes.
    pub data_length: i32,
    /// The number of its children.
    pub num_children: i32,
    /// The transaction that last changed its children.
    pub pzxid: i64,
}

impl Spell for Stat {
    ghost items = { stat.items };

    fn put<O: Output>(&self, out: &mut O) -> Result<(), O::Error> {
        fields_of!(Stat, pairs, self).put(out)
    }
}

/// The fields, as pairs of pairs.
type Row = (
    (i64, (i64, (i64, i64))),
    ((i32, (i32, (i32, i64))), (i32, (i32, i64))),
);

/// The `Stat` that has these fields.
#[inline(always)]
fn stat_of(row: Row) -> Stat
    ensures { stat.items result ≡ stat_row.items row }
{
    let (
        (czxid, (mzxid, (ctime, mtime))),
        ((version, (cversion, (aversion, ephemeral_owner))), (data_length, (num_children, pzxid))),
    ) = row;
    Stat {
        czxid,
        mzxid,
        ctime,
        mtime,
        version,
        cversion,
        aversion,
        ephemeral_owner,
        data_length,
        num_children,
        pzxid,
    }
}

/// The bytes of a `Stat`.
const SIZE: usize = 68;

// No `Record`: bounds that lead through its many fields too can't be resolved for a record that holds a `Stat`.
impl Ends for Stat {
    ghost wired = { stat };

    /// Any 68 bytes are a `Stat`: one look at how many are left replaces reading the fields, unless the place of a fault is
    /// asked for.
    #[inline(always)]
    fn find<V: Verdict>(payload: &[u8], place: usize) -> Result<usize, V> {
        if payload.len() - place >= SIZE {
            return Ok(place + SIZE);
        }
        match V::silent() {
            Some(verdict) => Err(verdict),
            None => Row::find(payload, place),
        }
    }
}

impl<'a> View<'a> for Stat {
    #[inline(always)]
    fn view(src: &'a [u8], place: usize) -> (Self, usize) {
        let (row, end) = Row::view(src, place);
        (stat_of(row), end)
    }
}

impl Wire for Stat {
    ghost written = { refl };

    fn copied(alloc: Global, src: &[u8], place: usize) -> Result<(Self, usize), AllocError> {
        let (row, end) = Row::copied(alloc, src, place)?;
        Ok((stat_of(row), end))
    }
}

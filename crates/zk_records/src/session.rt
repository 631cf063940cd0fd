//! The bodies of requests about the session: `AuthPacket` and `SetWatches` of zookeeper.jute.
ghost use Rattle.std.specs.Prelude.{◌≡◌, refl};
ghost use Rattle.zk_records.specs.Records.{auth_ask, set_watches_ask, auth_ask_of, set_watches_ask_of};

use crate::fields::{of, pairs};
use crate::fields_of;
use zk_jute::{Blob, BlobRef, Ends, List, Output, Record, Spell, Text, TextList, TextRef, Written};

/// Authenticates the client: `AuthPacket` (`ClientCnxn.addAuthInfo`).
#[derive(Debug, Drop)]
pub struct AuthAskOf<T, B> {
    /// `type` in jute: 0 in every release.
    pub kind: i32,
    /// The scheme, as `digest`.
    pub scheme: T,
    /// What the scheme asks for, as a name and a password.
    pub auth: B,
}

/// An owned `AuthAsk`.
pub type AuthAsk = AuthAskOf<Text, Blob>;

/// A borrowed `AuthAsk`.
pub type AuthAskRef<'a> = AuthAskOf<TextRef<'a>, BlobRef<'a>>;

impl Spell for AuthAsk {
    ghost items = { auth_ask.items };

    fn put<O: Output>(&self, out: &mut O) -> Result<(), O::Error> {
        fields_of!(AuthAsk, pairs, self).put(out)
    }
}

impl<T: Ends, B: Ends> Record for AuthAskOf<T, B> {
    type Row = (i32, (T, B));

    ghost record = { auth_ask_of T.wired B.wired };

    fn of(row: Self::Row) -> Self {
        fields_of!(AuthAsk, of, row, AuthAskOf)
    }

    ghost in_order = { refl };
}

impl Written for AuthAsk {
    ghost same = { refl };
}

/// Sets watches again, after a reconnect: `SetWatches` (`ClientCnxn.SendThread.primeConnection`,
/// `DataTree.setWatches`).
#[derive(Debug, Drop)]
pub struct SetWatchesAskOf<L> {
    /// The newest transaction that the client has seen; `relativeZxid` in jute.
    pub zxid: i64,
    /// The paths of nodes whose data is watched.
    pub data_watches: L,
    /// The paths whose coming into being is watched.
    pub exist_watches: L,
    /// The paths of nodes whose children are watched.
    pub child_watches: L,
}

/// An owned `SetWatchesAsk`.
pub type SetWatchesAsk = SetWatchesAskOf<List<Text>>;

/// A borrowed `SetWatchesAsk`.
pub type SetWatchesAskRef<'a> = SetWatchesAskOf<TextList<'a>>;

impl Spell for SetWatchesAsk {
    ghost items = { set_watches_ask.items };

    fn put<O: Output>(&self, out: &mut O) -> Result<(), O::Error> {
        fields_of!(SetWatchesAsk, pairs, self).put(out)
    }
}

impl<L: Ends> Record for SetWatchesAskOf<L> {
    type Row = (i64, (L, (L, L)));

    ghost record = { set_watches_ask_of L.wired };

    fn of(row: Self::Row) -> Self {
        fields_of!(SetWatchesAsk, of, row, SetWatchesAskOf)
    }

    ghost in_order = { refl };
}

impl Written for SetWatchesAsk {
    ghost same = { refl };
}

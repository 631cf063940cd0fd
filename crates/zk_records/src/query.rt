//! The bodies of requests that look at a node.
//!
//! They are `ExistsRequest`, `GetDataRequest`, `GetChildrenRequest`, `GetChildren2Request`, `GetACLRequest`,
//! `SyncRequest`, `GetEphemeralsRequest` and `GetAllChildrenNumberRequest` of zookeeper.jute.
ghost use Rattle.std.specs.Prelude.{◌≡◌, refl};
ghost use Rattle.zk_records.specs.Records.{watch_ask, path_ask, watch_ask_of, path_ask_of};

use crate::fields::{of, pairs};
use crate::fields_of;
use zk_jute::{Ends, Output, Record, Spell, Text, TextRef, Written};

/// Looks at a node, and may set a watch: `ExistsRequest`, `GetDataRequest`, `GetChildrenRequest` and
/// `GetChildren2Request`.
#[derive(Debug, Drop)]
pub struct WatchAskOf<T> {
    /// The node's path.
    pub path: T,
    /// Whether the server is to report the node's next change.
    pub watch: bool,
}

/// An owned `WatchAsk`.
pub type WatchAsk = WatchAskOf<Text>;

/// A borrowed `WatchAsk`.
pub type WatchAskRef<'a> = WatchAskOf<TextRef<'a>>;

impl Spell for WatchAsk {
    ghost items = { watch_ask.items };

    fn put<O: Output>(&self, out: &mut O) -> Result<(), O::Error> {
        fields_of!(WatchAsk, pairs, self).put(out)
    }
}

impl<T: Ends> Record for WatchAskOf<T> {
    type Row = (T, bool);

    ghost record = { watch_ask_of T.wired };

    fn of(row: Self::Row) -> Self {
        fields_of!(WatchAsk, of, row, WatchAskOf)
    }

    ghost in_order = { refl };
}

impl Written for WatchAsk {
    ghost same = { refl };
}

/// A path alone: `GetACLRequest`, `SyncRequest`, `GetEphemeralsRequest` and `GetAllChildrenNumberRequest`.
#[derive(Debug, Drop)]
pub struct PathAskOf<T> {
    /// The node's path.
    pub path: T,
}

/// An owned `PathAsk`.
pub type PathAsk = PathAskOf<Text>;

/// A borrowed `PathAsk`.
pub type PathAskRef<'a> = PathAskOf<TextRef<'a>>;

impl Spell for PathAsk {
    ghost items = { path_ask.items };

    fn put<O: Output>(&self, out: &mut O) -> Result<(), O::Error> {
        fields_of!(PathAsk, pairs, self).put(out)
    }
}

impl<T: Ends> Record for PathAskOf<T> {
    type Row = T;

    ghost record = { path_ask_of T.wired };

    fn of(row: Self::Row) -> Self {
        fields_of!(PathAsk, of, row, PathAskOf)
    }

    ghost in_order = { refl };
}

impl Written for PathAsk {
    ghost same = { refl };
}

//! The bodies of requests about a node's watches: `CheckWatchesRequest`, `RemoveWatchesRequest` and `AddWatchRequest` of
//! zookeeper.jute.
ghost use Rattle.std.specs.Prelude.{◌≡◌, refl};
ghost use Rattle.zk_records.specs.Records.{watches_ask, add_watch_ask, watches_ask_of, add_watch_ask_of};

use crate::fields::{of, pairs};
use crate::fields_of;
use zk_jute::{Ends, Output, Record, Spell, Text, TextRef, Written};

/// Names watches of a node: `CheckWatchesRequest` and `RemoveWatchesRequest`.
#[derive(Debug, Drop)]
pub struct WatchesAskOf<T> {
    /// The node's path.
    pub path: T,
    /// `type` in jute: 1 children, 2 data, 3 any, 4 persistent, 5 persistent and recursive.
    pub kind: i32,
}

/// An owned `WatchesAsk`.
pub type WatchesAsk = WatchesAskOf<Text>;

/// A borrowed `WatchesAsk`.
pub type WatchesAskRef<'a> = WatchesAskOf<TextRef<'a>>;

impl Spell for WatchesAsk {
    ghost items = { watches_ask.items };

    fn put<O: Output>(&self, out: &mut O) -> Result<(), O::Error> {
        fields_of!(WatchesAsk, pairs, self).put(out)
    }
}

impl<T: Ends> Record for WatchesAskOf<T> {
    type Row = (T, i32);

    ghost record = { watches_ask_of T.wired };

    fn of(row: Self::Row) -> Self {
        fields_of!(WatchesAsk, of, row, WatchesAskOf)
    }

    ghost in_order = { refl };
}

impl Written for WatchesAsk {
    ghost same = { refl };
}

/// Sets a watch that stays: `AddWatchRequest`.
#[derive(Debug, Drop)]
pub struct AddWatchAskOf<T> {
    /// The node's path.
    pub path: T,
    /// 0 for a persistent watch, 1 for a persistent and recursive one.
    pub mode: i32,
}

/// An owned `AddWatchAsk`.
pub type AddWatchAsk = AddWatchAskOf<Text>;

/// A borrowed `AddWatchAsk`.
pub type AddWatchAskRef<'a> = AddWatchAskOf<TextRef<'a>>;

impl Spell for AddWatchAsk {
    ghost items = { add_watch_ask.items };

    fn put<O: Output>(&self, out: &mut O) -> Result<(), O::Error> {
        fields_of!(AddWatchAsk, pairs, self).put(out)
    }
}

impl<T: Ends> Record for AddWatchAskOf<T> {
    type Row = (T, i32);

    ghost record = { add_watch_ask_of T.wired };

    fn of(row: Self::Row) -> Self {
        fields_of!(AddWatchAsk, of, row, AddWatchAskOf)
    }

    ghost in_order = { refl };
}

impl Written for AddWatchAsk {
    ghost same = { refl };
}

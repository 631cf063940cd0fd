//! The body of an event, by which a server reports a change: `WatcherEvent` of zookeeper.jute.
ghost use Rattle.std.specs.Prelude.{◌≡◌, refl};
ghost use Rattle.zk_records.specs.Records.{watcher_event, watcher_event_of};

use crate::fields::{of, pairs};
use crate::fields_of;
use zk_jute::{Ends, Output, Record, Spell, Text, TextRef, Written};

/// A change that a watch saw: `WatcherEvent`.
#[derive(Debug, Drop)]
pub struct WatcherEventOf<T> {
    /// What changed: a number of `Watcher.Event.EventType`; `type` in jute.
    pub kind: i32,
    /// The session's state: a number of `Watcher.Event.KeeperState`.
    pub state: i32,
    /// The path of the node that changed.
    pub path: T,
}

/// An owned `WatcherEvent`.
pub type WatcherEvent = WatcherEventOf<Text>;

/// A borrowed `WatcherEvent`.
pub type WatcherEventRef<'a> = WatcherEventOf<TextRef<'a>>;

impl Spell for WatcherEvent {
    ghost items = { watcher_event.items };

    fn put<O: Output>(&self, out: &mut O) -> Result<(), O::Error> {
        fields_of!(WatcherEvent, pairs, self).put(out)
    }
}

impl<T: Ends> Record for WatcherEventOf<T> {
    type Row = (i32, (i32, T));

    ghost record = { watcher_event_of T.wired };

    fn of(row: Self::Row) -> Self {
        fields_of!(WatcherEvent, of, row, WatcherEventOf)
    }

    ghost in_order = { refl };
}

impl Written for WatcherEvent {
    ghost same = { refl };
}

//! The body of a request that changes the servers of an ensemble: `ReconfigRequest` of zookeeper.jute.
ghost use Rattle.std.specs.Prelude.{◌≡◌, refl};
ghost use Rattle.zk_records.specs.Records.{reconfig_ask, reconfig_ask_of};

use crate::fields::{of, pairs};
use crate::fields_of;
use zk_jute::{Ends, Output, Record, Spell, Text, TextRef, Written};

/// Changes the servers of an ensemble: `ReconfigRequest`.
#[derive(Debug, Drop)]
pub struct ReconfigAskOf<T> {
    /// The servers that join; `joiningServers` in jute.
    pub joining: T,
    /// The servers that leave; `leavingServers` in jute.
    pub leaving: T,
    /// All servers, where the others are null; `newMembers` in jute.
    pub members: T,
    /// The configuration that is changed; `curConfigId` in jute.
    pub config: i64,
}

/// An owned `ReconfigAsk`.
pub type ReconfigAsk = ReconfigAskOf<Text>;

/// A borrowed `ReconfigAsk`.
pub type ReconfigAskRef<'a> = ReconfigAskOf<TextRef<'a>>;

impl Spell for ReconfigAsk {
    ghost items = { reconfig_ask.items };

    fn put<O: Output>(&self, out: &mut O) -> Result<(), O::Error> {
        fields_of!(ReconfigAsk, pairs, self).put(out)
    }
}

impl<T: Ends> Record for ReconfigAskOf<T> {
    type Row = (T, (T, (T, i64)));

    ghost record = { reconfig_ask_of T.wired };

    fn of(row: Self::Row) -> Self {
        fields_of!(ReconfigAsk, of, row, ReconfigAskOf)
    }

    ghost in_order = { refl };
}

impl Written for ReconfigAsk {
    ghost same = { refl };
}

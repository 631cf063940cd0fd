//! The bodies of requests that change a node, and of a check within a multi.
//!
//! They are `CreateRequest`, `CreateTTLRequest`, `DeleteRequest`, `SetDataRequest`, `SetACLRequest` and
//! `CheckVersionRequest` of zookeeper.jute.
ghost use Rattle.std.specs.Prelude.{◌≡◌, refl};
ghost use Rattle.zk_records.specs.Records.{create_ask, create_ttl_ask, create_ttl_ask_of, delete_ask, set_data_ask, set_acl_ask, check_ask, create_ask_of, delete_ask_of, set_data_ask_of, set_acl_ask_of, check_ask_of};

use crate::acl::{Acl, AclList};
use crate::fields::{of, pairs};
use crate::fields_of;
use zk_jute::{Blob, BlobRef, Ends, List, Output, Record, Spell, Text, TextRef, Written};

/// Creates a node: `CreateRequest`.
#[derive(Debug, Drop)]
pub struct CreateAskOf<T, B, A> {
    /// The path of the new node, as asked: a sequence number may come after it.
    pub path: T,
    /// The node's data; `data` in jute.
    pub blob: B,
    /// The access list of the new node.
    pub acl: A,
    /// 0 persistent, 1 ephemeral, 2 and 3 the same with a sequence number; any number is accepted.
    pub flags: i32,
}

/// An owned `CreateAsk`.
pub type CreateAsk = CreateAskOf<Text, Blob, List<Acl>>;

/// A borrowed `CreateAsk`.
pub type CreateAskRef<'a> = CreateAskOf<TextRef<'a>, BlobRef<'a>, AclList<'a>>;

impl Spell for CreateAsk {
    ghost items = { create_ask.items };

    fn put<O: Output>(&self, out: &mut O) -> Result<(), O::Error> {
        fields_of!(CreateAsk, pairs, self).put(out)
    }
}

impl<T: Ends, B: Ends, A: Ends> Record for CreateAskOf<T, B, A> {
    type Row = (T, (B, (A, i32)));

    ghost record = { create_ask_of T.wired B.wired A.wired };

    fn of(row: Self::Row) -> Self {
        fields_of!(CreateAsk, of, row, CreateAskOf)
    }

    ghost in_order = { refl };
}

impl Written for CreateAsk {
    ghost same = { refl };
}

/// Creates a node that a server deletes when it was unused for a time: `CreateTTLRequest`.
#[derive(Debug, Drop)]
pub struct CreateTtlAskOf<T, B, A> {
    /// The node's path.
    pub path: T,
    /// The data of the node.
    pub blob: B,
    /// The access rights of the node.
    pub acl: A,
    /// 5 persistent, 6 persistent and sequential.
    pub flags: i32,
    /// The time in milliseconds.
    pub ttl: i64,
}

/// An owned `CreateTtlAsk`.
pub type CreateTtlAsk = CreateTtlAskOf<Text, Blob, List<Acl>>;

/// A borrowed `CreateTtlAsk`.
pub type CreateTtlAskRef<'a> = CreateTtlAskOf<TextRef<'a>, BlobRef<'a>, AclList<'a>>;

impl Spell for CreateTtlAsk {
    ghost items = { create_ttl_ask.items };

    fn put<O: Output>(&self, out: &mut O) -> Result<(), O::Error> {
        fields_of!(CreateTtlAsk, pairs, self).put(out)
    }
}

impl<T: Ends, B: Ends, A: Ends> Record for CreateTtlAskOf<T, B, A> {
    type Row = (T, (B, (A, (i32, i64))));

    ghost record = { create_ttl_ask_of T.wired B.wired A.wired };

    fn of(row: Self::Row) -> Self {
        fields_of!(CreateTtlAsk, of, row, CreateTtlAskOf)
    }

    ghost in_order = { refl };
}

impl Written for CreateTtlAsk {
    ghost same = { refl };
}

/// Deletes a node: `DeleteRequest`.
#[derive(Debug, Drop)]
pub struct DeleteAskOf<T> {
    /// The node's path.
    pub path: T,
    /// The version that the data must have, -1 for any.
    pub version: i32,
}

/// An owned `DeleteAsk`.
pub type DeleteAsk = DeleteAskOf<Text>;

/// A borrowed `DeleteAsk`.
pub type DeleteAskRef<'a> = DeleteAskOf<TextRef<'a>>;

impl Spell for DeleteAsk {
    ghost items = { delete_ask.items };

    fn put<O: Output>(&self, out: &mut O) -> Result<(), O::Error> {
        fields_of!(DeleteAsk, pairs, self).put(out)
    }
}

impl<T: Ends> Record for DeleteAskOf<T> {
    type Row = (T, i32);

    ghost record = { delete_ask_of T.wired };

    fn of(row: Self::Row) -> Self {
        fields_of!(DeleteAsk, of, row, DeleteAskOf)
    }

    ghost in_order = { refl };
}

impl Written for DeleteAsk {
    ghost same = { refl };
}

/// Sets a node's data: `SetDataRequest`.
#[derive(Debug, Drop)]
pub struct SetDataAskOf<T, B> {
    /// The node's path.
    pub path: T,
    /// The new data; `data` in jute.
    pub blob: B,
    /// The version that the data must have, -1 for any.
    pub version: i32,
}

/// An owned `SetDataAsk`.
pub type SetDataAsk = SetDataAskOf<Text, Blob>;

/// A borrowed `SetDataAsk`.
pub type SetDataAskRef<'a> = SetDataAskOf<TextRef<'a>, BlobRef<'a>>;

impl Spell for SetDataAsk {
    ghost items = { set_data_ask.items };

    fn put<O: Output>(&self, out: &mut O) -> Result<(), O::Error> {
        fields_of!(SetDataAsk, pairs, self).put(out)
    }
}

impl<T: Ends, B: Ends> Record for SetDataAskOf<T, B> {
    type Row = (T, (B, i32));

    ghost record = { set_data_ask_of T.wired B.wired };

    fn of(row: Self::Row) -> Self {
        fields_of!(SetDataAsk, of, row, SetDataAskOf)
    }

    ghost in_order = { refl };
}

impl Written for SetDataAsk {
    ghost same = { refl };
}

/// Sets a node's access list: `SetACLRequest`.
#[derive(Debug, Drop)]
pub struct SetAclAskOf<T, A> {
    /// The node's path.
    pub path: T,
    /// The new access list.
    pub acl: A,
    /// The version that the access list must have, -1 for any.
    pub version: i32,
}

/// An owned `SetAclAsk`.
pub type SetAclAsk = SetAclAskOf<Text, List<Acl>>;

/// A borrowed `SetAclAsk`.
pub type SetAclAskRef<'a> = SetAclAskOf<TextRef<'a>, AclList<'a>>;

impl Spell for SetAclAsk {
    ghost items = { set_acl_ask.items };

    fn put<O: Output>(&self, out: &mut O) -> Result<(), O::Error> {
        fields_of!(SetAclAsk, pairs, self).put(out)
    }
}

impl<T: Ends, A: Ends> Record for SetAclAskOf<T, A> {
    type Row = (T, (A, i32));

    ghost record = { set_acl_ask_of T.wired A.wired };

    fn of(row: Self::Row) -> Self {
        fields_of!(SetAclAsk, of, row, SetAclAskOf)
    }

    ghost in_order = { refl };
}

impl Written for SetAclAsk {
    ghost same = { refl };
}

/// Checks a node's version, within a multi: `CheckVersionRequest`.
#[derive(Debug, Drop)]
pub struct CheckAskOf<T> {
    /// The node's path.
    pub path: T,
    /// The version that the data must have, -1 for any.
    pub version: i32,
}

/// An owned `CheckAsk`.
pub type CheckAsk = CheckAskOf<Text>;

/// A borrowed `CheckAsk`.
pub type CheckAskRef<'a> = CheckAskOf<TextRef<'a>>;

impl Spell for CheckAsk {
    ghost items = { check_ask.items };

    fn put<O: Output>(&self, out: &mut O) -> Result<(), O::Error> {
        fields_of!(CheckAsk, pairs, self).put(out)
    }
}

impl<T: Ends> Record for CheckAskOf<T> {
    type Row = (T, i32);

    ghost record = { check_ask_of T.wired };

    fn of(row: Self::Row) -> Self {
        fields_of!(CheckAsk, of, row, CheckAskOf)
    }

    ghost in_order = { refl };
}

impl Written for CheckAsk {
    ghost same = { refl };
}

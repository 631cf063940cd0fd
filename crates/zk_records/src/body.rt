//! The bodies of replies that have more than one field.
//!
//! They are `GetDataResponse`, `GetACLResponse`, `GetChildren2Response` and `Create2Response` of zookeeper.jute.
ghost use Rattle.std.specs.Prelude.{◌≡◌, refl};
ghost use Rattle.zk_records.specs.Records.{data_body, acl_body, children_body, create_body, data_body_of, acl_body_of, children_body_of, create_body_of};

use crate::acl::{Acl, AclList};
use crate::fields::{of, pairs};
use crate::fields_of;
use crate::stat::Stat;
use zk_jute::{Blob, BlobRef, Ends, List, Output, Record, Spell, Text, TextList, TextRef, Written};

/// A node's data, and its `Stat`: `GetDataResponse`.
#[derive(Debug, Drop)]
pub struct DataBodyOf<B> {
    /// The node's data; `data` in jute.
    pub blob: B,
    /// What is known of the node.
    pub stat: Stat,
}

/// An owned `DataBody`.
pub type DataBody = DataBodyOf<Blob>;

/// A borrowed `DataBody`.
pub type DataBodyRef<'a> = DataBodyOf<BlobRef<'a>>;

impl Spell for DataBody {
    ghost items = { data_body.items };

    fn put<O: Output>(&self, out: &mut O) -> Result<(), O::Error> {
        fields_of!(DataBody, pairs, self).put(out)
    }
}

impl<B: Ends> Record for DataBodyOf<B> {
    type Row = (B, Stat);

    ghost record = { data_body_of B.wired };

    fn of(row: Self::Row) -> Self {
        fields_of!(DataBody, of, row, DataBodyOf)
    }

    ghost in_order = { refl };
}

impl Written for DataBody {
    ghost same = { refl };
}

/// A node's access list, and its `Stat`: `GetACLResponse`.
#[derive(Debug, Drop)]
pub struct AclBodyOf<A> {
    /// The access list.
    pub acl: A,
    /// What is known of the node.
    pub stat: Stat,
}

/// An owned `AclBody`.
pub type AclBody = AclBodyOf<List<Acl>>;

/// A borrowed `AclBody`.
pub type AclBodyRef<'a> = AclBodyOf<AclList<'a>>;

impl Spell for AclBody {
    ghost items = { acl_body.items };

    fn put<O: Output>(&self, out: &mut O) -> Result<(), O::Error> {
        fields_of!(AclBody, pairs, self).put(out)
    }
}

impl<A: Ends> Record for AclBodyOf<A> {
    type Row = (A, Stat);

    ghost record = { acl_body_of A.wired };

    fn of(row: Self::Row) -> Self {
        fields_of!(AclBody, of, row, AclBodyOf)
    }

    ghost in_order = { refl };
}

impl Written for AclBody {
    ghost same = { refl };
}

/// The names of a node's children, and its `Stat`: `GetChildren2Response`.
#[derive(Debug, Drop)]
pub struct ChildrenBodyOf<L> {
    /// The children's names, without the path; `children` in jute.
    pub names: L,
    /// What is known of the node.
    pub stat: Stat,
}

/// An owned `ChildrenBody`.
pub type ChildrenBody = ChildrenBodyOf<List<Text>>;

/// A borrowed `ChildrenBody`.
pub type ChildrenBodyRef<'a> = ChildrenBodyOf<TextList<'a>>;

impl Spell for ChildrenBody {
    ghost items = { children_body.items };

    fn put<O: Output>(&self, out: &mut O) -> Result<(), O::Error> {
        fields_of!(ChildrenBody, pairs, self).put(out)
    }
}

impl<L: Ends> Record for ChildrenBodyOf<L> {
    type Row = (L, Stat);

    ghost record = { children_body_of L.wired };

    fn of(row: Self::Row) -> Self {
        fields_of!(ChildrenBody, of, row, ChildrenBodyOf)
    }

    ghost in_order = { refl };
}

impl Written for ChildrenBody {
    ghost same = { refl };
}

/// A new node's path, and its `Stat`: `Create2Response`.
#[derive(Debug, Drop)]
pub struct CreateBodyOf<T> {
    /// The path of the new node, a sequence number included.
    pub path: T,
    /// What is known of the node.
    pub stat: Stat,
}

/// An owned `CreateBody`.
pub type CreateBody = CreateBodyOf<Text>;

/// A borrowed `CreateBody`.
pub type CreateBodyRef<'a> = CreateBodyOf<TextRef<'a>>;

impl Spell for CreateBody {
    ghost items = { create_body.items };

    fn put<O: Output>(&self, out: &mut O) -> Result<(), O::Error> {
        fields_of!(CreateBody, pairs, self).put(out)
    }
}

impl<T: Ends> Record for CreateBodyOf<T> {
    type Row = (T, Stat);

    ghost record = { create_body_of T.wired };

    fn of(row: Self::Row) -> Self {
        fields_of!(CreateBody, of, row, CreateBodyOf)
    }

    ghost in_order = { refl };
}

impl Written for CreateBody {
    ghost same = { refl };
}

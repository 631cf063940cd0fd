//! `fields_of!`: the fields of each record, and the macros that go over them.

/// `fields_of!(CreateAsk, then, with)` is `then!(with: path PATH text, ..)`: the fields of the record in the order of
/// zookeeper.jute, each by its name here, its name in jute (a constant of `zk_fields`, `NONE` for a record within this
/// one) and its kind.
#[macro_export]
macro_rules! fields_of {
    (Id, $then:ident, $($with:tt)*) => { $then!($($with)*: scheme SCHEME text, ident ID text) };
    (Acl, $then:ident, $($with:tt)*) => { $then!($($with)*: perms PERMS int, who NONE id) };
    (Stat, $then:ident, $($with:tt)*) => {
        $then!($($with)*:
            czxid CZXID long, mzxid MZXID long, ctime CTIME long, mtime MTIME long, version VERSION int,
            cversion CVERSION int, aversion AVERSION int, ephemeral_owner EPHEMERAL_OWNER long,
            data_length DATA_LENGTH int, num_children NUM_CHILDREN int, pzxid PZXID long)
    };
    (ConnectRequest, $then:ident, $($with:tt)*) => {
        $then!($($with)*:
            protocol_version PROTOCOL_VERSION int, last_zxid_seen LAST_ZXID_SEEN long, time_out TIME_OUT int,
            session_id SESSION_ID long, passwd PASSWD blob)
    };
    (ConnectResponse, $then:ident, $($with:tt)*) => {
        $then!($($with)*:
            protocol_version PROTOCOL_VERSION int, time_out TIME_OUT int, session_id SESSION_ID long,
            passwd PASSWD blob)
    };
    (RequestHeader, $then:ident, $($with:tt)*) => { $then!($($with)*: xid XID int, kind TYPE int) };
    (ReplyHeader, $then:ident, $($with:tt)*) => { $then!($($with)*: xid XID int, zxid ZXID long, err ERR int) };
    (MultiHeader, $then:ident, $($with:tt)*) => { $then!($($with)*: kind TYPE int, done DONE boolean, err ERR int) };
    (WatcherEvent, $then:ident, $($with:tt)*) => {
        $then!($($with)*: kind TYPE int, state STATE int, path PATH text)
    };
    (CreateAsk, $then:ident, $($with:tt)*) => {
        $then!($($with)*: path PATH text, blob DATA blob, acl ACL rights, flags FLAGS int)
    };
    (DeleteAsk, $then:ident, $($with:tt)*) => { $then!($($with)*: path PATH text, version VERSION int) };
    (SetDataAsk, $then:ident, $($with:tt)*) => {
        $then!($($with)*: path PATH text, blob DATA blob, version VERSION int)
    };
    (SetAclAsk, $then:ident, $($with:tt)*) => {
        $then!($($with)*: path PATH text, acl ACL rights, version VERSION int)
    };
    (CheckAsk, $then:ident, $($with:tt)*) => { $then!($($with)*: path PATH text, version VERSION int) };
    (WatchAsk, $then:ident, $($with:tt)*) => { $then!($($with)*: path PATH text, watch WATCH boolean) };
    (PathAsk, $then:ident, $($with:tt)*) => { $then!($($with)*: path PATH text) };
    (AuthAsk, $then:ident, $($with:tt)*) => {
        $then!($($with)*: kind TYPE int, scheme SCHEME text, auth AUTH blob)
    };
    (SetWatchesAsk, $then:ident, $($with:tt)*) => {
        $then!($($with)*:
            zxid ZXID long, data_watches DATA_WATCHES texts, exist_watches EXIST_WATCHES texts,
            child_watches CHILD_WATCHES texts)
    };
    (CreateTtlAsk, $then:ident, $($with:tt)*) => {
        $then!($($with)*: path PATH text, blob DATA blob, acl ACL rights, flags FLAGS int, ttl TTL long)
    };
    (WatchesAsk, $then:ident, $($with:tt)*) => { $then!($($with)*: path PATH text, kind TYPE int) };
    (AddWatchAsk, $then:ident, $($with:tt)*) => { $then!($($with)*: path PATH text, mode MODE int) };
    (ReconfigAsk, $then:ident, $($with:tt)*) => {
        $then!($($with)*:
            joining JOINING text, leaving LEAVING text, members MEMBERS text,
            config CONFIG long)
    };
    (DataBody, $then:ident, $($with:tt)*) => { $then!($($with)*: blob DATA blob, stat NONE stat) };
    (AclBody, $then:ident, $($with:tt)*) => { $then!($($with)*: acl ACL rights, stat NONE stat) };
    (ChildrenBody, $then:ident, $($with:tt)*) => { $then!($($with)*: names CHILDREN texts, stat NONE stat) };
    (CreateBody, $then:ident, $($with:tt)*) => { $then!($($with)*: path PATH text, stat NONE stat) };
}

/// The owned type of a field by its kind.
#[macro_export]
macro_rules! owned {
    (int) => { i32 };
    (long) => { i64 };
    (boolean) => { bool };
    (stat) => { $crate::Stat };
    (text) => { zk_jute::Text };
    (blob) => { zk_jute::Blob };
    (texts) => { zk_jute::List<zk_jute::Text> };
    (rights) => { zk_jute::List<$crate::Acl> };
    (id) => { $crate::Id };
}

/// The type of a field by its kind, where it is borrowed.
#[macro_export]
macro_rules! borrowed {
    (text) => { zk_jute::TextRef<'_> };
    (blob) => { zk_jute::BlobRef<'_> };
    (texts) => { zk_jute::TextList<'_> };
    (rights) => { $crate::AclList<'_> };
    (id) => { $crate::IdRef<'_> };
    ($number:ident) => { $crate::owned!($number) };
}

/// `pairs!(self: a A int, b B text, c C blob)` is `(&self.a, (&self.b, &self.c))`, and `pairs!(let: ..)` the pattern
/// `(a, (b, c))`.
macro_rules! pairs {
    (let: $last:ident $name:ident $kind:ident) => { $last };
    (let: $first:ident $name:ident $kind:ident, $($rest:tt)+) => { ($first, pairs!(let: $($rest)+)) };
    ($record:ident: $last:ident $name:ident $kind:ident) => { &$record.$last };
    ($record:ident: $first:ident $name:ident $kind:ident, $($rest:tt)+) => {
        (&$record.$first, pairs!($record: $($rest)+))
    };
}

/// The body of `of` for the record `R`: `fields_of!(R, of, row, R)`.
macro_rules! of {
    ($row:ident, $record:ident: $($field:ident $name:ident $kind:ident),+) => {{
        let pairs!(let: $($field $name $kind),+) = $row;
        $record { $($field),+ }
    }};
}

/// The body of `own`: `fields_of!(R, own, self, alloc, R)`.
macro_rules! own {
    ($record:ident, $alloc:ident, $owned:ident: $($field:ident $name:ident $kind:ident),+) => {
        Ok($owned { $($field: $record.$field.own($alloc)?),+ })
    };
}

pub(crate) use of;
pub(crate) use own;
pub(crate) use pairs;

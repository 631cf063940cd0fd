//! The names of fields, by number: those of zookeeper.jute (`ZK_NAME_PATH` and so on in the header for C).

/// No name: what a multi's header has.
pub const NONE: u16 = 0;

pub const PATH: u16 = 1;

pub const DATA: u16 = 2;

pub const ACL: u16 = 3;

pub const FLAGS: u16 = 4;

pub const VERSION: u16 = 5;

pub const WATCH: u16 = 6;

pub const PERMS: u16 = 7;

pub const SCHEME: u16 = 8;

pub const ID: u16 = 9;

pub const TYPE: u16 = 10;

pub const STATE: u16 = 11;

pub const AUTH: u16 = 12;

pub const CZXID: u16 = 13;

pub const MZXID: u16 = 14;

pub const CTIME: u16 = 15;

pub const MTIME: u16 = 16;

pub const CVERSION: u16 = 17;

pub const AVERSION: u16 = 18;

pub const EPHEMERAL_OWNER: u16 = 19;

pub const DATA_LENGTH: u16 = 20;

pub const NUM_CHILDREN: u16 = 21;

pub const PZXID: u16 = 22;

pub const CHILDREN: u16 = 23;

pub const ZXID: u16 = 24;

pub const DATA_WATCHES: u16 = 25;

pub const EXIST_WATCHES: u16 = 26;

pub const CHILD_WATCHES: u16 = 27;

pub const PROTOCOL_VERSION: u16 = 28;

pub const LAST_ZXID_SEEN: u16 = 29;

pub const TIME_OUT: u16 = 30;

pub const SESSION_ID: u16 = 31;

pub const PASSWD: u16 = 32;

pub const READ_ONLY: u16 = 33;

pub const ERR: u16 = 34;

pub const TTL: u16 = 35;

pub const MODE: u16 = 36;

pub const COUNT: u16 = 37;

pub const JOINING: u16 = 38;

pub const LEAVING: u16 = 39;

pub const MEMBERS: u16 = 40;

pub const CONFIG: u16 = 41;

pub const CODE: u16 = 42;

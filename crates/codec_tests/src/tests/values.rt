//! Tests of values of jute and of records: each is read, shown in words, and written again.
use super::samples::{FLAGGED, VALUES, VECTORS};
use super::shared::{hex, is_all, keeps};
use std::alloc::{AllocError, Global};
use std::fmt::Debug;
use std::test::Fail;
use zk_jute::{Blob, ItemFault, List, Spell, Text, Wire, laws, read_flagged, reason_name};
use zk_records::{
    Acl, AclBody, AddWatchAsk, AuthAsk, CheckAsk, ChildrenBody, ConnectRequest, ConnectResponse,
    CreateAsk, CreateBody, CreateTtlAsk, DataBody, DeleteAsk, Id, MultiHeader, PathAsk,
    ReconfigAsk, ReplyHeader, RequestHeader, SetAclAsk, SetDataAsk, SetWatchesAsk, Stat, WatchAsk,
    WatcherEvent, WatchesAsk,
};

/// The fault in words.
pub(crate) fn fault_told(alloc: Global, fault: &ItemFault) -> Result<String, AllocError> {
    format!(in alloc; "{} at {}", reason_name(&fault.reason), fault.place)
}

/// The words are those of the fault, if there is one.
pub(crate) fn is_told(
    alloc: Global,
    fault: &Option<ItemFault>,
    words: &str,
) -> Result<bool, AllocError> {
    match fault {
        Some(fault) => Ok(fault_told(alloc, fault)?.as_str() == words),
        None => Ok(true),
    }
}

/// The value is written as these bytes, and needs them all.
fn is_written<T: Spell>(alloc: Global, value: &T, bytes: &[u8]) -> Result<(), Fail> {
    let Some(size) = value.size_within(i32::MAX as u32) else {
        return Err("no size".into());
    };
    let less = value.size_within(size.saturating_sub(1));
    let mut out = Vec::new(alloc);
    value.write(&mut out)?;
    is_all(&out, (size, less), bytes)
}

/// The value in words, once it is written again as its bytes.
fn again<T: Spell + Debug>(alloc: Global, value: &T, bytes: &[u8]) -> Result<String, Fail> {
    is_written(alloc, value, bytes)?;
    Ok(format!(in alloc; "{value:?}")?)
}

/// The value of the bytes, which is written again as they are, or what is wrong with them, in words.
fn told<T: Wire + Debug>(alloc: Global, bytes: &[u8]) -> Result<String, Fail> {
    match &T::read(alloc, bytes, 0) {
        Ok((value, _end)) => again(alloc, value, bytes),
        Err(fault) => Ok(fault_told(alloc, fault)?),
    }
}

/// The same of a value of the type of this name; another name is sought by `$other`.
macro_rules! told_of {
    ($name:ident, $alloc:ident, $bytes:ident, $other:expr, $($type:ident)*) => {
        match $name {
            $(stringify!($type) => told::<$type>($alloc, $bytes),)*
            _ => $other,
        }
    };
}

fn change_told(alloc: Global, name: &str, bytes: &[u8]) -> Result<String, Fail> {
    told_of!(name, alloc, bytes, Err("no such type".into()),
        CreateAsk CreateTtlAsk DeleteAsk SetDataAsk SetAclAsk CheckAsk ReconfigAsk)
}

fn ask_told(alloc: Global, name: &str, bytes: &[u8]) -> Result<String, Fail> {
    told_of!(name, alloc, bytes, change_told(alloc, name, bytes),
        WatchAsk PathAsk AuthAsk SetWatchesAsk WatchesAsk AddWatchAsk)
}

fn body_told(alloc: Global, name: &str, bytes: &[u8]) -> Result<String, Fail> {
    told_of!(name, alloc, bytes, ask_told(alloc, name, bytes),
        CreateBody DataBody AclBody ChildrenBody WatcherEvent)
}

fn header_told(alloc: Global, name: &str, bytes: &[u8]) -> Result<String, Fail> {
    told_of!(name, alloc, bytes, body_told(alloc, name, bytes),
        RequestHeader ReplyHeader MultiHeader ConnectResponse ConnectRequest)
}

fn shared_told(alloc: Global, name: &str, bytes: &[u8]) -> Result<String, Fail> {
    told_of!(name, alloc, bytes, header_told(alloc, name, bytes), Id Acl Stat)
}

fn value_told(alloc: Global, name: &str, bytes: &[u8]) -> Result<String, Fail> {
    match name {
        "List" => told::<List<Text>>(alloc, bytes),
        _ => told_of!(name, alloc, bytes, shared_told(alloc, name, bytes), i32 i64 bool Text Blob),
    }
}

/// The value and the boolean of the bytes, or what is wrong with them, in words.
fn flagged_told<T: Wire + Debug>(alloc: Global, bytes: &[u8]) -> Result<String, Fail> {
    match &read_flagged::<T>(alloc, bytes) {
        Ok(read) => again(alloc, read, bytes),
        Err(fault) => Ok(fault_told(alloc, fault)?),
    }
}

/// The name and the bytes of what a row asks for.
pub(crate) fn named(alloc: Global, asked: &str) -> Result<(&str, Vec<u8>), Fail> {
    let (name, digits) = asked.split_once(' ').ok_or("no name")?;
    Ok((name, hex(alloc, digits)?))
}

fn row_told(alloc: Global, asked: &str) -> Result<String, Fail> {
    let (name, bytes) = named(alloc, asked)?;
    value_told(alloc, name, &bytes)
}

#[test]
fn values(rt: HostRuntime) -> Result<(), Fail> {
    keeps(&rt, rt.alloc(), VALUES, row_told)
}

#[test]
fn vectors(rt: HostRuntime) -> Result<(), Fail> {
    keeps(&rt, rt.alloc(), VECTORS, row_told)
}

fn flagged_row_told(alloc: Global, asked: &str) -> Result<String, Fail> {
    let (name, bytes) = named(alloc, asked)?;
    match name {
        "Text" => flagged_told::<Text>(alloc, &bytes),
        _ => flagged_told::<ConnectRequest>(alloc, &bytes),
    }
}

#[test]
fn flagged(rt: HostRuntime) -> Result<(), Fail> {
    keeps(&rt, rt.alloc(), FLAGGED, flagged_row_told)
}

#[test]
fn law(_rt: HostRuntime) {
    laws::<Text>();
}

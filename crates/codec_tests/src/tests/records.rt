//! Tests of the tables of operations, parts, errors, events and profiles.
use super::shared::{same, same_of};
use std::process::Abort;
use std::test::Fail;
use zk_records::{
    NEWEST, Profile, code_name, event_name, number_laws, op_name, op_number, op_of, part_name,
    part_number, part_of,
};

/// Numbers and the names of their operations, or none.
const OPERATIONS: &str = "\
1 create
2 delete
3 exists
4 getData
5 setData
6 getACL
7 setACL
8 getChildren
9 sync
11 ping
12 getChildren2
14 multi
15 create2
16 reconfig
17 checkWatches
18 removeWatches
19 createContainer
21 createTTL
100 auth
101 setWatches
103 getEphemerals
104 getAllChildrenNumber
106 addWatch
-11 closeSession
13 -
10 -
20 -
22 -
102 -
105 -
107 -
9998 -
0 -
-1 -
-10 -
9999 -";

/// A row's number; and again, with the row's name, if it has one.
fn parsed(row: &str) -> Result<(i32, Option<(i32, &str)>), Fail> {
    let (digits, name) = row.split_once(' ').ok_or("no row")?;
    let number: i32 = digits.parse()?;
    match name {
        "-" => Ok((number, None)),
        _ => Ok((number, Some((number, name)))),
    }
}

/// The operation's number and name.
fn op_told(profile: Profile, number: i32) -> Option<(i32, &'static str)> {
    let op = op_of(profile, number)?;
    Some((op_number(op), op_name(op)))
}

#[test]
fn operations(rt: HostRuntime) -> Result<(), Fail> {
    for row in OPERATIONS.lines() {
        let (number, want) = parsed(row)?;
        let since = match number {
            15 => 35,
            16..=21 | 103..=106 => 37,
            _ => 34,
        };
        for profile in [Profile::V34, Profile::V35, Profile::V37] {
            let of_profile = if since <= profile.number() {
                want
            } else {
                None
            };
            same_of(&rt, &op_told(profile, number), &of_profile, row);
        }
    }
    Ok(())
}

/// Numbers and the names of their parts' operations, or none.
const PARTS: &str = "\
1 create
2 delete
5 setData
13 check
0 -
-1 -
3 -
4 -
14 -";

/// The part's number and name.
fn part_told(number: i32) -> Option<(i32, &'static str)> {
    let op = part_of(number)?;
    Some((part_number(op), part_name(op)))
}

#[test]
fn operations_of_parts(rt: HostRuntime) -> Result<(), Fail> {
    for row in PARTS.lines() {
        let (number, want) = parsed(row)?;
        same_of(&rt, &part_told(number), &want, row);
    }
    Ok(())
}

/// Numbers and the names of their errors and events, or none.
const NAMES: &str = "\
error 0 OK
error -1 SYSTEMERROR
error -2 RUNTIMEINCONSISTENCY
error -3 DATAINCONSISTENCY
error -4 CONNECTIONLOSS
error -5 MARSHALLINGERROR
error -6 UNIMPLEMENTED
error -7 OPERATIONTIMEOUT
error -8 BADARGUMENTS
error -100 APIERROR
error -101 NONODE
error -102 NOAUTH
error -103 BADVERSION
error -108 NOCHILDRENFOREPHEMERALS
error -110 NODEEXISTS
error -111 NOTEMPTY
error -112 SESSIONEXPIRED
error -113 INVALIDCALLBACK
error -114 INVALIDACL
error -115 AUTHFAILED
error -118 SESSIONMOVED
error -119 NOTREADONLY
error 1 -
error -9 -
error -104 -
error -120 -
event -1 None
event 1 NodeCreated
event 2 NodeDeleted
event 3 NodeDataChanged
event 4 NodeChildrenChanged
event 0 -
event 5 -";

/// The name of a number of this kind.
fn name_told(kind: &str, number: i32) -> &'static str {
    let name = match kind {
        "error" => code_name(number),
        _ => event_name(number),
    };
    name.unwrap_or("-")
}

#[test]
fn names(rt: HostRuntime) -> Result<(), Fail> {
    for row in NAMES.lines() {
        let (kind, rest) = row.split_once(' ').ok_or("no row")?;
        let (digits, name) = rest.split_once(' ').ok_or("no number")?;
        same_of(&rt, &name_told(kind, digits.parse()?), &name, row);
    }
    Ok(())
}

#[test]
fn profiles(rt: HostRuntime) {
    for (number, profile) in [(34, Profile::V34), (35, Profile::V35), (37, NEWEST)] {
        let told = (Profile::of_number(number), profile.number());
        same(&rt, &told, &(Some(profile), number));
    }
    for number in [0, 3, 33, 36, 38, 340, u32::MAX] {
        same(&rt, &Profile::of_number(number), &None);
    }
}

#[test]
fn law(_rt: HostRuntime) {
    number_laws();
}

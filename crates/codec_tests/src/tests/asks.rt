//! Tests of client payloads: a table of payloads, each read, judged in each way, and written again.
ghost use Rattle.std.specs.Prelude.{IfOk};
ghost use Rattle.zk_asks.specs.Frames.{MaySend};

use super::shared::{hex, is_all, keeps};
use super::values::{fault_told, is_told, named};
use super::waiting::Batch;
use std::alloc::Global;
use std::test::Fail;
use zk_asks::{
    Alone, Asked, ClientFrame, allowed, ask_laws, asked_laws, first_laws, form_laws, judge_ask,
    opening_laws, read_ask, read_first, scan_ask, scan_first, write_client,
};
use zk_jute::{ItemFault, Reason, Undecided};
use zk_records::{Op, PartOp, Profile};

/// Payloads, each after the profile that it is read under, or that it is the first; what each is, or what is wrong with it.
const PAYLOADS: &str =
    r#"first 000000000000000000000000000075300000000000000000000000100000000000000000000000000000000000 = Connect { hello: ConnectRequestOf { protocol_version: 0, last_zxid_seen: 0, time_out: 30000, session_id: 0, passwd: Full(Bytes { bytes: [0, 0, 0, 0, 0, 0, 0, 0, 0, 0, 0, 0, 0, 0, 0, 0] }) }, read_only: Some(false) }
first 0000000000000000000000000000753000000000000000000000001000000000000000000000000000000000 = Connect { hello: ConnectRequestOf { protocol_version: 0, last_zxid_seen: 0, time_out: 30000, session_id: 0, passwd: Full(Bytes { bytes: [0, 0, 0, 0, 0, 0, 0, 0, 0, 0, 0, 0, 0, 0, 0, 0] }) }, read_only: None }
first 000000000000000000000000000075300000000000000000000000100000000000000000000000000000000002 = BadBool at 44
first 00000000000000000000000000007530000000000000000000000010000000000000000000000000000000000000 = Trailing at 45
first 0000000000000000000000000000753000000000000000000000 = Short at 24
34 fffffff800000065000000000000000500000001000000022f6100000000ffffffff = Ask { xid: -8, ask: SetWatches(SetWatchesAskOf { zxid: 5, data_watches: Full(Items { items: [Full(Chars { text: "/a" })] }), exist_watches: Full(Items { items: [] }), child_watches: Null }) }
34 0000000500000065000000000000000500000001000000022f6100000000ffffffff = Ask { xid: 5, ask: SetWatches(SetWatchesAskOf { zxid: 5, data_watches: Full(Items { items: [Full(Chars { text: "/a" })] }), exist_watches: Full(Items { items: [] }), child_watches: Null }) }
34 fffffffc00000064000000000000000664696765737400000003613a62 = Ask { xid: -4, ask: Auth(AuthAskOf { kind: 0, scheme: Full(Chars { text: "digest" }), auth: Full(Bytes { bytes: [97, 58, 98] }) }) }
34 0000000100000003000000022f6101 = Ask { xid: 1, ask: Exists(WatchAskOf { path: Full(Chars { text: "/a" }), watch: true }) }
34 0000000100000001000000022f61ffffffff000000010000001f00000005776f726c6400000006616e796f6e6500000000 = Ask { xid: 1, ask: Create(CreateAskOf { path: Full(Chars { text: "/a" }), blob: Null, acl: Full(Items { items: [AclOf { perms: 31, who: IdOf { scheme: Full(Chars { text: "world" }), ident: Full(Chars { text: "anyone" }) } }] }), flags: 0 }) }
34 0000000100000002000000022f61ffffffff = Ask { xid: 1, ask: Delete(DeleteAskOf { path: Full(Chars { text: "/a" }), version: -1 }) }
34 0000000100000004000000022f6100 = Ask { xid: 1, ask: GetData(WatchAskOf { path: Full(Chars { text: "/a" }), watch: false }) }
34 0000000100000005000000022f610000000161ffffffff = Ask { xid: 1, ask: SetData(SetDataAskOf { path: Full(Chars { text: "/a" }), blob: Full(Bytes { bytes: [97] }), version: -1 }) }
34 0000000100000006000000022f61 = Ask { xid: 1, ask: GetAcl(PathAskOf { path: Full(Chars { text: "/a" }) }) }
34 0000000100000007000000022f61000000010000001f00000005776f726c6400000006616e796f6e65ffffffff = Ask { xid: 1, ask: SetAcl(SetAclAskOf { path: Full(Chars { text: "/a" }), acl: Full(Items { items: [AclOf { perms: 31, who: IdOf { scheme: Full(Chars { text: "world" }), ident: Full(Chars { text: "anyone" }) } }] }), version: -1 }) }
34 0000000100000008000000022f6100 = Ask { xid: 1, ask: GetChildren(WatchAskOf { path: Full(Chars { text: "/a" }), watch: false }) }
34 0000000100000009000000022f61 = Ask { xid: 1, ask: Sync(PathAskOf { path: Full(Chars { text: "/a" }) }) }
34 000000010000000c000000022f6101 = Ask { xid: 1, ask: GetChildren2(WatchAskOf { path: Full(Chars { text: "/a" }), watch: true }) }
34 000000010000000e0000000200ffffffff000000022f61ffffffffffffffff01ffffffff = Ask { xid: 1, ask: Multi(Items { items: [Delete(DeleteAskOf { path: Full(Chars { text: "/a" }), version: -1 })] }) }
34 fffffffe0000000b = Ask { xid: -2, ask: Ping }
34 00000007fffffff5 = Ask { xid: 7, ask: CloseSession }
34 000000010000000effffffff01ffffffff = Ask { xid: 1, ask: Multi(Items { items: [] }) }
34 000000010000000e0000000100ffffffff000000022f6100000000000000010000001f00000005776f726c6400000006616e796f6e65000000000000000d00ffffffff000000022f61000000030000000500ffffffff000000022f61000000016100000003ffffffff01ffffffff = Ask { xid: 1, ask: Multi(Items { items: [Create(CreateAskOf { path: Full(Chars { text: "/a" }), blob: Full(Bytes { bytes: [] }), acl: Full(Items { items: [AclOf { perms: 31, who: IdOf { scheme: Full(Chars { text: "world" }), ident: Full(Chars { text: "anyone" }) } }] }), flags: 0 }), Check(CheckAskOf { path: Full(Chars { text: "/a" }), version: 3 }), SetData(SetDataAskOf { path: Full(Chars { text: "/a" }), blob: Full(Bytes { bytes: [97] }), version: 3 })] }) }
35 000000010000000f000000022f61ffffffff000000010000001f00000005776f726c6400000006616e796f6e6500000000 = Ask { xid: 1, ask: Create2(CreateAskOf { path: Full(Chars { text: "/a" }), blob: Null, acl: Full(Items { items: [AclOf { perms: 31, who: IdOf { scheme: Full(Chars { text: "world" }), ident: Full(Chars { text: "anyone" }) } }] }), flags: 0 }) }
34 000000010000000f000000022f61ffffffff000000010000001f00000005776f726c6400000006616e796f6e6500000000 = UnknownOp at 4
34 ffffffff00000003000000022f6101 = XidOp at 4
34 fffffff800000003000000022f6101 = XidOp at 4
34 ffffffff0000000d000000022f6101 = UnknownOp at 4
34 0000000100000003000000022f6102 = BadBool at 14
34 0000000100000003000000022f610100 = Trailing at 15
34 000000010000000d000000022f61ffffffff = UnknownOp at 4
34 000000010000000b = XidOp at 4
34 0000000100000003000000022fc300 = BadText at 13
34 ffffffff0000 = Short at 4
34 000000010000000e0000000e00ffffffffffffffff01ffffffff = BadPart at 8
34 000000010000000e0000000e02 = BadBool at 12
34 000000010000000e0000000e00ff = Short at 13
34 000000010000000e0000000d00ffffffff000000022f610000 = Short at 23
35 000000010000000e0000000f00ffffffff = BadPart at 8
37 0000000100000010000000107365727665722e323d683a313a323b33ffffffff00000000ffffffffffffffff = Ask { xid: 1, ask: Reconfig(ReconfigAskOf { joining: Full(Chars { text: "server.2=h:1:2;3" }), leaving: Null, members: Full(Chars { text: "" }), config: -1 }) }
37 0000000100000010000000107365727665722e323d683a313a323b = Short at 8
37 0000000100000010000000107365727665722e323d683a313a323b33ffffff = Short at 28
37 0000000100000010000000107365727665722e323d683a313a323b33ffffffff000000 = Short at 32
37 0000000100000010000000107365727665722e323d683a313a323b33ffffffff00000000ffffffffffffff = Short at 36
37 0000000100000010000000107365727665722e323d683a313a323b33ffffffff00000000ffffffffffffffff00 = Trailing at 44
35 0000000100000010000000107365727665722e323d683a313a323b33ffffffff00000000ffffffffffffffff = UnknownOp at 4
37 fffffff800000010000000107365727665722e323d683a313a323b33ffffffff00000000ffffffffffffffff = XidOp at 4
37 0000000100000011000000022f6100000003 = Ask { xid: 1, ask: CheckWatches(WatchesAskOf { path: Full(Chars { text: "/a" }), kind: 3 }) }
37 0000000100000011000000022f = Short at 8
37 0000000100000011000000022f61000000 = Short at 14
37 0000000100000011000000022f610000000300 = Trailing at 18
35 0000000100000011000000022f6100000003 = UnknownOp at 4
37 fffffff800000011000000022f6100000003 = XidOp at 4
37 0000000100000012000000022f6180000000 = Ask { xid: 1, ask: RemoveWatches(WatchesAskOf { path: Full(Chars { text: "/a" }), kind: -2147483648 }) }
37 0000000100000012000000022f = Short at 8
37 0000000100000012000000022f61800000 = Short at 14
37 0000000100000012000000022f618000000000 = Trailing at 18
35 0000000100000012000000022f6180000000 = UnknownOp at 4
37 fffffff800000012000000022f6180000000 = XidOp at 4
37 0000000100000013000000022f61ffffffff000000010000001f00000005776f726c6400000006616e796f6e6500000004 = Ask { xid: 1, ask: CreateContainer(CreateAskOf { path: Full(Chars { text: "/a" }), blob: Null, acl: Full(Items { items: [AclOf { perms: 31, who: IdOf { scheme: Full(Chars { text: "world" }), ident: Full(Chars { text: "anyone" }) } }] }), flags: 4 }) }
37 0000000100000013000000022f = Short at 8
37 0000000100000013000000022f61ffffff = Short at 14
37 0000000100000013000000022f61ffffffff000000 = Short at 18
37 0000000100000013000000022f61ffffffff00000001000000 = Short at 22
37 0000000100000013000000022f61ffffffff000000010000001f00000005776f726c = Short at 26
37 0000000100000013000000022f61ffffffff000000010000001f00000005776f726c6400000006616e796f6e = Short at 35
37 0000000100000013000000022f61ffffffff000000010000001f00000005776f726c6400000006616e796f6e65000000 = Short at 45
37 0000000100000013000000022f61ffffffff000000010000001f00000005776f726c6400000006616e796f6e650000000400 = Trailing at 49
35 0000000100000013000000022f61ffffffff000000010000001f00000005776f726c6400000006616e796f6e6500000004 = UnknownOp at 4
37 fffffff800000013000000022f61ffffffff000000010000001f00000005776f726c6400000006616e796f6e6500000004 = XidOp at 4
37 0000000100000015000000022f6100000000000000010000001f00000005776f726c6400000006616e796f6e65000000057fffffffffffffff = Ask { xid: 1, ask: CreateTtl(CreateTtlAskOf { path: Full(Chars { text: "/a" }), blob: Full(Bytes { bytes: [] }), acl: Full(Items { items: [AclOf { perms: 31, who: IdOf { scheme: Full(Chars { text: "world" }), ident: Full(Chars { text: "anyone" }) } }] }), flags: 5, ttl: 9223372036854775807 }) }
37 0000000100000015000000022f = Short at 8
37 0000000100000015000000022f61000000 = Short at 14
37 0000000100000015000000022f6100000000000000 = Short at 18
37 0000000100000015000000022f610000000000000001000000 = Short at 22
37 0000000100000015000000022f6100000000000000010000001f00000005776f726c = Short at 26
37 0000000100000015000000022f6100000000000000010000001f00000005776f726c6400000006616e796f6e = Short at 35
37 0000000100000015000000022f6100000000000000010000001f00000005776f726c6400000006616e796f6e65000000 = Short at 45
37 0000000100000015000000022f6100000000000000010000001f00000005776f726c6400000006616e796f6e65000000057fffffffffffff = Short at 49
37 0000000100000015000000022f6100000000000000010000001f00000005776f726c6400000006616e796f6e65000000057fffffffffffffff00 = Trailing at 57
35 0000000100000015000000022f6100000000000000010000001f00000005776f726c6400000006616e796f6e65000000057fffffffffffffff = UnknownOp at 4
37 fffffff800000015000000022f6100000000000000010000001f00000005776f726c6400000006616e796f6e65000000057fffffffffffffff = XidOp at 4
37 0000000100000067ffffffff = Ask { xid: 1, ask: GetEphemerals(PathAskOf { path: Null }) }
37 0000000100000067ffffff = Short at 8
37 0000000100000067ffffffff00 = Trailing at 12
35 0000000100000067ffffffff = UnknownOp at 4
37 fffffff800000067ffffffff = XidOp at 4
37 0000000100000068000000012f = Ask { xid: 1, ask: GetAllChildrenNumber(PathAskOf { path: Full(Chars { text: "/" }) }) }
37 000000010000006800000001 = Short at 8
37 0000000100000068000000012f00 = Trailing at 13
35 0000000100000068000000012f = UnknownOp at 4
37 fffffff800000068000000012f = XidOp at 4
37 000000010000006a000000022f6100000001 = Ask { xid: 1, ask: AddWatch(AddWatchAskOf { path: Full(Chars { text: "/a" }), mode: 1 }) }
37 000000010000006a000000022f = Short at 8
37 000000010000006a000000022f61000000 = Short at 14
37 000000010000006a000000022f610000000100 = Trailing at 18
35 000000010000006a000000022f6100000001 = UnknownOp at 4
37 ffffffff0000006a000000022f6100000001 = XidOp at 4
37 fffffffe0000006a000000022f6100000001 = XidOp at 4
37 fffffffc0000006a000000022f6100000001 = XidOp at 4
37 fffffff80000006a000000022f6100000001 = XidOp at 4
37 000000010000001000000000fffffffe = BadLength at 12
37 000000010000001100000002c30000000001 = BadText at 12
37 0000000100000014000000022f61 = UnknownOp at 4
37 0000000100000016000000022f61 = UnknownOp at 4
37 0000000100000066000000022f61 = UnknownOp at 4
37 0000000100000069000000022f61 = UnknownOp at 4
37 000000010000006b000000022f61 = UnknownOp at 4
37 000000010000000d000000022f61 = UnknownOp at 4
37 000000010000000e0000000f00ffffffff = BadPart at 8
37 000000010000000e0000001300ffffffff = BadPart at 8
37 000000010000000e0000001500ffffffff = BadPart at 8"#;

/// The profile of this number.
fn profile_named(kind: &str) -> Profile {
    match kind {
        "34" => Profile::V34,
        "35" => Profile::V35,
        _ => Profile::V37,
    }
}

/// Why the payload is refused when it is scanned; `None` if it isn't.
fn scanned(kind: &str, payload: &[u8]) -> Option<ItemFault> {
    let profile = match kind {
        "first" => return scan_first(payload).err(),
        _ => profile_named(kind),
    };
    if payload.len() > 1_000 {
        return None;
    }
    scan_ask(profile, payload).err()
}

/// The frame is written as this payload, and needs all its bytes.
fn is_written(alloc: Global, frame: &ClientFrame, payload: &[u8]) -> Result<(), Fail>
    requires { MaySend frame.now }
{
    let Some(size) = frame.size_within(i32::MAX as u32) else {
        return Err("no size".into());
    };
    let less = frame.size_within(size.saturating_sub(1));
    let mut out = Vec::new(alloc);
    write_client(frame, &mut out)?;
    is_all(&out, (size, less), payload)
}

/// The frame in words, once it is written again as its payload.
fn frame_told(alloc: Global, frame: &ClientFrame, payload: &[u8]) -> Result<String, Fail>
    requires { MaySend frame.now }
{
    is_written(alloc, frame, payload)?;
    Ok(format!(in alloc; "{frame:?}")?)
}

/// What the payload is read as: as the first one, or under a profile.
fn read(alloc: Global, kind: &str, payload: &[u8]) -> Result<ClientFrame, ItemFault>
    ensures { IfOk result MaySend }
{
    match kind {
        "first" => read_first(alloc, payload),
        _ => read_ask(alloc, profile_named(kind), payload),
    }
}

/// What was read of the payload in words, or what is wrong with it.
fn answer_told(
    alloc: Global,
    answer: &Result<ClientFrame, ItemFault>,
    payload: &[u8],
) -> Result<String, Fail>
    requires { IfOk answer.now MaySend }
{
    match answer {
        Ok(frame) => frame_told(alloc, frame, payload),
        Err(fault) => Ok(fault_told(alloc, fault)?),
    }
}

/// The payload in words, as it is read.
fn read_told(alloc: Global, kind: &str, payload: &[u8]) -> Result<String, Fail> {
    let answer = read(alloc, kind, payload);
    answer_told(alloc, &answer, payload)
}

/// The payload in words; scanned it is refused for the same.
fn judged(alloc: Global, kind: &str, payload: &[u8]) -> Result<String, Fail> {
    let told = read_told(alloc, kind, payload)?;
    if !is_told(alloc, &scanned(kind, payload), &told)? {
        return Err("scanned otherwise".into());
    }
    Ok(told)
}

fn row_told(alloc: Global, asked: &str) -> Result<String, Fail> {
    let (kind, payload) = named(alloc, asked)?;
    judged(alloc, kind, &payload)
}

#[test]
fn payloads(rt: HostRuntime) -> Result<(), Fail> {
    keeps(&rt, rt.alloc(), PAYLOADS, row_told)
}

/// The xid of pings is a ping's, and the xid of events is no request's.
#[test]
fn xids_of_operations(rt: HostRuntime) {
    let pair = (allowed(-2, Op::Ping), allowed(-1, Op::Exists));
    assert!(rt; pair == (true, false));
}

/// A multi of a deletion and a check of `/a`.
const TWO: &str =
    "000000010000000e0000000200ffffffff000000022f61ffffffff0000000d00ffffffff000000022f6100000003ffffffff01ffffffff";

/// What `judge_ask` keeps of a request: its xid, its operation and the number of its parts.
fn outlined(payload: &[u8]) -> Option<(i32, Op, usize)> {
    let outline = judge_ask::<Undecided>(Profile::V34, payload).ok()?;
    Some((outline.xid, outline.op, outline.parts))
}

/// `judge_ask` decides, and reports the fault that is asked for: without its last byte `TWO` ends within its last header.
#[test]
fn outlines(rt: HostRuntime) -> Result<(), Fail> {
    let exists = outlined(b"\0\0\0\x01\0\0\0\x03\0\0\0\x02/a\x01");
    assert!(rt; exists == Some((1, Op::Exists, 0)));
    let two = hex(rt.alloc(), TWO)?;
    assert!(rt; outlined(&two) == Some((1, Op::Multi, 2)));
    let cut = &two[..two.len().saturating_sub(1)];
    assert!(rt; outlined(cut).is_none());
    let fault = judge_ask::<ItemFault>(Profile::V34, cut).err();
    assert!(rt; fault == Some(ItemFault::at(51, Reason::Short)));
    Ok(())
}

/// What a type says of a request, by the bound alone: one of the library, or one from outside of it.
fn part_of<T: Asked>(asked: &T) -> (Op, u32, Option<PartOp>) {
    (asked.op(), asked.parts(), asked.part(0))
}

#[test]
fn what_was_asked(rt: HostRuntime) {
    assert!(rt; part_of(&Alone { op: Op::Sync }) == (Op::Sync, 0, None));
    let delete = Some(PartOp::Delete);
    assert!(rt; part_of(&Batch {}) == (Op::Multi, 2, delete));
}

/// What is kept of a scanned request: its xid, its operation, and its parts.
fn scan_told(payload: &[u8]) -> Option<(i32, (Op, u32, Option<PartOp>))> {
    if payload.len() > 1_000 {
        return None;
    }
    match scan_ask(Profile::V34, payload) {
        Ok(scan) => Some((scan.xid(), part_of(&scan))),
        Err(_) => None,
    }
}

/// An exists, and a multi of one delete.
#[test]
fn what_was_scanned(rt: HostRuntime) {
    let exists = scan_told(b"\0\0\0\x07\0\0\0\x03\0\0\0\x02/a\x01");
    assert!(rt; exists == Some((7, (Op::Exists, 0, None))));
    let multi = scan_told(
        b"\0\0\0\x08\0\0\0\x0e\0\0\0\x02\0\xff\xff\xff\xff\0\0\0\x02/a\0\0\0\0\xff\xff\xff\xff\x01\xff\xff\xff\xff",
    );
    let delete = (Op::Multi, 1, Some(PartOp::Delete));
    assert!(rt; multi == Some((8, delete)));
}

#[test]
fn laws(_rt: HostRuntime) {
    asked_laws::<Alone>();
    asked_laws::<Batch>();
    first_laws();
    ask_laws();
    form_laws();
    opening_laws();
}

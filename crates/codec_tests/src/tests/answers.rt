//! Tests of server payloads: a table of payloads, each read, judged in each way, and written again.
use super::shared::{hex, is_all, keeps, same};
use super::values::{fault_told, is_told};
use std::alloc::Global;
use std::test::Fail;
use zk_answers::{
    Form, ServerFrame, ServerRef, borrow_event, borrow_reply, fits, form_of, judge_reply,
    read_connected, read_event, read_reply, reply_head, scan_connected, scan_event, scan_reply,
    write_server,
};
use zk_asks::{Ask, ClientFrame, read_ask};
use zk_jute::{ItemFault, Reason, Undecided};
use zk_records::{NEWEST, Op};

/// Payloads, each after the call that reads it and the request that it answers; what each is, or what is wrong with it.
const PAYLOADS: &str =
    r#"connected - 0000000000007530010000000000000100000010000102030405060708090a0b0c0d0e0f00 = Connected { hello: ConnectResponseOf { protocol_version: 0, time_out: 30000, session_id: 72057594037927937, passwd: Full(Bytes { bytes: [0, 1, 2, 3, 4, 5, 6, 7, 8, 9, 10, 11, 12, 13, 14, 15] }) }, read_only: Some(false) }
connected - 0000000000007530010000000000000100000010000102030405060708090a0b0c0d0e0f = Connected { hello: ConnectResponseOf { protocol_version: 0, time_out: 30000, session_id: 72057594037927937, passwd: Full(Bytes { bytes: [0, 1, 2, 3, 4, 5, 6, 7, 8, 9, 10, 11, 12, 13, 14, 15] }) }, read_only: None }
connected - 0000000000007530010000000000000100000010000102030405060708090a0b0c0d0e0f02 = BadBool at 36
connected - 0000000000007530010000000000000100000010000102030405060708090a0b0c0d0e0f0000 = Trailing at 37
event - ffffffffffffffffffffffff000000000000000300000003000000022f61 = Event { zxid: -1, event: WatcherEventOf { kind: 3, state: 3, path: Full(Chars { text: "/a" }) } }
event - ffffffffffffffffffffffff000000010000000300000003000000022f = EventErr at 12
reply 0000000100000001000000022f61ffffffffffffffff00000000 00000001000000000000000500000000000000022f61 = Answered(ReplyOf { xid: 1, zxid: 5, outcome: Done(Create { path: Full(Chars { text: "/a" }) }) })
reply 0000000100000002000000022f61ffffffff 00000001000000000000000500000000 = Answered(ReplyOf { xid: 1, zxid: 5, outcome: Done(Delete) })
reply 0000000100000006000000022f61 00000001000000000000000500000000000000010000001f00000005776f726c6400000006616e796f6e650000000000000004000000000000000400000000000003e800000000000003e8000000000000000000000000000000000000000000000003000000000000000000000004 = Answered(ReplyOf { xid: 1, zxid: 5, outcome: Done(GetAcl { acl: Full(Items { items: [AclOf { perms: 31, who: IdOf { scheme: Full(Chars { text: "world" }), ident: Full(Chars { text: "anyone" }) } }] }), stat: Stat { czxid: 4, mzxid: 4, ctime: 1000, mtime: 1000, version: 0, cversion: 0, aversion: 0, ephemeral_owner: 0, data_length: 3, num_children: 0, pzxid: 4 } }) })
reply 0000000100000008000000022f6100 0000000100000000000000050000000000000002000000022f6100000000 = Answered(ReplyOf { xid: 1, zxid: 5, outcome: Done(GetChildren { names: Full(Items { items: [Full(Chars { text: "/a" }), Full(Chars { text: "" })] }) }) })
reply 0000000100000009000000022f61 00000001000000000000000500000000000000022f61 = Answered(ReplyOf { xid: 1, zxid: 5, outcome: Done(Sync { path: Full(Chars { text: "/a" }) }) })
reply 000000010000000c000000022f6100 0000000100000000000000050000000000000001000000022f610000000000000004000000000000000400000000000003e800000000000003e8000000000000000000000000000000000000000000000003000000000000000000000004 = Answered(ReplyOf { xid: 1, zxid: 5, outcome: Done(GetChildren2 { names: Full(Items { items: [Full(Chars { text: "/a" })] }), stat: Stat { czxid: 4, mzxid: 4, ctime: 1000, mtime: 1000, version: 0, cversion: 0, aversion: 0, ephemeral_owner: 0, data_length: 3, num_children: 0, pzxid: 4 } }) })
reply 00000001fffffff5 00000001000000000000000500000000 = Answered(ReplyOf { xid: 1, zxid: 5, outcome: Done(CloseSession) })
reply fffffffe0000000b fffffffe000000000000000500000000 = Answered(ReplyOf { xid: -2, zxid: 5, outcome: Done(Ping) })
reply fffffffc0000006400000000ffffffffffffffff fffffffc000000000000000500000000 = Answered(ReplyOf { xid: -4, zxid: 5, outcome: Done(Auth) })
reply fffffff8000000650000000000000005ffffffffffffffffffffffff fffffff8000000000000000500000000 = Answered(ReplyOf { xid: -8, zxid: 5, outcome: Done(SetWatches) })
reply 000000010000000e0000000500ffffffff000000022f61ffffffffffffffff0000000d00ffffffff000000022f61ffffffffffffffff01ffffffff 000000010000000000000005000000000000000500000000000000000000000004000000000000000400000000000003e800000000000003e80000000000000000000000000000000000000000000000030000000000000000000000040000000d0000000000ffffffff01ffffffff = Answered(ReplyOf { xid: 1, zxid: 5, outcome: Done(Multi(Items { items: [DataSet(Stat { czxid: 4, mzxid: 4, ctime: 1000, mtime: 1000, version: 0, cversion: 0, aversion: 0, ephemeral_owner: 0, data_length: 3, num_children: 0, pzxid: 4 }), Checked] })) })
reply 0000000100000003000000022f6101 000000010000000000000005ffffff9b = Answered(ReplyOf { xid: 1, zxid: 5, outcome: Failed(Exists, Failure { number: -101 }) })
reply 0000000100000003000000022f6101 000000010000000000000005ffffff9b00 = Trailing at 16
reply 0000000100000003000000022f6101 000000010000000000000005ffffff = Short at 12
reply 0000000100000004000000022f6101 00000001000000000000000500000000ffffffff0000000000000004000000000000000400000000000003e800000000000003e8000000000000000000000000000000000000000000000003000000000000000000000004 = Answered(ReplyOf { xid: 1, zxid: 5, outcome: Done(GetData { blob: Null, stat: Stat { czxid: 4, mzxid: 4, ctime: 1000, mtime: 1000, version: 0, cversion: 0, aversion: 0, ephemeral_owner: 0, data_length: 3, num_children: 0, pzxid: 4 } }) })
reply 0000000100000003000000022f6101 000000010000000000000005000000000000000000000004000000000000000400000000000003e800000000000003e8000000000000000000000000000000000000000000000003000000000000000000000004 = Answered(ReplyOf { xid: 1, zxid: 5, outcome: Done(Exists { stat: Stat { czxid: 4, mzxid: 4, ctime: 1000, mtime: 1000, version: 0, cversion: 0, aversion: 0, ephemeral_owner: 0, data_length: 3, num_children: 0, pzxid: 4 } }) })
reply 0000000100000005000000022f61ffffffffffffffff 000000010000000000000005000000000000000000000004000000000000000400000000000003e800000000000003e8000000000000000000000000000000000000000000000003000000000000000000000004 = Answered(ReplyOf { xid: 1, zxid: 5, outcome: Done(SetData { stat: Stat { czxid: 4, mzxid: 4, ctime: 1000, mtime: 1000, version: 0, cversion: 0, aversion: 0, ephemeral_owner: 0, data_length: 3, num_children: 0, pzxid: 4 } }) })
reply 0000000100000007000000022f61ffffffffffffffff 000000010000000000000005000000000000000000000004000000000000000400000000000003e800000000000003e8000000000000000000000000000000000000000000000003000000000000000000000004 = Answered(ReplyOf { xid: 1, zxid: 5, outcome: Done(SetAcl { stat: Stat { czxid: 4, mzxid: 4, ctime: 1000, mtime: 1000, version: 0, cversion: 0, aversion: 0, ephemeral_owner: 0, data_length: 3, num_children: 0, pzxid: 4 } }) })
reply 0000000100000002000000022f61ffffffff 000000010000000000000005000000000000000000000004000000000000000400000000000003e800000000000003e8000000000000000000000000000000000000000000000003000000000000000000000004 = Trailing at 16
reply 0000000100000001000000022f61ffffffffffffffff00000000 000000010000000000000005000000000000000000000004000000000000000400000000000003e800000000000003e8000000000000000000000000000000000000000000000003000000000000000000000004 = Trailing at 20
reply 000000010000000f000000022f61ffffffffffffffff00000000 00000001000000000000000600000000000000022f610000000000000004000000000000000400000000000003e800000000000003e8000000000000000000000000000000000000000000000003000000000000000000000004 = Answered(ReplyOf { xid: 1, zxid: 6, outcome: Done(Create2 { path: Full(Chars { text: "/a" }), stat: Stat { czxid: 4, mzxid: 4, ctime: 1000, mtime: 1000, version: 0, cversion: 0, aversion: 0, ephemeral_owner: 0, data_length: 3, num_children: 0, pzxid: 4 } }) })
reply 0000000100000001000000022f61ffffffffffffffff00000000 00000001000000000000000600000000000000022f610000000000000004000000000000000400000000000003e800000000000003e8000000000000000000000000000000000000000000000003000000000000000000000004 = Trailing at 22
reply 000000010000000f000000022f61ffffffffffffffff00000000 00000001000000000000000600000000000000022f61 = Short at 22
reply 000000010000000effffffff01ffffffff 00000001000000000000000500000000ffffffff01ffffffff = Answered(ReplyOf { xid: 1, zxid: 5, outcome: Done(Multi(Items { items: [] })) })
reply 000000010000000e0000000100ffffffffffffffffffffffffffffffff000000000000000200ffffffffffffffffffffffffffffffff01ffffffff 00000001000000000000000600000000000000010000000000000000022f61000000020000000000ffffffff01ffffffff = Answered(ReplyOf { xid: 1, zxid: 6, outcome: Done(Multi(Items { items: [Created(Full(Chars { text: "/a" })), Deleted] })) })
reply 000000010000000e0000000100ffffffffffffffffffffffffffffffff000000000000000d00ffffffffffffffffffffffff0000000500ffffffffffffffffffffffffffffffffffffffff01ffffffff 00000001000000000000000500000000ffffffff000000000000000000ffffffff00ffffff99ffffff99ffffffff00fffffffefffffffeffffffff01ffffffff = Answered(ReplyOf { xid: 1, zxid: 5, outcome: Done(Multi(Items { items: [PartFailed(0), PartFailed(-103), PartFailed(-2)] })) })
reply 000000010000000e0000000200ffffffffffffffffffffffff0000000100ffffffffffffffffffffffffffffffff00000000ffffffff01ffffffff 00000001000000000000000600000000000000010000000000000000022f61000000020000000000ffffffff01ffffffff = BadPart at 16
reply 000000010000000e0000000100ffffffffffffffffffffffffffffffff00000000ffffffff01ffffffff 00000001000000000000000600000000000000010000000000000000022f61000000020000000000ffffffff01ffffffff = BadPart at 31
reply 000000010000000e0000000100ffffffffffffffffffffffffffffffff000000000000000200ffffffffffffffffffffffff0000000d00ffffffffffffffffffffffffffffffff01ffffffff 00000001000000000000000600000000000000010000000000000000022f61000000020000000000ffffffff01ffffffff = BadPart at 40
reply 000000010000000e0000000100ffffffffffffffffffffffffffffffff000000000000000d00ffffffffffffffffffffffff0000000500ffffffffffffffffffffffffffffffffffffffff01ffffffff 00000001000000000000000500000000ffffffff000000000000000000ffffffff00ffffff99ffffff99ffffffff01ffffffff = BadPart at 42
reply 000000010000000e0000000d00ffffffffffffffffffffffffffffffff01ffffffff 00000001000000000000000600000000ffffffff00ffffff99ffffff9bffffffff01ffffffff = BadPart at 16
reply 0000000100000010000000107365727665722e323d683a313a323b33ffffffff00000000ffffffffffffffff 0000000100000000000000050000000000000001760000000000000004000000000000000400000000000003e800000000000003e8000000000000000000000000000000000000000000000003000000000000000000000004 = Answered(ReplyOf { xid: 1, zxid: 5, outcome: Done(Reconfig { blob: Full(Bytes { bytes: [118] }), stat: Stat { czxid: 4, mzxid: 4, ctime: 1000, mtime: 1000, version: 0, cversion: 0, aversion: 0, ephemeral_owner: 0, data_length: 3, num_children: 0, pzxid: 4 } }) })
reply 0000000100000010000000107365727665722e323d683a313a323b33ffffffff00000000ffffffffffffffff 0000000100000000000000050000000000000001 = Short at 16
reply 0000000100000010000000107365727665722e323d683a313a323b33ffffffff00000000ffffffffffffffff 00000001000000000000000500000000000000017600000000000000 = Short at 21
reply 0000000100000010000000107365727665722e323d683a313a323b33ffffffff00000000ffffffffffffffff 000000010000000000000005000000000000000176000000000000000400000000000000 = Short at 29
reply 0000000100000010000000107365727665722e323d683a313a323b33ffffffff00000000ffffffffffffffff 0000000100000000000000050000000000000001760000000000000004000000000000000400000000000003e800000000000003e80000000000000000000000000000000000000000000000030000000000000000000000 = Short at 81
reply 0000000100000010000000107365727665722e323d683a313a323b33ffffffff00000000ffffffffffffffff 0000000100000000000000050000000000000001760000000000000004000000000000000400000000000003e800000000000003e800000000000000000000000000000000000000000000000300000000000000000000000400 = Trailing at 89
reply 0000000100000010000000107365727665722e323d683a313a323b33ffffffff00000000ffffffffffffffff 000000010000000000000005ffffff9b = Answered(ReplyOf { xid: 1, zxid: 5, outcome: Failed(Reconfig, Failure { number: -101 }) })
reply 0000000100000010000000107365727665722e323d683a313a323b33ffffffff00000000ffffffffffffffff 000000010000000000000005ffffff9bffffff9b = Trailing at 16
reply 0000000100000011000000022f6100000003 00000001000000000000000500000000 = Answered(ReplyOf { xid: 1, zxid: 5, outcome: Done(CheckWatches) })
reply 0000000100000011000000022f6100000003 0000000100000000000000050000000000 = Trailing at 16
reply 0000000100000011000000022f6100000003 000000010000000000000005ffffff9b = Answered(ReplyOf { xid: 1, zxid: 5, outcome: Failed(CheckWatches, Failure { number: -101 }) })
reply 0000000100000011000000022f6100000003 000000010000000000000005ffffff9bffffff9b = Trailing at 16
reply 0000000100000012000000022f6180000000 00000001000000000000000500000000 = Answered(ReplyOf { xid: 1, zxid: 5, outcome: Done(RemoveWatches) })
reply 0000000100000012000000022f6180000000 0000000100000000000000050000000000 = Trailing at 16
reply 0000000100000012000000022f6180000000 000000010000000000000005ffffff9b = Answered(ReplyOf { xid: 1, zxid: 5, outcome: Failed(RemoveWatches, Failure { number: -101 }) })
reply 0000000100000012000000022f6180000000 000000010000000000000005ffffff9bffffff9b = Trailing at 16
reply 0000000100000013000000022f61ffffffff000000010000001f00000005776f726c6400000006616e796f6e6500000004 00000001000000000000000500000000000000022f610000000000000004000000000000000400000000000003e800000000000003e8000000000000000000000000000000000000000000000003000000000000000000000004 = Answered(ReplyOf { xid: 1, zxid: 5, outcome: Done(CreateContainer { path: Full(Chars { text: "/a" }), stat: Stat { czxid: 4, mzxid: 4, ctime: 1000, mtime: 1000, version: 0, cversion: 0, aversion: 0, ephemeral_owner: 0, data_length: 3, num_children: 0, pzxid: 4 } }) })
reply 0000000100000013000000022f61ffffffff000000010000001f00000005776f726c6400000006616e796f6e6500000004 00000001000000000000000500000000000000022f = Short at 16
reply 0000000100000013000000022f61ffffffff000000010000001f00000005776f726c6400000006616e796f6e6500000004 00000001000000000000000500000000000000022f6100000000000000 = Short at 22
reply 0000000100000013000000022f61ffffffff000000010000001f00000005776f726c6400000006616e796f6e6500000004 00000001000000000000000500000000000000022f61000000000000000400000000000000 = Short at 30
reply 0000000100000013000000022f61ffffffff000000010000001f00000005776f726c6400000006616e796f6e6500000004 00000001000000000000000500000000000000022f610000000000000004000000000000000400000000000003e800000000000003e80000000000000000000000000000000000000000000000030000000000000000000000 = Short at 82
reply 0000000100000013000000022f61ffffffff000000010000001f00000005776f726c6400000006616e796f6e6500000004 00000001000000000000000500000000000000022f610000000000000004000000000000000400000000000003e800000000000003e800000000000000000000000000000000000000000000000300000000000000000000000400 = Trailing at 90
reply 0000000100000013000000022f61ffffffff000000010000001f00000005776f726c6400000006616e796f6e6500000004 000000010000000000000005ffffff9b = Answered(ReplyOf { xid: 1, zxid: 5, outcome: Failed(CreateContainer, Failure { number: -101 }) })
reply 0000000100000013000000022f61ffffffff000000010000001f00000005776f726c6400000006616e796f6e6500000004 000000010000000000000005ffffff9bffffff9b = Trailing at 16
reply 0000000100000015000000022f6100000000000000010000001f00000005776f726c6400000006616e796f6e65000000057fffffffffffffff 00000001000000000000000500000000000000022f610000000000000004000000000000000400000000000003e800000000000003e8000000000000000000000000000000000000000000000003000000000000000000000004 = Answered(ReplyOf { xid: 1, zxid: 5, outcome: Done(CreateTtl { path: Full(Chars { text: "/a" }), stat: Stat { czxid: 4, mzxid: 4, ctime: 1000, mtime: 1000, version: 0, cversion: 0, aversion: 0, ephemeral_owner: 0, data_length: 3, num_children: 0, pzxid: 4 } }) })
reply 0000000100000015000000022f6100000000000000010000001f00000005776f726c6400000006616e796f6e65000000057fffffffffffffff 00000001000000000000000500000000000000022f = Short at 16
reply 0000000100000015000000022f6100000000000000010000001f00000005776f726c6400000006616e796f6e65000000057fffffffffffffff 00000001000000000000000500000000000000022f6100000000000000 = Short at 22
reply 0000000100000015000000022f6100000000000000010000001f00000005776f726c6400000006616e796f6e65000000057fffffffffffffff 00000001000000000000000500000000000000022f61000000000000000400000000000000 = Short at 30
reply 0000000100000015000000022f6100000000000000010000001f00000005776f726c6400000006616e796f6e65000000057fffffffffffffff 00000001000000000000000500000000000000022f610000000000000004000000000000000400000000000003e800000000000003e80000000000000000000000000000000000000000000000030000000000000000000000 = Short at 82
reply 0000000100000015000000022f6100000000000000010000001f00000005776f726c6400000006616e796f6e65000000057fffffffffffffff 00000001000000000000000500000000000000022f610000000000000004000000000000000400000000000003e800000000000003e800000000000000000000000000000000000000000000000300000000000000000000000400 = Trailing at 90
reply 0000000100000015000000022f6100000000000000010000001f00000005776f726c6400000006616e796f6e65000000057fffffffffffffff 000000010000000000000005ffffff9b = Answered(ReplyOf { xid: 1, zxid: 5, outcome: Failed(CreateTtl, Failure { number: -101 }) })
reply 0000000100000015000000022f6100000000000000010000001f00000005776f726c6400000006616e796f6e65000000057fffffffffffffff 000000010000000000000005ffffff9bffffff9b = Trailing at 16
reply 0000000100000067ffffffff 0000000100000000000000050000000000000002000000022f61ffffffff = Answered(ReplyOf { xid: 1, zxid: 5, outcome: Done(GetEphemerals { names: Full(Items { items: [Full(Chars { text: "/a" }), Null] }) }) })
reply 0000000100000067ffffffff 00000001000000000000000500000000000000 = Short at 16
reply 0000000100000067ffffffff 0000000100000000000000050000000000000002000000022f = Short at 20
reply 0000000100000067ffffffff 0000000100000000000000050000000000000002000000022f61ffffff = Short at 26
reply 0000000100000067ffffffff 0000000100000000000000050000000000000002000000022f61ffffffff00 = Trailing at 30
reply 0000000100000067ffffffff 000000010000000000000005ffffff9b = Answered(ReplyOf { xid: 1, zxid: 5, outcome: Failed(GetEphemerals, Failure { number: -101 }) })
reply 0000000100000067ffffffff 000000010000000000000005ffffff9bffffff9b = Trailing at 16
reply 0000000100000068000000012f 000000010000000000000005000000007fffffff = Answered(ReplyOf { xid: 1, zxid: 5, outcome: Done(GetAllChildrenNumber { count: 2147483647 }) })
reply 0000000100000068000000012f 000000010000000000000005000000007fffff = Short at 16
reply 0000000100000068000000012f 000000010000000000000005000000007fffffff00 = Trailing at 20
reply 0000000100000068000000012f 000000010000000000000005ffffff9b = Answered(ReplyOf { xid: 1, zxid: 5, outcome: Failed(GetAllChildrenNumber, Failure { number: -101 }) })
reply 0000000100000068000000012f 000000010000000000000005ffffff9bffffff9b = Trailing at 16
reply 000000010000006a000000022f6100000001 00000001000000000000000500000000ffffffff = Answered(ReplyOf { xid: 1, zxid: 5, outcome: Done(AddWatch { code: -1 }) })
reply 000000010000006a000000022f6100000001 00000001000000000000000500000000ffffff = Short at 16
reply 000000010000006a000000022f6100000001 00000001000000000000000500000000ffffffff00 = Trailing at 20
reply 000000010000006a000000022f6100000001 000000010000000000000005ffffff9b = Answered(ReplyOf { xid: 1, zxid: 5, outcome: Failed(AddWatch, Failure { number: -101 }) })
reply 000000010000006a000000022f6100000001 000000010000000000000005ffffff9bffffff9b = Trailing at 16"#;

/// What of the request `ask` its reply is read by.
fn left(alloc: Global, ask: &Ask) -> Result<Form, Fail> {
    if ask.parts().len() > 9 {
        return Err("too many parts")?;
    }
    Ok(form_of(alloc, ask)?)
}

/// The same of what was read; it must be a request.
fn left_of(alloc: Global, read: &Result<ClientFrame, ItemFault>) -> Result<Form, Fail> {
    match read {
        Ok(ClientFrame::Ask { ask, .. }) => left(alloc, ask),
        _ => Err("no request".into()),
    }
}

/// The same of the request with this payload.
fn form(alloc: Global, request: &[u8]) -> Result<Form, Fail> {
    let read = read_ask(alloc, NEWEST, request);
    left_of(alloc, &read)
}

/// The reply to `form`, if the payload is no event.
fn reply(alloc: Global, form: &Form, payload: &[u8]) -> Result<ServerFrame, ItemFault> {
    let head = reply_head(payload)?;
    if head.xid == -1 {
        return Err(ItemFault::at(0, Reason::Unasked));
    }
    read_reply(alloc, form, payload)
}

/// The reply to `form`, borrowed, if the payload is no event.
fn reply_seen<'a>(form: &Form, payload: &'a [u8]) -> Result<ServerRef<'a>, ItemFault> {
    let head = reply_head(payload)?;
    if head.xid == -1 {
        return Err(ItemFault::at(0, Reason::Unasked));
    }
    scan_reply(form, payload)?;
    borrow_reply(form, payload)
}

/// Whether `judge_reply` finds that the payload is a reply to `form`.
fn is_front(form: &Form, payload: &[u8]) -> bool {
    let Ok(head) = reply_head(payload) else {
        return false;
    };
    if head.xid == -1 {
        return false;
    }
    judge_reply::<Form, Undecided>(form, &head, payload).is_ok()
}

/// The event, if the payload is one.
fn event(alloc: Global, payload: &[u8]) -> Result<ServerFrame, ItemFault> {
    let head = reply_head(payload)?;
    if head.xid != -1 {
        return Err(ItemFault::at(0, Reason::Unasked));
    }
    read_event(alloc, payload)
}

/// The event, borrowed, if the payload is one.
fn event_seen(payload: &[u8]) -> Result<ServerRef<'_>, ItemFault> {
    let head = reply_head(payload)?;
    if head.xid != -1 {
        return Err(ItemFault::at(0, Reason::Unasked));
    }
    scan_event(payload)?;
    borrow_event(payload)
}

/// Why the payload is refused when it is scanned; `None` if it isn't.
fn scanned(call: &str, form: &Form, payload: &[u8]) -> Option<ItemFault> {
    match call {
        "connected" => scan_connected(payload).err(),
        "event" => event_seen(payload).err(),
        _ => reply_seen(form, payload).err(),
    }
}

/// The frame is written as this payload, and needs all its bytes.
fn is_written(alloc: Global, frame: &ServerFrame, payload: &[u8]) -> Result<(), Fail> {
    let Some(size) = frame.size_within(i32::MAX as u32) else {
        return Err("no size".into());
    };
    let less = frame.size_within(size.saturating_sub(1));
    if let ServerFrame::Answered(reply) = frame {
        if reply.xid == -1 {
            return Err("the xid of events".into());
        }
    }
    let mut out = Vec::new(alloc);
    write_server(frame, &mut out)?;
    is_all(&out, (size, less), payload)
}

/// The frame in words, once it is written again as its payload.
fn frame_told(alloc: Global, frame: &ServerFrame, payload: &[u8]) -> Result<String, Fail> {
    is_written(alloc, frame, payload)?;
    Ok(format!(in alloc; "{frame:?}")?)
}

/// The frame that was read of the payload, or what is wrong with it, in words.
fn answer_told(
    alloc: Global,
    answer: &Result<ServerFrame, ItemFault>,
    payload: &[u8],
) -> Result<String, Fail> {
    match answer {
        Ok(frame) => frame_told(alloc, frame, payload),
        Err(fault) => Ok(fault_told(alloc, fault)?),
    }
}

/// What the call of this name reads of the payload, in words; a reply is one to `form`.
fn told(alloc: Global, call: &str, form: &Form, payload: &[u8]) -> Result<String, Fail> {
    let answer = match call {
        "connected" => read_connected(alloc, payload),
        "event" => event(alloc, payload),
        _ => reply(alloc, form, payload),
    };
    answer_told(alloc, &answer, payload)
}

/// The payload in words; borrowed, scanned and by `judge_reply` it is judged alike.
fn judged(alloc: Global, call: &str, form: &Form, payload: &[u8]) -> Result<String, Fail> {
    let told = told(alloc, call, form, payload)?;
    let fault = scanned(call, form, payload);
    if is_front(form, payload) != (fault.is_none() && call == "reply") {
        return Err("another judgement of judge_reply".into());
    }
    if !is_told(alloc, &fault, &told)? {
        return Err("scanned otherwise".into());
    }
    Ok(told)
}

/// A row's call, its request, and its payload.
fn parts(asked: &str) -> Option<(&str, &str, &str)> {
    let (call, rest) = asked.split_once(' ')?;
    let (request, digits) = rest.split_once(' ')?;
    Some((call, request, digits))
}

fn row_told(alloc: Global, asked: &str) -> Result<String, Fail> {
    let (call, request, digits) = parts(asked).ok_or("no row")?;
    let request = match request {
        "-" => "fffffffe0000000b",
        _ => request,
    };
    let form = form(alloc, &hex(alloc, request)?)?;
    judged(alloc, call, &form, &hex(alloc, digits)?)
}

#[test]
fn payloads(rt: HostRuntime) -> Result<(), Fail> {
    keeps(&rt, rt.alloc(), PAYLOADS, row_told)
}

/// A request without parts.
fn alone(alloc: Global, op: Op) -> Form {
    Form {
        op,
        parts: Vec::new(alloc),
    }
}

/// Whether the frame is a reply that fits a request of this operation.
fn is_fit(alloc: Global, frame: &ServerFrame, op: Op) -> Option<bool> {
    match frame {
        ServerFrame::Answered(answer) => Some(fits(&alone(alloc, op), answer)),
        _ => None,
    }
}

/// Whether the payload, read as the reply to an exists, fits a request of this operation.
fn fits_as(alloc: Global, payload: &[u8], op: Op) -> Result<Option<bool>, ItemFault> {
    let answer = reply(alloc, &alone(alloc, Op::Exists), payload)?;
    Ok(is_fit(alloc, &answer, op))
}

#[test]
fn replies_fit_their_requests(rt: HostRuntime) -> Result<(), Fail> {
    let no_node = hex(rt.alloc(), "000000010000000000000005ffffff9b")?;
    for (op, want) in [(Op::Exists, true), (Op::SetData, false)] {
        same(&rt, &fits_as(rt.alloc(), &no_node, op)?, &Some(want));
    }
    Ok(())
}

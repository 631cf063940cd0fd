//! Tables of values for the tests: a type, the bytes, and the value or what is wrong with them.

/// Values as ZooKeeper's own library for jute wrote them.
pub(crate) const VECTORS: &str =
    r#"Id 00000000ffffffff = IdOf { scheme: Full(Chars { text: "" }), ident: Null }
Id 000000012f0000000ed180d183d181d181d0bad0b8d0b9 = IdOf { scheme: Full(Chars { text: "/" }), ident: Full(Chars { text: "русский" }) }
Acl 495ae8ce0000000000000000 = AclOf { perms: 1230694606, who: IdOf { scheme: Full(Chars { text: "" }), ident: Full(Chars { text: "" }) } }
Acl 000075300000000461757468000000017e = AclOf { perms: 30000, who: IdOf { scheme: Full(Chars { text: "auth" }), ident: Full(Chars { text: "~" }) } }
Stat ffffffffffffffff55e763bf1d2d26657fffffffffffffff7bbf5e31f3185f6f2f8d6f820000000281a5abe70000018bcfe56800e68d5ee600000002abc9b05e66e32653 = Stat { czxid: -1, mzxid: 6190025885323437669, ctime: 9223372036854775807, mtime: 8916949355841740655, version: 797798274, cversion: 2, aversion: -2119848985, ephemeral_owner: 1700000000000, data_length: -426942746, num_children: 2, pzxid: -6068125103405455789 }
Stat 25c72231144c348f7fffffffffffffff0000018bcfe568007e563cc0d777424448d60e2ac7fe6434ffffff9b000000010000000019fd9632000000001e64814982fd4c5a = Stat { czxid: 2722182093958034575, mzxid: 9223372036854775807, ctime: 1700000000000, mtime: 9103530495722340932, version: 1221987882, cversion: -939629516, aversion: -101, ephemeral_owner: 4294967296, data_length: 436049458, num_children: 0, pzxid: 2190017471539137626 }
ConnectRequest 3926bb31000000010000000096b8ceab0000000100000000ffffffff = ConnectRequestOf { protocol_version: 958839601, last_zxid_seen: 4294967296, time_out: -1766273365, session_id: 4294967296, passwd: Null }
ConnectRequest e91909ed0000000000000001629384b899d4951b26431e5600000001bb = ConnectRequestOf { protocol_version: -384235027, last_zxid_seen: 1, time_out: 1653834936, session_id: -7362095547005329834, passwd: Full(Bytes { bytes: [187] }) }
ConnectResponse 2bbf65d4000003e8ffffffffffffffffffffffff = ConnectResponseOf { protocol_version: 733963732, time_out: 1000, session_id: -1, passwd: Null }
ConnectResponse 2617cea48000000000000001000000000000000765f2e3dc94b445 = ConnectResponseOf { protocol_version: 639094436, time_out: -2147483648, session_id: 4294967296, passwd: Full(Bytes { bytes: [101, 242, 227, 220, 148, 180, 69] }) }
RequestHeader b6f3404effffff90 = RequestHeader { xid: -1225572274, kind: -112 }
RequestHeader 8d5b8f8c00000002 = RequestHeader { xid: -1923379316, kind: 2 }
ReplyHeader fd8f54ff0000000000000000ffffff9b = ReplyHeader { xid: -40938241, zxid: 0, err: -101 }
ReplyHeader 0d997680e98aa87fe5e94772c6af2e7d = ReplyHeader { xid: 228161152, zxid: -1618295848814688398, err: -961597827 }
MultiHeader 000003e8007fffffff = MultiHeader { kind: 1000, done: false, err: 2147483647 }
MultiHeader e6ea5754000000001f = MultiHeader { kind: -420849836, done: false, err: 31 }
WatcherEvent c26cb48480000000ffffffff = WatcherEventOf { kind: -1033063292, state: -2147483648, path: Null }
WatcherEvent ffffffffc0f555b800000000 = WatcherEventOf { kind: -1, state: -1057663560, path: Full(Chars { text: "" }) }
CreateAsk 000000085b2c5d3b7b7d282900000000ffffffff45e7ddf9 = CreateAskOf { path: Full(Chars { text: "[,];{}()" }), blob: Full(Bytes { bytes: [] }), acl: Null, flags: 1172823545 }
CreateAsk ffffffff0000000b0ba0bfd4b6f351b3c3170f00000001ffffff9b0000000ad7a2d791d7a8d799d7aaffffffff00000001 = CreateAskOf { path: Null, blob: Full(Bytes { bytes: [11, 160, 191, 212, 182, 243, 81, 179, 195, 23, 15] }), acl: Full(Items { items: [AclOf { perms: -101, who: IdOf { scheme: Full(Chars { text: "עברית" }), ident: Null } }] }), flags: 1 }
DeleteAsk 000000ad7878787878787878787878787878787878787878787878787878787878787878787878787878787878787878787878787878787878787878787878787878787878787878787878787878787878787878787878787878787878787878787878787878787878787878787878787878787878787878787878787878787878787878787878787878787878787878787878787878787878787878787878787878787878787878787878787878787878ffffffff = DeleteAskOf { path: Full(Chars { text: "xxxxxxxxxxxxxxxxxxxxxxxxxxxxxxxxxxxxxxxxxxxxxxxxxxxxxxxxxxxxxxxxxxxxxxxxxxxxxxxxxxxxxxxxxxxxxxxxxxxxxxxxxxxxxxxxxxxxxxxxxxxxxxxxxxxxxxxxxxxxxxxxxxxxxxxxxxxxxxxxxxxxxxxxxxxxx" }), version: -1 }
DeleteAsk 00000010e697a5e69cace8aa9e2fe38391e382b9fffffff8 = DeleteAskOf { path: Full(Chars { text: "日本語/パス" }), version: -8 }
SetDataAsk 000000012f0000000080000000 = SetDataAskOf { path: Full(Chars { text: "/" }), blob: Full(Bytes { bytes: [] }), version: -2147483648 }
SetDataAsk 000000206a6f653a6f657341796242756e3969634b4a6a515354524e384f42756553633d0000000080000000 = SetDataAskOf { path: Full(Chars { text: "joe:oesAybBun9icKJjQSTRN8OBueSc=" }), blob: Full(Bytes { bytes: [] }), version: -2147483648 }
SetAclAsk 00000002c3a9ffffffff000003e8 = SetAclAskOf { path: Full(Chars { text: "é" }), acl: Null, version: 1000 }
CheckAsk 000000006d293d52 = CheckAskOf { path: Full(Chars { text: "" }), version: 1831419218 }
CheckAsk 000000102f7a6f6f6b65657065722f71756f74610acb8024 = CheckAskOf { path: Full(Chars { text: "/zookeeper/quota" }), version: 181108772 }
WatchAsk 0000000000 = WatchAskOf { path: Full(Chars { text: "" }), watch: false }
WatchAsk 000000022f6100 = WatchAskOf { path: Full(Chars { text: "/a" }), watch: false }
WatchAsk 000000022f6101 = WatchAskOf { path: Full(Chars { text: "/a" }), watch: true }
WatchAsk 00000006616e796f6e6501 = WatchAskOf { path: Full(Chars { text: "anyone" }), watch: true }
PathAsk ffffffff = PathAskOf { path: Null }
PathAsk 00000000 = PathAskOf { path: Full(Chars { text: "" }) }
AuthAsk 51718070000000066469676573740000000b0e266c43d4b95c7a6b86ce = AuthAskOf { kind: 1366392944, scheme: Full(Chars { text: "digest" }), auth: Full(Bytes { bytes: [14, 38, 108, 67, 212, 185, 92, 122, 107, 134, 206] }) }
AuthAsk 6f16ced800000002c3a900000000 = AuthAskOf { kind: 1863765720, scheme: Full(Chars { text: "é" }), auth: Full(Bytes { bytes: [] }) }
SetWatchesAsk 0742f34a44ef0c0400000002ffffffffffffffff0000000300000000000000b6787878787878787878787878787878787878787878787878787878787878787878787878787878787878787878787878787878787878787878787878787878787878787878787878787878787878787878787878787878787878787878787878787878787878787878787878787878787878787878787878787878787878787878787878787878787878787878787878787878787878787878787878787878787878787878787878787878787878787878787878787800000013c280dfbfe0a080ed9fbfee8080efbfbdefbfbfffffffff = SetWatchesAskOf { zxid: 523248007038045188, data_watches: Full(Items { items: [Null, Null] }), exist_watches: Full(Items { items: [Full(Chars { text: "" }), Full(Chars { text: "xxxxxxxxxxxxxxxxxxxxxxxxxxxxxxxxxxxxxxxxxxxxxxxxxxxxxxxxxxxxxxxxxxxxxxxxxxxxxxxxxxxxxxxxxxxxxxxxxxxxxxxxxxxxxxxxxxxxxxxxxxxxxxxxxxxxxxxxxxxxxxxxxxxxxxxxxxxxxxxxxxxxxxxxxxxxxxxxxxxxxx" }), Full(Chars { text: "\u{80}߿ࠀ\u{d7ff}\u{e000}�\u{ffff}" })] }), child_watches: Null }
DataBody 00000009c8b502db6536081a682aba258ddf80d7170000018bcfe568009f77f23dd13604fd8000000000000000ffffff90000000020000000101000000000000017fffffff000003e80000000100000000 = DataBodyOf { blob: Full(Bytes { bytes: [200, 181, 2, 219, 101, 54, 8, 26, 104] }), stat: Stat { czxid: 3078814586531534615, mzxid: 1700000000000, ctime: -6955824752133536515, mtime: -9223372036854775808, version: -112, cversion: 2, aversion: 1, ephemeral_owner: 72057594037927937, data_length: 2147483647, num_children: 1000, pzxid: 4294967296 } }
DataBody 0000000b232c96846576241ff685c60000018bcfe56800990a1f7d9dd60b580000000100000000ffffffffffffffff00000001e5b3e480814002bf000000000000000100000002d5fd0159893757b2a3f2dc5d = DataBodyOf { blob: Full(Bytes { bytes: [35, 44, 150, 132, 101, 118, 36, 31, 246, 133, 198] }), stat: Stat { czxid: 1700000000000, mzxid: -7419082811760047272, ctime: 4294967296, mtime: -1, version: 1, cversion: -441195392, aversion: -2126511425, ephemeral_owner: 1, data_length: 2, num_children: -704839335, pzxid: -8559276142027940771 } }
AclBody ffffffff01000000000000010000000000000000dcab04589151c0350000018bcfe56800f3844f8c0000000293507eb61c3c700314004b19f15f4fe81075f74b0000000000000000 = AclBodyOf { acl: Null, stat: Stat { czxid: 72057594037927937, mzxid: 0, ctime: -2545936385906196427, mtime: 1700000000000, version: -209432692, cversion: 2, aversion: -1823441226, ephemeral_owner: 2034624290187397913, data_length: -245411864, num_children: 276166475, pzxid: 0 } }
AclBody ffffffff7fffffffffffffff00000000000000018e34631f919696be0000000000000001ffffff907fffffffec8611eff9e878eb4bf47d237fffffffc41a4e4d7fffffffffffffff = AclBodyOf { acl: Null, stat: Stat { czxid: 9223372036854775807, mzxid: 1, ctime: -8199820034297129282, mtime: 1, version: -112, cversion: 2147483647, aversion: -326757905, ephemeral_owner: -438968011681661661, data_length: 2147483647, num_children: -1004908979, pzxid: 9223372036854775807 } }
ChildrenBody 000000020000000b3132372e302e302e312f3800000002c3a97fffffffffffffff00000000000000000100000000000001843282662d2d891e146b8b8160d29e8bc31b67d08000000000000000ca828261062895fe8000000000000000 = ChildrenBodyOf { names: Full(Items { items: [Full(Chars { text: "127.0.0.1/8" }), Full(Chars { text: "é" })] }), stat: Stat { czxid: 9223372036854775807, mzxid: 0, ctime: 72057594037927937, mtime: -8920924536511297250, version: 342592385, cversion: 1624415883, aversion: -1021614128, ephemeral_owner: -9223372036854775808, data_length: -897416607, num_children: 103323134, pzxid: -9223372036854775808 } }"#;

/// Values of each primitive, and bytes of none.
pub(crate) const VALUES: &str = r#"Text ffffffff = Null
Text 00000000 = Full(Chars { text: "" })
Text 000000022f61 = Full(Chars { text: "/a" })
Text fffffffe = BadLength at 0
Text 000000 = Short at 0
Text 000000032fc3 = Short at 0
Text 000000022fc3 = BadText at 5
Text 000000072feda0bdedb880 = BadText at 5
Blob ffffffff = Null
Blob 00000000 = Full(Bytes { bytes: [] })
Blob 000000022fc3 = Full(Bytes { bytes: [47, 195] })
Blob 80000000 = BadLength at 0
Blob 00000001 = Short at 0
i32 ffffff9b = -101
i64 0100000000000001 = 72057594037927937
i64 00000000000000 = Short at 0
bool 00 = false
bool 01 = true
bool 02 = BadBool at 0
bool  = Short at 0
List ffffffff = Null
List 00000000 = Full(Items { items: [] })
List 00000002000000022f61ffffffff = Full(Items { items: [Full(Chars { text: "/a" }), Null] })
List fffffffe = BadLength at 0
List 000000020000000161 = Short at 9
List 7fffffff = Short at 4
Stat 0000000000000004000000000000000400000000000003e800000000000003e8000000000000000000000000000000000000000000000003000000000000000000000004 = Stat { czxid: 4, mzxid: 4, ctime: 1000, mtime: 1000, version: 0, cversion: 0, aversion: 0, ephemeral_owner: 0, data_length: 3, num_children: 0, pzxid: 4 }
CreateBody 000000022f610000000000000004000000000000000400000000000003e800000000000003e8000000000000000000000000000000000000000000000003000000000000000000000004 = CreateBodyOf { path: Full(Chars { text: "/a" }), stat: Stat { czxid: 4, mzxid: 4, ctime: 1000, mtime: 1000, version: 0, cversion: 0, aversion: 0, ephemeral_owner: 0, data_length: 3, num_children: 0, pzxid: 4 } }
CreateTtlAsk 000000022f6100000000000000010000001f00000005776f726c6400000006616e796f6e65000000057fffffffffffffff = CreateTtlAskOf { path: Full(Chars { text: "/a" }), blob: Full(Bytes { bytes: [] }), acl: Full(Items { items: [AclOf { perms: 31, who: IdOf { scheme: Full(Chars { text: "world" }), ident: Full(Chars { text: "anyone" }) } }] }), flags: 5, ttl: 9223372036854775807 }
CreateTtlAsk 000000022f6100000000000000010000001f00000005776f726c6400000006616e796f6e65000000057fffffffffffff = Short at 41
WatchesAsk 000000022f6100000003 = WatchesAskOf { path: Full(Chars { text: "/a" }), kind: 3 }
WatchesAsk 000000022f61000000 = Short at 6
AddWatchAsk 000000022f6100000001 = AddWatchAskOf { path: Full(Chars { text: "/a" }), mode: 1 }
AddWatchAsk 000000022f61000000 = Short at 6
ReconfigAsk 000000107365727665722e323d683a313a323b33ffffffff00000000ffffffffffffffff = ReconfigAskOf { joining: Full(Chars { text: "server.2=h:1:2;3" }), leaving: Null, members: Full(Chars { text: "" }), config: -1 }
ReconfigAsk 000000107365727665722e323d683a313a323b33ffffffff00000000ffffffffffffff = Short at 28"#;

/// Values with a boolean after them, which may be left out.
pub(crate) const FLAGGED: &str = r#"Text ffffffff = (Null, None)
Text ffffffff00 = (Null, Some(false))
Text 000000022f6101 = (Full(Chars { text: "/a" }), Some(true))
Text 000000022f = Short at 0
Text ffffffff0200 = BadBool at 4
Text ffffffff0000 = Trailing at 5
ConnectRequest 0000001f413c17ccea55a19bda63145ad71a357dd0ff834effffffff00 = (ConnectRequestOf { protocol_version: 31, last_zxid_seen: 4700658279940202907, time_out: -631040934, session_id: -2946984191666977970, passwd: Null }, Some(false))
ConnectRequest 000003e87fffffffffffffffffffff9b0100000000000001000000028ea801 = (ConnectRequestOf { protocol_version: 1000, last_zxid_seen: 9223372036854775807, time_out: -101, session_id: 72057594037927937, passwd: Full(Bytes { bytes: [142, 168] }) }, Some(true))"#;

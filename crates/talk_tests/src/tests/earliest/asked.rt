//! Bodies of every layout of the client: written by make_bodies.py.
use zk_answers::Layout;
use zk_records::Op;

/// Bodies of each layout: the bytes of one, and what is answered to it.
pub(crate) const ASKED: &[(Layout, &str)] = &[
    (
        Layout::Connect,
        "0000000100000000000001000000000000000600000000 = None
ffffffff0000000000000308000000010000000000000003ffffffff = Some(28)
00000000000000000000000600000001000000000500000003e282ac = Some(24)
0000001f000000000000000100000001000000000003000000022f61 = Some(25)
0000000000000000000007ffffffff0000000000000003000000022f = Some(26)
ffffffff000000000000000700000000000800000000000800000003e282 = Some(27)",
    ),
    (
        Layout::ConnectRo,
        "0000001f0000000000000005ff0000000009000000022f6100 = None
ffffffff0000000000000004000000000000000000000006ffffffff00 = Some(29)
ffffffff0000000000000007ffffffff0000000000000000032fc3a900 = Some(24)
0000001f0000000000000009ffff01ff000000000000000700ff000001 = Some(25)
0000001f00000000000000030000000000000000000009000000082f6101 = Some(26)
0000000100000000000000080000001f0000000000000005000000052ff09d849e = Some(27)",
    ),
    (
        Layout::Asked(Op::Create),
        "0000000000ffffffff000000000000 = None
ffffffffffffffffffffffffffffffff = Some(16)
61ffffffff00010000022f61ffffffffffffffff = Some(0)
0000000000000003e2000000ffff03ff = Some(7)
00000003e282ac000000032fc3a900000000001f000000032fc3a900000003e282ac00000000 = Some(17)
ffffffff000000032fc3a900000001ffffffffffffffff000000032fc3a90000000101 = Some(26)",
    ),
    (
        Layout::Asked(Op::Delete),
        "ff00000001 = None
0000000000010001 = Some(8)
032fc3a900000000 = Some(0)
00800061ffffffff = Some(1)
00000100ffffffff = Some(2)
0000000100000000 = Some(3)",
    ),
    (
        Layout::Asked(Op::Exists),
        "ff05 = None
ffffffff00 = Some(5)
0d00000000 = Some(0)
002f006101 = Some(1)
0000010000 = Some(2)
0000006101 = Some(3)",
    ),
    (
        Layout::Asked(Op::GetData),
        "ffff = None
ffffffff01 = Some(5)
ffe2ffffff00 = Some(0)
0001000001 = Some(1)
0000c3a900 = Some(2)
0000000301 = Some(3)",
    ),
    (
        Layout::Asked(Op::SetData),
        "00ffffffffffffffff = None
ffffffff0000000000000001 = Some(12)
6100000000ffffffff00000000 = Some(0)
ffffff00008003e282acffffffff = Some(3)
ffffffff0000610003e282ac00000000 = Some(6)
000000022f61000000610000001f = Some(9)",
    ),
    (
        Layout::Asked(Op::GetAcl),
        " = None
ffffffff = Some(4)
03000000 = Some(0)
002fc3a9 = Some(1)
0000ed00 = Some(2)
00000003 = Some(3)",
    ),
    (
        Layout::Asked(Op::SetAcl),
        "0000ffffffff00000001 = None
ffffffff0000000000000000 = Some(12)
02ffffff0000000000000001 = Some(0)
00000003e28200000100000001002ff09d849effffffff0000001f = Some(6)
000000022f6100000001020000000100000003e282ac00000003e282ac0000001f00000003e282ac000000032fc3a9ffffffff = Some(14)
ffffffff0000000100000001000000052ff09d8405ffffffffffffffff = Some(20)",
    ),
    (
        Layout::Asked(Op::GetChildren),
        "0000 = None
ffffffff00 = Some(5)
7fffffff00 = Some(0)
ffff7fff00 = Some(2)
0000000080 = Some(4)
000000032fc3a902 = Some(7)",
    ),
    (
        Layout::Asked(Op::Sync),
        "ff = None
ffffffff = Some(4)
0d000000 = Some(0)
ff00ffff = Some(1)
0000c3a9 = Some(2)
000000a9 = Some(3)",
    ),
    (
        Layout::Asked(Op::Ping),
        "01 = None
 = Some(0)",
    ),
    (
        Layout::Asked(Op::GetChildren2),
        "0001 = None
ffffffff00 = Some(5)
7fffffff01 = Some(0)
00000d0001 = Some(2)
ffffffffe2 = Some(4)
000000022f61ff = Some(6)",
    ),
    (
        Layout::Asked(Op::Multi),
        "ff01ffff = None
ffffffff01ffffffff = Some(9)
00ffffff01ffffffff = Some(0)
ffff05ff01ffffffff = Some(2)
ffffffff02ffffffff = Some(4)
0000000500ff01ffffffffffff000000022f61ffffffffffffffffc3ffffffff = Some(6)
ffffffff01ffffff80 = Some(8)
0000000500ffffffffff00ffffff000000022f6100000000ffffffff01ffffffff = Some(10)
0000000200ffffffff000000022f61000001ffffffff01ffffffff = Some(12)
0000000d00ffffffff000000032fffa900000000ffffffff01ffffffff = Some(14)
0000000200ffffffffffffffff00000001c3ffffff01ffffffff = Some(17)
0000000100ffffffff00000003e282ac00000000ffffffff00000001ffffffffe201ffff05ff = Some(19)
0000000500ffffffff000000052ff09d849e000000022f00001fffffff0d01ffffffff = Some(21)
0000000200ffffffffffffffff000000010000000d00ff02ffff000000032fc3a90000001fffffffff01ffffffff = Some(23)
0000000200ffffffffffffffff000000000000000500ffffff00000003e282ac00000003e282acffffffffff01ffffffff = Some(25)
0000000d00ffffffff000000052ff09d849e000000000000000500ff01ffffff00000000000000052ff09d849e0000001fffffffff01ffffffff = Some(28)
0000000200ffffffff000000032fc3a9000000010000000500ffffffff007f00032fc3a9000000052ff09d849e00000000ffffffff01ffff = Some(30)
0000000100ffffffffffffffff00000003e282ac000000000000001f0000000d00ffff03ff000000022f6100000001ffffffff08ffffffff = Some(35)
0000000100ffffffff000000022f61000000022f61000000010000001f00000003e282ac00610000022f6100000001ffffffff01ffffffff = Some(37)
0000000200ffffffff00000003e282acffffffff0000000200ffffffff000000022f610000001fffffffff08ffffffff = Some(43)",
    ),
    (
        Layout::Asked(Op::Create2),
        "ff00006100000000ffffffff = None
ffffffffffffffff000000000000001f = Some(16)
c300000000000003e282ac00000000ffffffff = Some(0)
00000005f09d849eed0000022f61000000000000001f = Some(8)
ffffffff000000022f610000000100000000052ff09d849e00000000ffffffff = Some(18)
000000022f6100000003e282ac000000010000001fffffffff000000052ff09d849e010000001f = Some(28)",
    ),
    (
        Layout::Asked(Op::Reconfig),
        "00000000ffffff00022f610000000002 = None
ffffffffffffffffffffffff0100000000000004 = Some(20)
010000000000000000000003052ff09d849e0000000000000005 = Some(0)
00000005fff0019d849effffffffffffffff0000000000000007 = Some(4)
00000003e282acff7fffff000000022f610000000000000009 = Some(8)
000000022f610000000000000003e28200ac0000000000000009 = Some(13)",
    ),
    (
        Layout::Asked(Op::CheckWatches),
        "ff0000 = None
00000000ffff00ff = Some(8)
032fc3a90000001f = Some(0)
ff08ffc300000001 = Some(1)
000003ac00000001 = Some(2)
000000032fffffff = Some(3)",
    ),
    (
        Layout::Asked(Op::RemoveWatches),
        "0000 = None
ffffffff00000000 = Some(8)
032fc3a900000001 = Some(0)
00e282ac00000000 = Some(1)
0000032fc3a9ffffff80 = Some(2)
000000022f610000 = Some(3)",
    ),
    (
        Layout::Asked(Op::CreateContainer),
        "00000000ffffffffff00000000 = None
ffffffff00000000000000000000001f = Some(16)
052ff09d849effffffff000000000000001f = Some(0)
000000000000ed022f6100000000ffffffff = Some(6)
0000000000000003e282ac000000020000001f = Some(14)
ffffffffffffffff00000001ffffffff00000003e282ac000000032fc3a90000000001 = Some(26)",
    ),
    (
        Layout::Asked(Op::CreateTtl),
        "ffffffffffffff03ffffffffffffff0000000000000002 = None
0000000000000003e282acffffffff000000000000000000007f03 = Some(27)
0100000003e282ac00000000000000020000001f00000003e282ac000000052ff09d849e00000000ffff05ff000000032fc3a9000000010000000000000009 = Some(0)
000000032fc3a900e20000032fc3a90000000100000000ffffffff000000052ff09d849e000000611f0000000000000004 = Some(8)
ffffffffffffffff0000000200000001000001032fc3a9e2ffffffff0000001fffffffff00000000000000000000000000000000 = Some(18)
000000052ff09d849e0000000000000002ffffffffffffffff000000032fc300ffffffffffffffff000000052ff09d849e0000001f0000000000000002 = Some(31)",
    ),
    (
        Layout::Asked(Op::Auth),
        "00000000000000000000 = None
000000000000000000000000 = Some(12)
ff00000003e282acffffffff = Some(4)
ffffffffffffff0d000000022f61 = Some(7)
0000001f000000022f6102000003e2820d = Some(10)
ffffffff000000032fc3a90000032fc3a9 = Some(13)",
    ),
    (
        Layout::Asked(Op::SetWatches),
        "0000000000000000000000000000000000 = None
000d000000000000ffffffffffffffffffffffff = Some(20)
e20000000000000007ffffffff0000000000000001ffffffff = Some(8)
0000000000000008ffffffff00000100ffffffff = Some(14)
00000000000000090000000000000001ffffffff6100000002ffffffff00000303e282ac = Some(20)
0000000000000006ffffffff000000000000000100000003e2820d = Some(26)",
    ),
    (
        Layout::Asked(Op::GetEphemerals),
        "ff = None
ffffffff = Some(4)
01ffffff = Some(0)
ff61ffff = Some(1)
0000030000 = Some(2)
000000c3 = Some(3)",
    ),
    (
        Layout::Asked(Op::GetAllChildrenNumber),
        "00 = None
ffffffff = Some(4)
03e282ac = Some(0)
00ffffffff = Some(1)
0000022f05 = Some(2)
ffffffed = Some(3)",
    ),
    (
        Layout::Asked(Op::AddWatch),
        "00000000 = None
ffffffff0000001f = Some(8)
02ffffff0000001f = Some(0)
000100000000000000 = Some(1)
0000c300ffffffff = Some(2)
0000000200000001 = Some(3)",
    ),
    (
        Layout::Asked(Op::CloseSession),
        "7f = None
 = Some(0)",
    ),
];

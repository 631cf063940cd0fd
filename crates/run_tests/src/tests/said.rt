//! Tests of `build` over lines that are made from a seed: what is written, and what is refused, is that of reading each
//! line's message and saying it, one by one.
ghost use Rattle.std.specs.Prelude.{◌<◌};

use super::memory::{MemorySink, MemorySource};
use super::samples::same;
use std::alloc::Global;
use std::process::Abort;
use std::test::Fail;
use zk_lines::read_line;
use zk_records::NEWEST;
use zk_runs::{Built, build_run};
use zk_talk::{Limits, Message, Speaker};

/// A conversation of each kind of message, with the least and the greatest of what lines spell.
const LINES: [&str; 60] = [
    "C connect version=0 zxid=-1 timeout=30000 session=0 passwd=#00000000000000000000000000000000 ro=0",
    "S connect version=0 timeout=30000 session=72057594037927937 passwd=#000102030405060708090a0b0c0d0e0f ro=-",
    "C 1 create path=\"/a\" blob=#00ff acl=[31:\"world\":\"anyone\",1:\"ip\":~] flags=3",
    "C 2 delete path=\"\" version=-2147483648",
    "S 1 create zxid=9223372036854775807 path=\"/a0000000001\"",
    "S 2 delete zxid=-9223372036854775808",
    "C 3 exists path=\"/\\d0\\b0\\22\\5c\" watch=1",
    "C 4 exists path=~ watch=0",
    "S 3 exists zxid=5 stat=(1,2,3,4,5,6,7,8,9,10,11)",
    "S 4 exists zxid=5 err=-101/NONODE",
    "C 5 getData path=\"/a\" watch=0",
    "S 5 getData zxid=5 blob=#000102030405060708090a0b0c0d0e0f101112131415161718 stat=(1,-2,3,-4,5,-6,7,-8,9,-10,11)",
    "C 6 setData path=\"/a\" blob=~ version=-1",
    "S 6 setData zxid=6 stat=(1,2,3,4,5,6,7,8,9,10,11)",
    "C 7 getACL path=\"/a\"",
    "S 7 getACL zxid=6 acl=[] stat=(1,2,3,4,5,6,7,8,9,10,11)",
    "C 8 setACL path=\"/\" acl=~ version=0",
    "S 8 setACL zxid=5 err=-7000",
    "C 9 getChildren path=\"/\" watch=0",
    "S 9 getChildren zxid=0 names=[\"\",~,\"\\00\\7f\",\"a name of more than sixteen bytes\"]",
    "C 10 getChildren2 path=\"/\" watch=1",
    "S 10 getChildren2 zxid=0 names=~ stat=(0,0,0,0,0,0,0,0,0,0,0)",
    "C 11 sync path=\"/\"",
    "S event zxid=-1 kind=3/NodeDataChanged state=3 path=\"/a\"",
    "S 11 sync zxid=5 path=~",
    "C -2 ping",
    "C -4 auth kind=0 scheme=\"digest\" auth=#613a62",
    "C -8 setWatches zxid=5 dataWatches=[\"/a\",\"/b\"] existWatches=[] childWatches=~",
    "S -8 setWatches zxid=5",
    "S -2 ping zxid=-1",
    "S -4 auth zxid=0 err=-115/AUTHFAILED",
    "C 12 multi {create path=~ blob=~ acl=~ flags=-1;delete path=\"\" version=0;setData path=~ blob=# version=1;check path=\"/\" version=1}",
    "C 13 multi {}",
    "S 12 multi zxid=1 {create path=\"/a\";delete;fail err=-7000;check}",
    "S 13 multi zxid=5 {}",
    "C 14 multi {setData path=\"/a\" blob=#61 version=3}",
    "S 14 multi zxid=1 {setData stat=(1,2,3,4,5,6,7,8,9,10,11)}",
    "C 15 multi {check path=\"/a\" version=3}",
    "S 15 multi zxid=1 err=-2/RUNTIMEINCONSISTENCY",
    "C 16 create2 path=\"/c\" blob=# acl=[] flags=0",
    "S 16 create2 zxid=6 path=\"/c\" stat=(4,4,1000,1000,0,0,0,0,3,0,4)",
    "C 17 createContainer path=\"/d\" blob=~ acl=[31:\"world\":\"anyone\"] flags=4",
    "S 17 createContainer zxid=7 path=\"/d\" stat=(4,4,1000,1000,0,0,0,0,3,0,4)",
    "C 18 createTTL path=\"/t\" blob=# acl=~ flags=6 ttl=-9223372036854775808",
    "S 18 createTTL zxid=8 path=\"/t0000000001\" stat=(4,4,1000,1000,0,0,0,0,3,0,4)",
    "C 19 addWatch path=\"/a\" mode=1",
    "S 19 addWatch zxid=8 code=-2147483648",
    "C 20 checkWatches path=\"/a\" kind=3",
    "S 20 checkWatches zxid=8",
    "C 21 removeWatches path=~ kind=-1",
    "S 21 removeWatches zxid=8 err=-121",
    "C 22 getEphemerals path=\"/\"",
    "S 22 getEphemerals zxid=8 names=[\"/e\",~]",
    "C 23 getAllChildrenNumber path=\"/\"",
    "S 23 getAllChildrenNumber zxid=8 count=2147483647",
    "C 24 reconfig joining=~ leaving=\"3\" members=\"\" config=-1",
    "S 24 reconfig zxid=9 blob=#00ff stat=(4,4,1000,1000,0,0,0,0,3,0,4)",
    "S event zxid=1 kind=9 state=-1 path=~",
    "C 2147483647 closeSession",
    "S 2147483647 closeSession zxid=624",
];

/// Characters that lines are changed by.
const MARKS: &[u8] = b"0123456789-/~#\"\\,:;[]{}()= abcdefCSxyz\xc3\xa9\x00\x7f";

/// Numbers that look like random ones (xorshift, Marsaglia 2003).
#[derive(Drop)]
struct Random {
    state: u64,
}

impl Random {
    fn next(&mut self) -> u64 {
        let a = self.state ^ self.state.wrapping_shl(13);
        let b = a ^ a.wrapping_shr(7);
        self.state = b ^ b.wrapping_shl(17);
        self.state
    }

    /// A number below `limit`, or 0.
    fn below(&mut self, limit: usize) -> usize {
        let number = self.next().wrapping_shr(33) as usize;
        number.checked_rem(limit).unwrap_or(0)
    }
}

fn limits() -> Result<Limits, Fail> {
    let limits = Limits::new(4_096, 4_096, 16).ok_or("limits")?;
    Ok(limits.with_profile(NEWEST))
}

/// The first lines of the conversation, as many as that.
fn front_lines(alloc: Global, count: usize) -> Result<Vec<Vec<u8>>, Fail> {
    let mut lines = Vec::new(alloc);
    for line in LINES.iter().take(count) {
        lines.push(Vec::from_slice(alloc, line.as_bytes())?)?;
    }
    Ok(lines)
}

/// The lines, each with its line feed.
fn joined(alloc: Global, lines: &[Vec<u8>]) -> Result<Vec<u8>, Fail> {
    let mut all = Vec::new(alloc);
    for line in lines {
        all.extend_from_slice(line)?;
        all.push(b'\n')?;
    }
    Ok(all)
}

/// What is built of the lines as their messages are read and said one by one, and why no more are.
fn one_by_one(alloc: Global, lines: &[Vec<u8>]) -> Result<(Built, Vec<u8>), Fail> {
    let mut speaker = Speaker::new(alloc, limits()?)?;
    let mut out = Vec::from_slice(alloc, b"ZKR1")?;
    let mut number = 0_u64;
    for text in lines {
        number = number.saturating_add(1);
        let line = number;
        let message = match read_line(alloc, text) {
            Ok(message) => message,
            Err(fault) => return Ok((Built::LineRefused { line, fault }, out)),
        };
        let mut frame = Vec::new(alloc);
        if let Err(fault) = speaker.say(&message, &mut frame) {
            return Ok((Built::SayRefused { line, fault }, out));
        }
        let side = match message {
            Message::Client(_) => b'C',
            Message::Server(_) => b'S',
        };
        let size = u32::try_from(frame.len())?;
        out.push(side)?;
        out.extend_from_slice(&size.to_be_bytes())?;
        out.extend_from_slice(&frame)?;
    }
    Ok((Built::Whole, out))
}

/// The bytes are built into this recording with this result, in blocks of this size.
fn expect_built(
    rt: &impl Abort,
    alloc: Global,
    lines: &[u8],
    size: usize,
    want: &(Built, Vec<u8>),
) -> Result<(), Fail>
    requires { 0 < size }
{
    let mut reader = MemorySource::by_steps(lines, size);
    let mut writer = MemorySink::new(alloc);
    let built = build_run(alloc, limits()?, &mut reader, &mut writer);
    same(rt, &built, &Ok(want.0), &size);
    same(rt, &writer.bytes(), &want.1.as_slice(), &size);
    Ok(())
}

/// A line that one change made of another.
fn changed(alloc: Global, random: &mut Random, line: &[u8]) -> Result<Vec<u8>, Fail> {
    let at = random.below(line.len());
    let (front, back) = line.split_at_checked(at).ok_or("split")?;
    let rest = back.get(1..).unwrap_or(&[]);
    let mark = [*MARKS.get(random.below(MARKS.len())).ok_or("mark")?];
    let mut text = Vec::from_slice(alloc, front)?;
    match random.below(5) {
        0 => {
            text.extend_from_slice(&mark)?;
            text.extend_from_slice(rest)?;
        }
        1 => {
            text.extend_from_slice(&mark)?;
            text.extend_from_slice(back)?;
        }
        2 => text.extend_from_slice(rest)?,
        3 => {}
        _ => text.extend_from_slice(back)?,
    }
    Ok(text)
}

/// Fronts of the conversation, and after each a line of it that was changed, are built as they are said one by one.
fn expect_changed(rt: &impl Abort, alloc: Global, seed: u64) -> Result<(), Fail> {
    let mut random = Random { state: seed };
    for turn in 0..5_000_usize {
        let count = turn % LINES.len();
        let near = count.saturating_sub(random.below(3));
        let line = LINES.get(near).ok_or("line")?;
        let text = changed(alloc, &mut random, line.as_bytes())?;
        let mut lines = front_lines(alloc, count)?;
        lines.push(text)?;
        let want = one_by_one(alloc, &lines)?;
        let all = joined(alloc, &lines)?;
        expect_built(rt, alloc, &all, usize::MAX, &want)?;
    }
    Ok(())
}

#[test]
fn changed_lines(rt: HostRuntime) -> Result<(), Fail> {
    expect_changed(&rt, rt.alloc(), 0x9e37_79b9_7f4a_7c15)
}

#[test]
fn changed_lines_of_a_second_seed(rt: HostRuntime) -> Result<(), Fail> {
    expect_changed(&rt, rt.alloc(), 0xbf58_476d_1ce4_e5b9)
}

#[test]
fn changed_lines_of_a_third_seed(rt: HostRuntime) -> Result<(), Fail> {
    expect_changed(&rt, rt.alloc(), 0x94d0_49bb_1331_11eb)
}

#[test]
fn changed_lines_of_a_fourth_seed(rt: HostRuntime) -> Result<(), Fail> {
    expect_changed(&rt, rt.alloc(), 0x2545_f491_4f6c_dd1d)
}

/// The conversation in blocks of each size, so that a block ends at each of its bytes.
#[test]
fn each_place_of_a_block(rt: HostRuntime) -> Result<(), Fail> {
    let lines = front_lines(rt.alloc(), LINES.len())?;
    let all = joined(rt.alloc(), &lines)?;
    let want = one_by_one(rt.alloc(), &lines)?;
    for size in 0..all.len() {
        expect_built(&rt, rt.alloc(), &all, size.max(1), &want)?;
    }
    Ok(())
}

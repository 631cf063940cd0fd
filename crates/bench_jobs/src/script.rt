//! `Script`: the lines of a turn of a conversation, made at random.

use crate::place::{FIRST_XID, FIRST_ZXID, Number, Place};
use crate::random::Random;
use std::alloc::{AllocError, Global};
use std::collections::VecDeque;
use std::fmt::Write;

/// What a conversation is about.
#[derive(Clone, Copy)]
pub(crate) enum Mix {
    /// Short paths, 100 bytes of data, every usual operation.
    Small,
    /// The same, with one listing of 10,000 names and 100,000 bytes of data among them.
    Night,
    /// The same as small, with paths and names in Cyrillic and Chinese.
    Foreign,
}

const PATHS: [&str; 5] = [
    "/app/config/key-",
    "/services/api/node-",
    "/locks/l-",
    "/brokers/topics/t-",
    "/q-",
];

const FOREIGN_PATHS: [&str; 5] = [
    "/\u{41d}\u{430}\u{441}\u{442}\u{440}\u{43e}\u{439}\u{43a}\u{438}/\u{43a}\u{43b}\u{44e}\u{447}-",
    "/\u{421}\u{43b}\u{443}\u{436}\u{431}\u{44b}/\u{443}\u{437}\u{435}\u{43b}-",
    "/\u{670d}\u{52a1}/\u{914d}\u{7f6e}/\u{8282}\u{70b9}-",
    "/\u{5e94}\u{7528}\u{7a0b}\u{5e8f}/\u{952e}-",
    "/\u{411}\u{440}\u{43e}\u{43a}\u{435}\u{440}\u{44b}/\u{442}\u{435}\u{43c}\u{44b}/\u{4e3b}\u{9898}-",
];

const FOREIGN_NAMES: [&str; 3] = [
    "\u{443}\u{447}\u{430}\u{441}\u{442}\u{43d}\u{438}\u{43a}-",
    "\u{6210}\u{5458}\u{8282}\u{70b9}-",
    "\u{434}\u{43e}\u{447}\u{435}\u{440}\u{43d}\u{438}\u{439}-",
];

const WORLD: &str = " acl=[31:\"world\":\"anyone\"]";

/// The lines of the connect request and its reply.
pub(crate) const GREETING: &str = "\
C connect version=0 zxid=0 timeout=30000 session=0 passwd=#00000000000000000000000000000000 ro=0
S connect version=0 timeout=30000 session=72057594037927937 passwd=#000102030405060708090a0b0c0d0e0f ro=0
";

/// The reply to a request that waits.
#[derive(Drop)]
struct Reply {
    xid: Option<u64>,
    name: &'static str,
    tail: String,
}

/// The lines of a turn, and the places of their numbers.
#[derive(Drop)]
pub(crate) struct Script {
    alloc: Global,
    mix: Mix,
    random: Random,
    pub(crate) lines: String,
    pub(crate) places: Vec<Place>,
    xid: u64,
    zxid: u64,
    waiting: VecDeque<Reply>,
}

/// Appends `text` as a line has it: a byte that isn't ASCII as `\` and two digits.
fn put_escaped(out: &mut String, text: &str) -> Result<(), AllocError> {
    for letter in text.chars() {
        if letter.is_ascii() {
            out.push(letter)?;
        } else {
            let mut bytes = [0; 4];
            for byte in letter.encode_utf8(&mut bytes).bytes() {
                write!(out, "\\{byte:02x}")?;
            }
        }
    }
    Ok(())
}

/// Appends a blob of `words` times eight bytes, and four more.
fn put_blob(out: &mut String, random: &mut Random, words: u32) -> Result<(), AllocError> {
    out.push_str(" blob=#")?;
    for _ in 0..words {
        let word = random.word();
        write!(out, "{word:016x}")?;
    }
    let last = random.word() >> 32;
    write!(out, "{last:08x}")
}

fn put_stat(out: &mut String, random: &mut Random, size: u64) -> Result<(), AllocError> {
    let zxid = FIRST_ZXID.wrapping_add(random.below(1 << 40));
    let later = zxid.wrapping_add(random.below(1000));
    let made = random.below(1_000_000_000).wrapping_add(1_700_000_000_000);
    let changed = made.wrapping_add(random.below(1_000_000_000));
    let version = random.below(100);
    let children = random.below(6);
    write!(
        out,
        " stat=({zxid},{later},{made},{changed},{version},{children},0,0,{size},{children},{zxid})"
    )
}

impl Script {
    pub(crate) fn into_places(self) -> Vec<Place> {
        let Script { places, .. } = self;
        places
    }

    /// A turn of some 14 requests a round.
    pub(crate) fn new(
        alloc: Global,
        mix: Mix,
        seed: u64,
        rounds: u32,
    ) -> Result<Script, AllocError> {
        let mut script = Script {
            alloc,
            mix,
            random: Random::new(seed),
            lines: String::new(alloc),
            places: Vec::new(alloc),
            xid: FIRST_XID,
            zxid: FIRST_ZXID,
            waiting: VecDeque::new(alloc),
        };
        for round in 0..rounds {
            script.round(round)?;
        }
        for _ in 0..script.waiting.len() {
            script.answer()?;
        }
        Ok(script)
    }

    /// Up to 50 requests are under way.
    fn round(&mut self, round: u32) -> Result<(), AllocError> {
        if let Mix::Night = self.mix {
            if round == 3 {
                self.list_many()?;
            }
            if round == 7 {
                self.get_big()?;
            }
        }
        for _ in 0..self.random.below(28).saturating_add(1) {
            if self.waiting.len() < 50 {
                self.ask()?;
            }
        }
        let ready = (self.waiting.len() as u64).saturating_add(1);
        for _ in 0..self.random.below(ready) {
            self.answer()?;
        }
        Ok(())
    }

    /// The oldest request's reply, and an event now and then.
    fn answer(&mut self) -> Result<(), AllocError> {
        let Some(reply) = self.waiting.pop_front() else {
            return Ok(());
        };
        self.lines.push_str("S ")?;
        match reply.xid {
            Some(xid) => self.put_number(Number::Xid, xid)?,
            None => self.lines.push_str("-2")?,
        }
        let name = reply.name;
        write!(self.lines, " {name} zxid=")?;
        self.zxid = self.zxid.wrapping_add(1);
        let zxid = self.zxid;
        match reply.xid {
            Some(_) => self.put_number(Number::Zxid, zxid)?,
            None => write!(self.lines, "{zxid}")?,
        }
        self.lines.push_str(reply.tail.as_str())?;
        self.lines.push('\n')?;
        if self.random.below(40) == 0 {
            self.lines
                .push_str("S event zxid=-1 kind=3/NodeDataChanged state=3")?;
            self.put_path(false)?;
            self.lines.push('\n')?;
        }
        Ok(())
    }

    /// Appends a number of ten digits, which each turn replaces.
    fn put_number(&mut self, what: Number, first: u64) -> Result<(), AllocError> {
        let at = self.lines.len();
        self.places.push(Place { at, what, first })?;
        write!(self.lines, "{first:010}")
    }

    /// Appends a path with four digits at its end, which each turn replaces if they are marked.
    fn put_path(&mut self, marked: bool) -> Result<(), AllocError> {
        let path = match self.mix {
            Mix::Foreign => self.random.one_of(&FOREIGN_PATHS, "/"),
            _ => self.random.one_of(&PATHS, "/"),
        };
        self.lines.push_str(" path=\"")?;
        put_escaped(&mut self.lines, path)?;
        let first = self.random.below(10_000);
        if marked {
            let (at, what) = (self.lines.len(), Number::Digits);
            self.places.push(Place { at, what, first })?;
        }
        write!(self.lines, "{first:04}\"")
    }

    /// Begins a request, with its path.
    fn begin(&mut self, name: &str) -> Result<u64, AllocError> {
        self.xid = self.xid.wrapping_add(1);
        let xid = self.xid;
        self.lines.push_str("C ")?;
        self.put_number(Number::Xid, xid)?;
        write!(self.lines, " {name}")?;
        if name != "multi" {
            self.put_path(true)?;
        }
        Ok(xid)
    }

    /// Ends a request, which waits for its reply.
    fn wait(
        &mut self,
        xid: Option<u64>,
        name: &'static str,
        tail: String,
    ) -> Result<(), AllocError> {
        self.lines.push('\n')?;
        self.waiting.push_back(Reply { xid, name, tail })?;
        Ok(())
    }

    fn ask(&mut self) -> Result<(), AllocError> {
        let kind = self.random.below(100);
        let failed = self.random.below(16) == 0;
        let mut tail = String::new(self.alloc);
        if kind < 46 {
            self.ask_for_node(kind < 20, failed, tail)
        } else if kind < 56 {
            let xid = self.begin("getChildren2")?;
            self.lines.push_str(" watch=1")?;
            let count = self.random.below(20);
            self.put_names(&mut tail, count)?;
            put_stat(&mut tail, &mut self.random, 0)?;
            self.wait(Some(xid), "getChildren2", tail)
        } else if kind < 71 {
            let xid = self.begin("setData")?;
            put_blob(&mut self.lines, &mut self.random, 12)?;
            self.lines.push_str(" version=7")?;
            if failed {
                tail.push_str(" err=-103/BADVERSION")?;
            } else {
                put_stat(&mut tail, &mut self.random, 100)?;
            }
            self.wait(Some(xid), "setData", tail)
        } else if kind < 82 {
            self.ask_to_create(failed, tail)
        } else if kind < 92 {
            let xid = self.begin("delete")?;
            self.lines.push_str(" version=-1")?;
            if failed {
                tail.push_str(" err=-111/NOTEMPTY")?;
            }
            self.wait(Some(xid), "delete", tail)
        } else if kind < 98 {
            self.ask_for_many(failed, tail)
        } else {
            self.lines.push_str("C -2 ping")?;
            self.wait(None, "ping", tail)
        }
    }

    fn ask_for_node(
        &mut self,
        exists: bool,
        failed: bool,
        mut tail: String,
    ) -> Result<(), AllocError> {
        let name = if exists { "exists" } else { "getData" };
        let xid = self.begin(name)?;
        let watch = self.random.below(2);
        write!(self.lines, " watch={watch}")?;
        if failed {
            tail.push_str(" err=-101/NONODE")?;
        } else {
            if !exists {
                put_blob(&mut tail, &mut self.random, 12)?;
            }
            put_stat(&mut tail, &mut self.random, 100)?;
        }
        self.wait(Some(xid), name, tail)
    }

    fn ask_to_create(&mut self, failed: bool, mut tail: String) -> Result<(), AllocError> {
        let xid = self.begin("create")?;
        put_blob(&mut self.lines, &mut self.random, 12)?;
        self.lines.push_str(WORLD)?;
        let flags = self.random.below(4);
        write!(self.lines, " flags={flags}")?;
        if failed {
            tail.push_str(" err=-110/NODEEXISTS")?;
        } else {
            let number = self.random.below(1_000_000);
            write!(tail, " path=\"/services/api/node-{number:010}\"")?;
        }
        self.wait(Some(xid), "create", tail)
    }

    fn ask_for_many(&mut self, failed: bool, mut tail: String) -> Result<(), AllocError> {
        let xid = self.begin("multi")?;
        self.lines.push_str(" {")?;
        tail.push_str(" {")?;
        let count = self.random.below(6).saturating_add(1);
        for number in 0..count {
            if number > 0 {
                self.lines.push(';')?;
                tail.push(';')?;
            }
            self.put_part(failed, number, &mut tail)?;
        }
        self.lines.push('}')?;
        tail.push('}')?;
        self.wait(Some(xid), "multi", tail)
    }

    fn put_part(&mut self, failed: bool, number: u64, tail: &mut String) -> Result<(), AllocError> {
        let kind = self.random.below(4);
        let name = match kind {
            0 => "create",
            1 => "setData",
            2 => "delete",
            _ => "check",
        };
        self.lines.push_str(name)?;
        self.put_path(false)?;
        if kind < 2 {
            put_blob(&mut self.lines, &mut self.random, 12)?;
        }
        if kind == 0 {
            self.lines.push_str(WORLD)?;
            self.lines.push_str(" flags=0")?;
        } else {
            self.lines.push_str(" version=7")?;
        }
        if failed {
            return match number {
                0 => tail.push_str("fail err=-103/BADVERSION"),
                _ => tail.push_str("fail err=-2/RUNTIMEINCONSISTENCY"),
            };
        }
        tail.push_str(name)?;
        match kind {
            0 => tail.push_str(" path=\"/brokers/topics/t-0042\""),
            1 => put_stat(tail, &mut self.random, 100),
            _ => Ok(()),
        }
    }

    /// Appends a list of names.
    fn put_names(&mut self, tail: &mut String, count: u64) -> Result<(), AllocError> {
        tail.push_str(" names=[")?;
        let first = self.random.below(1_000_000);
        for at in 0..count {
            let stem = match self.mix {
                Mix::Foreign => self.random.one_of(&FOREIGN_NAMES, "n"),
                _ => "member-",
            };
            let number = first.wrapping_add(at);
            tail.push_str(if at == 0 { "\"" } else { ",\"" })?;
            put_escaped(tail, stem)?;
            write!(tail, "{number:010}\"")?;
        }
        tail.push(']')
    }

    fn list_many(&mut self) -> Result<(), AllocError> {
        let xid = self.begin("getChildren")?;
        self.lines.push_str(" watch=0")?;
        let mut tail = String::new(self.alloc);
        self.put_names(&mut tail, 10_000)?;
        self.wait(Some(xid), "getChildren", tail)
    }

    fn get_big(&mut self) -> Result<(), AllocError> {
        let xid = self.begin("getData")?;
        self.lines.push_str(" watch=0")?;
        let mut tail = String::new(self.alloc);
        put_blob(&mut tail, &mut self.random, 12_500)?;
        put_stat(&mut tail, &mut self.random, 100_004)?;
        self.wait(Some(xid), "getData", tail)
    }
}

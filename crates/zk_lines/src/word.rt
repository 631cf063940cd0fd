//! `Word`: the fixed words of a line.
ghost use Rattle.std.specs.Prelude.{◌≡◌, ◌++◌, OnOk};
ghost use Rattle.zk_items.specs.Form.{Keeps, Passes, word_at};
ghost use Rattle.zk_lines.specs.Words.{word_of};

use std::alloc::AllocError;
use zk_items::{LineFault, Reader};

/// A fixed word before a field, or a sign.
#[derive(Clone, Copy, Debug, PartialEq, Eq)]
pub enum Word {
    Acl,
    Auth,
    Blank,
    Blob,
    ChildWatches,
    Close,
    Code,
    Colon,
    Comma,
    Config,
    Count,
    DataWatches,
    Err,
    ExistWatches,
    Flags,
    Joining,
    Kind,
    Leaving,
    Members,
    Mode,
    Names,
    Open,
    Parts,
    Passwd,
    Path,
    ReadOnly,
    Scheme,
    Session,
    Stat,
    State,
    Timeout,
    Ttl,
    Version,
    Watch,
    Zxid,
}

/// The word before a field, by the field's name in its record.
macro_rules! field_word {
    (acl) => { Word::Acl };
    (auth) => { Word::Auth };
    (blob) => { Word::Blob };
    (child_watches) => { Word::ChildWatches };
    (code) => { Word::Code };
    (config) => { Word::Config };
    (count) => { Word::Count };
    (data_watches) => { Word::DataWatches };
    (exist_watches) => { Word::ExistWatches };
    (flags) => { Word::Flags };
    (joining) => { Word::Joining };
    (kind) => { Word::Kind };
    (last_zxid_seen) => { Word::Zxid };
    (leaving) => { Word::Leaving };
    (members) => { Word::Members };
    (mode) => { Word::Mode };
    (names) => { Word::Names };
    (passwd) => { Word::Passwd };
    (path) => { Word::Path };
    (protocol_version) => { Word::Version };
    (scheme) => { Word::Scheme };
    (session_id) => { Word::Session };
    (stat) => { Word::Stat };
    (state) => { Word::State };
    (time_out) => { Word::Timeout };
    (ttl) => { Word::Ttl };
    (version) => { Word::Version };
    (watch) => { Word::Watch };
    (zxid) => { Word::Zxid };
}

pub(crate) use field_word;

/// The bytes of a word.
#[inline(always)]
#[tactic(auto, unfolding(crate::specs::Words::word_of))]
pub fn word_bytes(word: Word) -> &'static [u8]
    ensures { result.now ≡ word_of word }
{
    match word {
        Word::Acl => b" acl=",
        Word::Auth => b" auth=",
        Word::Blank => b" ",
        Word::Blob => b" blob=",
        Word::ChildWatches => b" childWatches=",
        Word::Close => b")",
        Word::Code => b" code=",
        Word::Colon => b":",
        Word::Comma => b",",
        Word::Config => b" config=",
        Word::Count => b" count=",
        Word::DataWatches => b" dataWatches=",
        Word::Err => b" err=",
        Word::ExistWatches => b" existWatches=",
        Word::Flags => b" flags=",
        Word::Joining => b" joining=",
        Word::Kind => b" kind=",
        Word::Leaving => b" leaving=",
        Word::Members => b" members=",
        Word::Mode => b" mode=",
        Word::Names => b" names=",
        Word::Open => b"(",
        Word::Parts => b" {",
        Word::Passwd => b" passwd=",
        Word::Path => b" path=",
        Word::ReadOnly => b" ro=",
        Word::Scheme => b" scheme=",
        Word::Session => b" session=",
        Word::Stat => b" stat=",
        Word::State => b" state=",
        Word::Timeout => b" timeout=",
        Word::Ttl => b" ttl=",
        Word::Version => b" version=",
        Word::Watch => b" watch=",
        Word::Zxid => b" zxid=",
    }
}

/// Appends a fixed word.
#[inline(always)]
pub fn put_word(out: &mut Vec<u8>, word: Word) -> Result<(), AllocError>
    ensures spelled { OnOk result (out.new.items ≡ out.old.items ++ word_of word) }
    ensures keeps { Keeps out.old.items out.new.items }
{
    out.extend_from_slice(word_bytes(word))
}

/// Passes `word`, if it comes next; else returns the fault.
#[inline(always)]
pub fn read_word(line: &mut Reader<'_>, word: Word) -> Result<(), LineFault>
    ensures { Passes result line.new (word_at (word_of word) line.old) }
{
    line.literal(word_bytes(word))
}

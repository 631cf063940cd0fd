//! `Reader`: a line, read from left to right, item by item.
ghost use Rattle.std.specs.Prelude.{◌≡◌, ◌↔◌, ◌*◌, ◌<◌, ◌≤◌, IsTrue, [], length, take, drop, MatchBool, IfErr, Some, None};
ghost use Rattle.std.specs.List.{AllByRecursion, flat_map, prefix_len};
ghost use Rattle.zk_items.specs.{Form.Gives, Form.Keeps, Form.Passes, Form.word_at, Codes.is_next, Many.GivesMore, Many.many_at};
ghost use Rattle.zk_items.specs.Leaf.{in_name, in_word, is_plain, num_at, bit_at, ro_at, symbol_at, symbol_spell};

use crate::append::append_first;
use crate::decimal::{int_ahead, long_ahead};
use crate::escape::block_of;
use crate::fault::{LineFault, LineReason};
use crate::number::{int_of, letters_len, long_of, name_len, number_len};
use crate::plain::plain_len;
use crate::text_byte::{hex_value, is_plain};
use crate::unescape::escapes_in;
use std::marker::Model;
use std::simd::prelude::*;

/// The bytes of three escapes; where fewer are ahead, they are read one by one.
const RUN: usize = 9;

/// `number!(self, ahead, of)` reads a number: by `ahead`, or else by `of` of its run.
macro_rules! number {
    ($line:ident, $ahead:ident, $of:ident) => {{
        if let Some((n, len)) = $ahead($line.ahead) {
            $line.ahead = &$line.ahead[len..];
            return Ok(n);
        }
        let (run, rest) = $line.ahead.split_at(number_len($line.ahead));
        let Some(n) = $of(run) else {
            return Err($line.fault(LineReason::Number));
        };
        $line.ahead = rest;
        Ok(n)
    }};
}

/// What is left of a line.
#[derive(Drop)]
pub struct Reader<'a> {
    whole: usize,
    pub(crate) ahead: &'a [u8],
}

impl<'a> Model for Reader<'a> {
    ghost use Rattle.std.specs.Prelude.{List, ℕ};

    ghost Value = { List ℕ };

    ghost view = { λ a. a.ahead.now };
}

impl<'a> Reader<'a> {
    /// A reader at the beginning of `line`.
    pub fn new(line: &'a [u8]) -> Self
        ensures { result ≡ line.now }
    {
        Reader {
            whole: line.len(),
            ahead: line,
        }
    }

    /// The fault of the next item: its column, and `reason`.
    pub fn fault(&self, reason: LineReason) -> LineFault
        ensures { result.reason ≡ reason }
    {
        let column = self
            .whole
            .saturating_sub(self.ahead.len())
            .saturating_add(1);
        LineFault {
            column: u32::try_from(column).unwrap_or(u32::MAX),
            reason,
        }
    }

    /// The number of bytes that are left.
    pub fn left(&self) -> usize
        ensures { result ≡ length self.now }
    {
        self.ahead.len()
    }

    /// Whether the line has ended.
    pub fn is_done(&self) -> bool
        ensures { IsTrue result ↔ (self.now ≡ []) }
    {
        self.ahead.is_empty()
    }

    /// Whether `sign` is the next byte.
    pub fn is_next(&self, sign: u8) -> bool
        ensures { result ≡ is_next sign self.now }
    {
        self.ahead.first() == Some(&sign)
    }

    /// Passes the longest run of letters and digits, which may be empty, and returns it.
    pub fn name(&mut self) -> &'a [u8]
        ensures name { result.now ≡ take (prefix_len in_name self.old) self.old }
        ensures rest { self.new ≡ drop (prefix_len in_name self.old) self.old }
    {
        let (name, rest) = self.ahead.split_at(name_len(self.ahead));
        self.ahead = rest;
        name
    }

    /// The longest run of letters that comes next; passes nothing.
    pub fn letters(&self) -> &'a [u8]
        ensures { result.now ≡ take (prefix_len in_word self.now) self.now }
    {
        &self.ahead[..letters_len(self.ahead)]
    }

    /// Passes `word`, if it comes next; else returns the fault `Word`.
    #[inline(always)]
    pub fn literal(&mut self, word: &[u8]) -> Result<(), LineFault>
        ensures read { Passes result self.new (word_at word.now self.old) }
        ensures none { IfErr result (λ e. (word_at word.now self.old ≡ None) × (self.new ≡ self.old)) }
    {
        match self.ahead.strip_prefix(word) {
            Some(rest) => {
                self.ahead = rest;
                Ok(())
            }
            None => Err(self.fault(LineReason::Word)),
        }
    }

    /// Passes `word` and returns true, if it comes next.
    #[inline(always)]
    pub fn passes(&mut self, word: &[u8]) -> bool
        ensures { MatchBool result (word_at word.now self.old ≡ Some self.new) ((word_at word.now self.old ≡ None) × (self.new ≡ self.old)) }
    {
        self.literal(word).is_ok()
    }

    /// Reads a bit: `0` or `1`.
    #[tactic(auto, unfolding(crate::specs::Leaf::bit_at))]
    pub fn bit(&mut self) -> Result<bool, LineFault>
        ensures { Gives result self.new (bit_at self.old) }
    {
        let Some((first, rest)) = self.ahead.split_first() else {
            return Err(self.fault(LineReason::Word));
        };
        let value = match *first {
            b'0' => false,
            b'1' => true,
            _ => return Err(self.fault(LineReason::Word)),
        };
        self.ahead = rest;
        Ok(value)
    }

    /// Reads a bit, or `-` for none.
    #[tactic(auto, unfolding(crate::specs::Leaf::ro_at))]
    pub fn read_only(&mut self) -> Result<Option<bool>, LineFault>
        ensures { Gives result self.new (ro_at self.old) }
    {
        let Some((first, rest)) = self.ahead.split_first() else {
            return Err(self.fault(LineReason::Word));
        };
        let value = match *first {
            b'-' => None,
            b'0' => Some(false),
            b'1' => Some(true),
            _ => return Err(self.fault(LineReason::Word)),
        };
        self.ahead = rest;
        Ok(value)
    }

    /// Reads an int.
    #[tactic(auto, using(crate::proofs::Numbers::num_of_some, crate::proofs::Numbers::num_none), unfolding(crate::specs::Leaf::num_at))]
    pub fn int(&mut self) -> Result<i32, LineFault>
        ensures { Gives result self.new (num_at 31 self.old) }
    {
        number!(self, int_ahead, int_of)
    }

    /// Reads a long.
    #[tactic(auto, using(crate::proofs::Numbers::num_of_some, crate::proofs::Numbers::num_none), unfolding(crate::specs::Leaf::num_at))]
    pub fn long(&mut self) -> Result<i64, LineFault>
        ensures { Gives result self.new (num_at 63 self.old) }
    {
        number!(self, long_ahead, long_of)
    }

    /// Reads the next byte of a text, `None` at its end; else returns `fault`.
    #[tactic(auto, unfolding(crate::specs::Leaf::symbol_at))]
    fn symbol(&mut self, fault: LineFault) -> Result<Option<u8>, LineFault>
        ensures exact { Gives result self.new (symbol_at self.old) }
    {
        let Some((first, rest)) = self.ahead.split_first() else {
            return Err(fault);
        };
        if *first == b'"' {
            self.ahead = rest;
            return Ok(None);
        }
        if *first == b'\\' {
            let [high, low, rest @ ..] = rest else {
                return Err(fault);
            };
            let (Some(high), Some(low)) = (hex_value(*high), hex_value(*low)) else {
                return Err(fault);
            };
            let byte = 16 * high + low;
            if is_plain(byte) {
                return Err(fault);
            }
            self.ahead = rest;
            return Ok(Some(byte));
        }
        if !is_plain(*first) {
            return Err(fault);
        }
        self.ahead = rest;
        Ok(Some(*first))
    }

    /// Passes the longest run of plain bytes, and returns it.
    pub(crate) fn plain(&mut self) -> &'a [u8]
        ensures run { result.now ≡ take (prefix_len is_plain self.old) self.old }
        ensures rest { self.new ≡ drop (prefix_len is_plain self.old) self.old }
    {
        let (run, rest) = self.ahead.split_at(plain_len(self.ahead));
        self.ahead = rest;
        run
    }

    /// The bytes of the escapes in front, at most five, and how many these are; passes nothing.
    fn escapes(&self) -> (u8x16, usize)
        ensures few { (result.1 ≤ 5) × (3 * result.1 ≤ length self.now) }
        ensures read { take (3 * result.1) self.now ≡ flat_map symbol_spell (take result.1 result.0) }
        ensures bytes { (length result.0 ≡ 16) × AllByRecursion (λ b. b < 256) result.0 }
    {
        let (bytes, found) = escapes_in(block_of(self.ahead));
        (bytes, found.min(self.ahead.len() / 3))
    }

    /// Passes `count` bytes.
    fn pass(&mut self, count: usize)
        requires { count ≤ length self.old }
        ensures { self.new ≡ drop count self.old }
    {
        self.ahead = &self.ahead[count..];
    }

    /// Reads the bytes of a text, up to the sign after it, and appends them; else returns `fault`.
    pub(crate) fn inside(&mut self, fault: LineFault, bytes: &mut Vec<u8>) -> Result<(), LineFault>
        ensures read { GivesMore result self.new bytes.old.items bytes.new.items (many_at symbol_at (length self.old) self.old) }
        ensures keeps { Keeps bytes.old.items bytes.new.items }
    {
        while let Some(first) = self.ahead.first() {
            if is_plain(*first) {
                bytes.extend_from_slice(self.plain())?;
                continue;
            }
            if *first == b'\\' && self.ahead.len() >= RUN {
                let (block, count) = self.escapes();
                if count > 0 {
                    append_first(bytes, block.as_array(), count)?;
                    self.pass(3 * count);
                    continue;
                }
            }
            match self.symbol(fault) {
                Ok(None) => return Ok(()),
                Ok(Some(byte)) => bytes.push(byte)?,
                Err(e) => return Err(e),
            }
        }
        Err(fault)
    }
}

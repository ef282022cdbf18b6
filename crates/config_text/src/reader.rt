//! Reads the tokens of a text.

ghost use Rattle.std.specs.Prelude.{◌≡◌, ◌+◌, ◌<◌, ◌≤◌, ◌^◌, [], ◌∷◌, ℕ, true, false, length, slice_index, IfOk, IfErr, OnOk};
ghost use Rattle.config_text.specs.declared.config.ConfigKind.TheVariants.{BadString, Syntax};
ghost use Rattle.config_text.specs.Tokens.{ahead, escaped, is_in_word, begins_word, is_mark, is_quote, spelled, Between, InString, Word, Quoted};
ghost use Rattle.config_text.specs.Grammar.{Draft, Field, Level, Item, Separated, Opening, once, with_value};
ghost use Rattle.config_text.specs.Config.{sources_from, sources_after, sources_after_value};
ghost use Rattle.config_text.specs.Outcomes.{Carries};
ghost use Rattle.config_text.specs.Drafts.{Shows, LeavesLess};
ghost use Rattle.config_text.specs.Reads.{begins_token, begins_name, begins_string, gap_after, Passes, IsBroken, IsRead};

use crate::config::{ConfigAnswer, ConfigKind};
use std::alloc::Global;
use std::marker::Model;

/// A name in a text, with its offset in bytes.
#[derive(Clone, Copy)]
pub(crate) struct NameAt<'a> {
    pub(crate) at: u64,
    pub(crate) name: &'a [u8],
}

/// The next token of a text, with its offset in bytes.
#[derive(Drop)]
pub(crate) enum Next<'a> {
    /// A name.
    Word(NameAt<'a>),
    /// One of `: { } , ;`.
    Mark(u64, u8),
    /// The end of the text.
    End(u64),
    /// A quote, or a byte that begins no token.
    Other(u64),
}

/// The value of a field, with the offset of its first quote.
#[derive(Drop)]
pub(crate) struct Value {
    pub(crate) at: u64,
    pub(crate) bytes: Vec<u8>,
}

/// The rest of a text, and its offset in the text. The values that are read are made with `alloc`.
#[derive(Drop)]
pub(crate) struct Reader<'a> {
    alloc: Global,
    at: u64,
    rest: &'a [u8],
}

impl<'a> Model for Reader<'a> {
    ghost use Rattle.std.specs.Prelude.{◌+◌, ◌<◌, ◌^◌, length};
    ghost use Rattle.config_text.specs.Tokens.{Place};

    ghost Value = { Place };

    ghost view = { λ r. record { at = r.at; rest = r.rest.now } };

    ghost invariant = { λ r. r.at + length r.rest.now < 2 ^ 64 };
}

/// Returns whether a name can begin with the byte.
fn begins_word(byte: u8) -> bool
    ensures { result ≡ begins_word byte }
{
    byte.is_ascii_alphabetic() || byte == b'_'
}

/// Returns whether the byte is one of `: { } , ;`.
fn is_mark(byte: u8) -> bool
    ensures { result ≡ is_mark byte }
{
    byte == b':' || byte == b'{' || byte == b'}' || byte == b',' || byte == b';'
}

/// Returns the byte that an escape is replaced by. `byte` is the one after the backslash.
fn unescape(byte: u8) -> Option<u8>
    ensures { result ≡ escaped byte }
{
    match byte {
        b'n' => Some(b'\n'),
        b'r' => Some(b'\r'),
        b't' => Some(b'\t'),
        b'\\' | b'"' | b'\'' => Some(byte),
        _ => None,
    }
}

/// Returns whether the bytes after this one are in a comment. `None` if the byte is part of a token.
fn gap_after(in_comment: bool, byte: u8) -> Option<bool>
    ensures { result ≡ gap_after in_comment byte }
{
    if in_comment {
        return Some(byte != b'\n');
    }
    match byte {
        b'#' => Some(true),
        b' ' | b'\t' | b'\r' | b'\n' => Some(false),
        _ => None,
    }
}

/// Returns how many of the first bytes belong to a name.
fn word_len(bytes: &[u8]) -> usize
    ensures within { result ≤ length bytes.now }
    ensures inside { (k : ℕ) → k < result → is_in_word (slice_index bytes.now k) ≡ true }
    ensures end { result < length bytes.now → is_in_word (slice_index bytes.now result) ≡ false }
{
    for (i, byte) in bytes.iter().enumerate() {
        if !begins_word(*byte) && !byte.is_ascii_digit() {
            return i;
        }
    }
    bytes.len()
}

/// Reads the string at offset `start`, from the byte after its quote on. Returns its value, and the reader
/// after it.
fn parse_string(
    alloc: Global,
    quote: u8,
    start: u64,
    bytes: &[u8],
) -> Result<(Vec<u8>, u64, &[u8]), ConfigAnswer>
    requires fits { start + 1 + length bytes.now < 2 ^ 64 }
    requires quote { is_quote quote ≡ true }
    ensures ok { IfOk result (λ r. IsRead quote start bytes.now r.0.items r.1 r.2.now) }
    ensures bad { IfErr result
        (IsBroken start (spelled bytes.now (InString quote start []) (start + 1))) }
{
    let mut value = Vec::new(alloc);
    let mut at = start + 1;
    let mut rest = bytes;
    'bytes: loop {
        match rest {
            [byte, after @ ..] if *byte == quote => return Ok((value, at + 1, after)),
            [b'\\', code, after @ ..] => {
                let Some(byte) = unescape(*code) else {
                    return Err(ConfigAnswer::Bad(ConfigKind::BadString, start));
                };
                value.push(byte)?;
                rest = after;
                at += 2;
            }
            [] | [b'\\'] | [b'\n', ..] => return Err(ConfigAnswer::Bad(
                ConfigKind::BadString,
                start,
            )),
            [byte, after @ ..] => {
                value.push(*byte)?;
                rest = after;
                at += 1;
            }
        }
    }
}

impl<'a> Reader<'a> {
    /// Returns a reader of the whole text.
    pub(crate) fn new(alloc: Global, text: &'a [u8]) -> Reader<'a>
        ensures { result ≡ record { at = 0; rest = text.now } }
    {
        Reader {
            alloc,
            at: 0,
            rest: text,
        }
    }

    /// Returns the allocator with which values are made.
    pub(crate) fn alloc(&self) -> Global {
        self.alloc
    }

    /// Skips blanks and comments.
    fn skip_gap(&mut self)
        ensures same { spelled self.new.rest Between self.new.at
            ≡ spelled self.old.rest Between self.old.at }
        ensures left { length self.new.rest ≤ length self.old.rest }
        ensures begins { begins_token self.new.rest ≡ true }
    {
        let mut at = self.at;
        let mut rest = self.rest;
        let mut in_comment = false;
        'gap: while let [byte, after @ ..] = rest {
            let Some(next) = gap_after(in_comment, *byte) else {
                break;
            };
            in_comment = next;
            rest = after;
            at += 1;
        }
        self.at = at;
        self.rest = rest;
    }

    /// Skips the mark `byte`, and returns whether it is the next token.
    fn mark(&mut self, byte: u8) -> bool
        requires { is_mark byte ≡ true }
        ensures passes { Passes byte result self.old self.new }
        ensures left { length self.new.rest ≤ length self.old.rest }
    {
        self.skip_gap();
        match self.rest {
            [first, rest @ ..] if *first == byte => {
                self.at += 1;
                self.rest = rest;
                true
            }
            _ => false,
        }
    }

    /// Skips a separator, if it is the next token.
    pub(crate) fn skip_separator(&mut self)
        ensures separated { (level : Level) (d : Draft)
            → sources_from (ahead self.old) (Separated level) d
            ≡ sources_from (ahead self.new) (Item level) d }
        ensures left { length self.new.rest ≤ length self.old.rest }
    {
        if !self.mark(b',') {
            self.mark(b';');
        }
    }

    /// Skips the opening brace of a block, and a colon before it.
    pub(crate) fn open_block(&mut self) -> Result<(), ConfigAnswer>
        ensures opened { (level : Level) (d : Draft) → Carries result
            (sources_from (ahead self.old) (Opening level) d)
            (λ _. sources_from (ahead self.new) (Item level) d) }
        ensures left { length self.new.rest ≤ length self.old.rest }
    {
        self.mark(b':');
        if !self.mark(b'{') {
            return Err(ConfigAnswer::Bad(ConfigKind::Syntax, self.at));
        }
        Ok(())
    }

    /// Reads the name at the start of the rest.
    fn word(&mut self) -> &'a [u8]
        requires { begins_name self.old.rest ≡ true }
        ensures word { ahead self.old ≡ (self.old.at, Word result.now) ∷ ahead self.new }
        ensures left { length self.new.rest < length self.old.rest }
    {
        let len = word_len(self.rest);
        let (name, rest) = self.rest.split_at(len);
        self.at += len as u64;
        self.rest = rest;
        name
    }

    /// Returns the next token and moves past it. A quote is not skipped, and neither is a byte that begins
    /// no token.
    pub(crate) fn next(&mut self) -> Next<'a>
        ensures shows { Shows result self.old self.new }
        ensures left { LeavesLess result self.old self.new }
    {
        self.skip_gap();
        let at = self.at;
        match self.rest {
            [] => Next::End(at),
            [byte, rest @ ..] if is_mark(*byte) => {
                self.at += 1;
                self.rest = rest;
                Next::Mark(at, *byte)
            }
            [byte, ..] if begins_word(*byte) => Next::Word(NameAt {
                at,
                name: self.word(),
            }),
            _ => Next::Other(at),
        }
    }

    /// Reads the string at the start of the rest.
    fn string(&mut self) -> Result<Vec<u8>, ConfigAnswer>
        requires { begins_string self.old.rest ≡ true }
        ensures ok { IfOk result (λ v. spelled self.old.rest Between self.old.at
            ≡ (self.old.at, Quoted v.items) ∷ spelled self.new.rest Between self.new.at) }
        ensures bad { IfErr result
            (IsBroken self.old.at (spelled self.old.rest Between self.old.at)) }
        ensures left { OnOk result (length self.new.rest < length self.old.rest) }
    {
        let start = self.at;
        match self.rest {
            [quote, rest @ ..] => {
                let (value, at, rest) = parse_string(self.alloc, *quote, start, rest)?;
                self.at = at;
                self.rest = rest;
                Ok(value)
            }
            [] => Err(ConfigAnswer::Bad(ConfigKind::BadString, start)),
        }
    }

    /// Returns whether the rest begins with a string.
    fn is_at_quote(&self) -> bool
        ensures { result ≡ begins_string self.now.rest }
    {
        match self.rest {
            [byte, ..] => *byte == b'"' || *byte == b'\'',
            [] => false,
        }
    }

    /// Reads consecutive strings, and returns them concatenated.
    fn strings(&mut self) -> Result<Vec<u8>, ConfigAnswer>
        requires { begins_string self.old.rest ≡ true }
        ensures ok { IfOk result (λ v. ahead self.old
            ≡ (self.old.at, Quoted v.items) ∷ ahead self.new) }
        ensures bad { IfErr result (IsBroken self.old.at (ahead self.old)) }
        ensures left { OnOk result (length self.new.rest ≤ length self.old.rest) }
    {
        let mut value = self.string()?;
        self.skip_gap();
        'strings: while self.is_at_quote() {
            let more = self.string()?;
            value.extend_from_slice(more.as_slice())?;
            self.skip_gap();
        }
        Ok(value)
    }

    /// Reads the colon and the value of a field, after its name at offset `at`. RepeatedField if the field
    /// is given already.
    pub(crate) fn value(&mut self, at: u64, is_given: bool) -> Result<Value, ConfigAnswer>
        ensures value { (field : Field) (d : Draft) → Carries result
            (sources_after (ahead self.old) (once is_given field d at))
            (λ v. sources_after_value (ahead self.new) field
            (with_value field d v.at v.bytes.items)) }
        ensures left { OnOk result (length self.new.rest ≤ length self.old.rest) }
    {
        if is_given {
            return Err(ConfigAnswer::Bad(ConfigKind::RepeatedField, at));
        }
        if !self.mark(b':') {
            return Err(ConfigAnswer::Bad(ConfigKind::Syntax, self.at));
        }
        self.skip_gap();
        let at = self.at;
        if !self.is_at_quote() {
            return Err(ConfigAnswer::Bad(ConfigKind::Syntax, at));
        }
        let bytes = self.strings()?;
        Ok(Value { at, bytes })
    }
}

//! A window of a file, and a position in it.

ghost use Rattle.std.specs.Prelude.{◌≡◌, ◌+◌, ◌-◌, ◌^◌, ◌<◌, ◌≤◌, length, is_ok, IfOk, OnErr, drop};
ghost use Rattle.std.specs.Int.{w8, w16, w32, w64};
ghost use Rattle.size_core.specs.declared.fault.Fault.TheVariants.{Truncated};
ghost use Rattle.size_core.specs.Checks.{Gives};
ghost use Rattle.byte_cursor.specs.declared.order.Order.TheVariants.{Little};
ghost use Rattle.byte_cursor.specs.Window.{place_of, moved};
ghost use Rattle.byte_cursor.specs.Numbers.{num, uleb, sleb, text};
ghost use Rattle.byte_cursor.specs.Reads.{whole, unsigned_value, signed_value, leb_len, sub_window, skipped};

use crate::leb::{last_digit, signed, unsigned};
use crate::numbers::{text_at, u16_at, u32_at, u64_at};
use crate::order::Order;
use size_core::{BadFile, Fault};
use std::marker::Model;

/// A window of a file, and a position in it. `base` is the file offset of the window's first byte, and `at`
/// is the number of bytes of the window before the position.
///
/// Each fault has the file offset of the position at the start of the call. After a fault the cursor is
/// unchanged.
#[derive(Drop)]
pub struct Cursor<'a> {
    base: u64,
    bytes: &'a [u8],
    at: u64,
}

impl<'a> Model for Cursor<'a> {
    ghost use Rattle.std.specs.Prelude.{length};
    ghost use Rattle.byte_cursor.specs.Window.{Window, IsInFile};

    ghost Value = { Window };

    ghost view = { λ c. record { base = c.base; bytes = c.bytes.now; at = c.at } };

    ghost invariant = { λ c. IsInFile c.base (length c.bytes.now) c.at };
}

impl<'a> Cursor<'a> {
    /// Returns a cursor at the start of a window. `bytes` are the bytes of the window, and `base` is the
    /// file offset of the first.
    pub fn new(base: u64, bytes: &'a [u8]) -> Cursor<'a>
        requires { base + length bytes.now < 2 ^ 63 }
        ensures { result ≡ record { base = base; bytes = bytes.now; at = 0 } }
    {
        Cursor { base, bytes, at: 0 }
    }

    /// Returns a cursor over the same window, at the same position.
    pub fn fork(&self) -> Cursor<'a>
        ensures { result ≡ self.now }
    {
        Cursor {
            base: self.base,
            bytes: self.bytes,
            at: self.at,
        }
    }

    /// Returns the file offset of the position.
    pub fn place(&self) -> u64
        ensures value { result ≡ place_of self.now }
        ensures fits { result < 2 ^ 63 }
    {
        self.base + self.at
    }

    /// Returns how many bytes of the window follow the position.
    pub fn left(&self) -> u64
        ensures value { result + self.now.at ≡ length self.now.bytes }
        ensures fits { place_of self.now + result < 2 ^ 63 }
    {
        self.bytes.len() as u64 - self.at
    }

    /// Returns the bytes of the window that follow the position.
    pub fn rest(&self) -> &'a [u8]
        ensures { result.now ≡ drop self.now.at self.now.bytes }
    {
        &self.bytes[self.at as usize..]
    }

    /// Returns a fault at the position.
    fn fault(&self, fault: Fault) -> BadFile
        ensures { result ≡ record { fault = fault; offset = place_of self.now } }
    {
        BadFile {
            fault,
            offset: self.place(),
        }
    }

    /// Returns a cursor at the start of a window of `len` bytes, from byte `start` of this window on.
    /// Truncated if these bytes don't lie in this window.
    pub fn sub(&self, start: u64, len: u64) -> Result<Cursor<'a>, BadFile>
        ensures { result ≡ sub_window self.now start len }
    {
        let size = self.bytes.len() as u64;
        if size < start || size - start < len {
            return Err(self.fault(Fault::Truncated));
        }
        let bytes = &self.bytes[start as usize..(start + len) as usize];
        Ok(Cursor {
            base: self.base + start,
            bytes,
            at: 0,
        })
    }

    /// Returns a cursor over the next `len` bytes, and moves past them. Truncated if fewer are left.
    pub fn take(&mut self, len: u64) -> Result<Cursor<'a>, BadFile>
        ensures value { result ≡ sub_window self.old self.old.at len }
        ensures after { self.new ≡ moved self.old (is_ok result) len }
    {
        let window = self.sub(self.at, len)?;
        self.at += len;
        Ok(window)
    }

    /// Moves past `count` bytes. Truncated if fewer are left.
    pub fn skip(&mut self, count: u64) -> Result<(), BadFile>
        ensures value { result ≡ skipped self.old count }
        ensures after { self.new ≡ moved self.old (is_ok result) count }
    {
        if self.left() < count {
            return Err(self.fault(Fault::Truncated));
        }
        self.at += count;
        Ok(())
    }

    /// Reads one byte. Truncated if none is left.
    #[tactic(auto, unfolding(crate::specs::Numbers::field))]
    pub fn u8(&mut self) -> Result<u8, BadFile>
        ensures value { result
            ≡ whole (num self.old.bytes self.old.at w8 Little) (place_of self.old) }
        ensures after { self.new ≡ moved self.old (is_ok result) 1 }
    {
        if self.left() < 1 {
            return Err(self.fault(Fault::Truncated));
        }
        let rest = self.rest();
        let value = rest[0];
        self.at += 1;
        Ok(value)
    }

    /// Reads a number of two bytes. Truncated if fewer are left.
    pub fn u16(&mut self, order: Order) -> Result<u16, BadFile>
        ensures value { result
            ≡ whole (num self.old.bytes self.old.at w16 order) (place_of self.old) }
        ensures after { self.new ≡ moved self.old (is_ok result) 2 }
    {
        if self.left() < 2 {
            return Err(self.fault(Fault::Truncated));
        }
        let value = u16_at(self.bytes, self.at as usize, order);
        self.at += 2;
        Ok(value)
    }

    /// Reads a number of four bytes. Truncated if fewer are left.
    pub fn u32(&mut self, order: Order) -> Result<u32, BadFile>
        ensures value { result
            ≡ whole (num self.old.bytes self.old.at w32 order) (place_of self.old) }
        ensures after { self.new ≡ moved self.old (is_ok result) 4 }
    {
        if self.left() < 4 {
            return Err(self.fault(Fault::Truncated));
        }
        let value = u32_at(self.bytes, self.at as usize, order);
        self.at += 4;
        Ok(value)
    }

    /// Reads a number of eight bytes. Truncated if fewer are left.
    pub fn u64(&mut self, order: Order) -> Result<u64, BadFile>
        ensures value { result
            ≡ whole (num self.old.bytes self.old.at w64 order) (place_of self.old) }
        ensures after { self.new ≡ moved self.old (is_ok result) 8 }
    {
        if self.left() < 8 {
            return Err(self.fault(Fault::Truncated));
        }
        let value = u64_at(self.bytes, self.at as usize, order);
        self.at += 8;
        Ok(value)
    }

    /// Reads an unsigned LEB128 number of any length (DWARF 5, section 7.6). Truncated if no byte with a
    /// clear top bit is left, and BadLeb if there is one and the number is above 2^64 - 1.
    pub fn uleb(&mut self) -> Result<u64, BadFile>
        ensures value { result
            ≡ unsigned_value (uleb self.old.bytes self.old.at) (place_of self.old) }
        ensures after { self.new
            ≡ moved self.old (is_ok result) (leb_len (uleb self.old.bytes self.old.at)) }
    {
        let rest = self.rest();
        let Some(last) = last_digit(rest) else {
            return Err(self.fault(Fault::Truncated));
        };
        let Some(value) = unsigned(rest, last) else {
            return Err(self.fault(Fault::BadLeb));
        };
        self.at += last as u64 + 1;
        Ok(value)
    }

    /// Reads a signed LEB128 number of any length (DWARF 5, section 7.6). Truncated if no byte with a
    /// clear top bit is left, and BadLeb if there is one and the number is below -2^63 or above 2^63 -
    /// 1.
    pub fn sleb(&mut self) -> Result<i64, BadFile>
        ensures value { result
            ≡ signed_value (sleb self.old.bytes self.old.at) (place_of self.old) }
        ensures after { self.new
            ≡ moved self.old (is_ok result) (leb_len (sleb self.old.bytes self.old.at)) }
    {
        let rest = self.rest();
        let Some(last) = last_digit(rest) else {
            return Err(self.fault(Fault::Truncated));
        };
        let Some(value) = signed(rest, last) else {
            return Err(self.fault(Fault::BadLeb));
        };
        self.at += last as u64 + 1;
        Ok(value)
    }

    /// Returns the bytes before the next zero byte, and moves past that byte. Truncated if there is no
    /// zero byte.
    #[tactic(auto, unfolding(crate::specs::Numbers::text))]
    pub fn cstr(&mut self) -> Result<&'a [u8], BadFile>
        ensures value { Gives (λ t. t.now) result
            (whole (text self.old.bytes self.old.at) (place_of self.old)) }
        ensures after { IfOk result (λ t. self.new
            ≡ record self.old { at = self.old.at + length t.now + 1 }) }
        ensures same { OnErr result (self.new ≡ self.old) }
    {
        let Some(text) = text_at(self.bytes, self.at as usize) else {
            return Err(self.fault(Fault::Truncated));
        };
        self.at += text.len() as u64 + 1;
        Ok(text)
    }
}

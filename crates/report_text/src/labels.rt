//! The labels of rows in reports.

ghost use Rattle.std.specs.Prelude.{◌≡◌, ◌++◌, ◌<◌, length, OnOk};
ghost use Rattle.report_text.specs.Labels.{others_text, ends, shortened, escaped, escaped_byte, kind_of, label_text, hex_digit};

use crate::pieces::push;
use crate::rows::Name;
use itoa::Buffer;
use size_core::NoMemory;
use std::alloc::Global;

// The most bytes of a text that isn't shortened.
const MOST_BYTES: usize = 60;

// How many bytes of a shortened text are before the mark `[...]`.
const FIRST_BYTES: usize = 28;

// How many bytes of a shortened text are after the mark.
const LAST_BYTES: usize = 27;

// A hexadecimal digit.
fn hex_digit(digit: u8) -> u8
    requires { digit < 16 }
    ensures { result ≡ hex_digit digit }
{
    if digit < 10 {
        b'0' + digit
    } else {
        b'a' - 10 + digit
    }
}

// Appends a byte. A control byte is escaped.
fn push_byte(out: &mut Vec<u8>, byte: u8) -> Result<(), NoMemory>
    ensures { OnOk result (out.new.items ≡ out.old.items ++ escaped_byte byte) }
{
    if byte < 0x20 || byte == 0x7f {
        let digits = [b'\\', b'x', hex_digit(byte / 16), hex_digit(byte % 16)];
        return push(out, &digits);
    }
    push(out, &[byte])
}

// Appends a text. Its control bytes are escaped.
fn push_escaped(out: &mut Vec<u8>, text: &[u8]) -> Result<(), NoMemory>
    ensures { OnOk result (out.new.items ≡ out.old.items ++ escaped text.now) }
{
    for byte in text {
        push_byte(out, *byte)?;
    }
    Ok(())
}

// Appends the first 28 bytes of a text, `[...]`, and its last 27 bytes.
fn push_ends(out: &mut Vec<u8>, text: &[u8]) -> Result<(), NoMemory>
    requires { 60 < length text.now }
    ensures { OnOk result (out.new.items ≡ out.old.items ++ escaped (ends text.now)) }
{
    push_escaped(out, &text[..FIRST_BYTES])?;
    push_escaped(out, b"[...]")?;
    push_escaped(out, &text[text.len() - LAST_BYTES..])?;
    Ok(())
}

/// Appends a text. It is shortened unless `wide`.
pub fn push_shortened(out: &mut Vec<u8>, text: &[u8], wide: bool) -> Result<(), NoMemory>
    ensures { OnOk result (out.new.items ≡ out.old.items ++ escaped (shortened wide text.now)) }
{
    if wide || text.len() <= MOST_BYTES {
        return push_escaped(out, text);
    }
    push_ends(out, text)
}

/// Appends the text for labels that a limit leaves out.
#[tactic(auto, unfolding(crate::specs::Labels::others_text))]
pub fn push_others(out: &mut Vec<u8>, count: u64) -> Result<(), NoMemory>
    ensures { OnOk result (out.new.items ≡ out.old.items ++ others_text count) }
{
    let mut buffer = Buffer::new();
    push(out, b"[")?;
    push(out, buffer.format(count).as_bytes())?;
    push(out, b" Others]")
}

/// Appends the label of a row, as a line shows it.
pub fn push_label(alloc: Global, out: &mut Vec<u8>, name: Name, wide: bool) -> Result<(), NoMemory>
    ensures { OnOk result (out.new.items ≡ out.old.items ++ label_text wide (kind_of name.entry)) }
{
    match name {
        Name::Label(label) => push_shortened(out, label, wide),
        Name::Others(count) => {
            let mut others = Vec::new(alloc);
            push_others(&mut others, count)?;
            push_shortened(out, others.as_slice(), wide)
        }
    }
}

//! The contents of the sections of a synthetic file.

ghost use Rattle.std.specs.Prelude.{◌≡◌, ◌≤◌, ◌++◌, ◌+◌, ◌*◌, ◌/◌, ◌%◌, ◌<◌, OnOk};
ghost use Rattle.elf_synth.specs.Contents.{text, function_symbol, symbols, function_name, strings, section_names};

use crate::layout::{FUNCTION_LEN, NAME_LEN, SECTION_NAMES, TEXT_ADDRESS};
use crate::numbers::push_zeros;
use crate::records::{SYMBOL_LEN, Symbol, push_symbol};
use size_core::NoMemory;

/// Adds the code of `n` functions: byte `j` of it is `j` modulo 256.
#[tactic(auto, unfolding(crate::specs::Contents::text), using(crate::proofs::Rows::next_item))]
pub fn push_text(out: &mut Vec<u8>, n: u32) -> Result<(), NoMemory>
    requires { n ≤ 1_000_000 }
    ensures { OnOk result (out.new.items ≡ out.old.items ++ text n) }
{
    for j in 0..FUNCTION_LEN as u32 * n {
        out.push((j % 256) as u8)?;
    }
    Ok(())
}

// Adds symbol `k` of `n`. The last function comes first.
#[tactic(auto, unfolding(crate::specs::Contents::function_symbol))]
fn push_function_symbol(out: &mut Vec<u8>, n: u32, k: u32) -> Result<(), NoMemory>
    requires { (k ≤ n) × (n ≤ 1_000_000) }
    ensures { OnOk result (out.new.items ≡ out.old.items ++ function_symbol n k) }
{
    let function = n - k;
    let symbol = Symbol {
        name: 1 + NAME_LEN as u32 * function,
        section: 1,
        value: TEXT_ADDRESS + FUNCTION_LEN * u64::from(function),
        size: FUNCTION_LEN + 8 * u64::from(k % 2),
    };
    push_symbol(out, symbol)
}

/// Adds the symbol table: the null symbol, and one symbol for each function.
#[tactic(auto, unfolding(crate::specs::Contents::symbols), using(crate::proofs::Rows::next_row))]
pub fn push_symbols(out: &mut Vec<u8>, n: u32) -> Result<(), NoMemory>
    requires { n ≤ 1_000_000 }
    ensures { OnOk result (out.new.items ≡ out.old.items ++ symbols n) }
{
    push_zeros(out, SYMBOL_LEN)?;
    for k in 1..n + 1 {
        push_function_symbol(out, n, k)?;
    }
    Ok(())
}

// Adds the name of function `k`.
#[tactic(auto, unfolding(crate::specs::Contents::function_name))]
fn push_function_name(out: &mut Vec<u8>, k: u32) -> Result<(), NoMemory>
    ensures { OnOk result (out.new.items ≡ out.old.items ++ function_name k) }
{
    let name = [
        b'f',
        b'0' + (k / 1_000_000 % 10) as u8,
        b'0' + (k / 100_000 % 10) as u8,
        b'0' + (k / 10_000 % 10) as u8,
        b'0' + (k / 1_000 % 10) as u8,
        b'0' + (k / 100 % 10) as u8,
        b'0' + (k / 10 % 10) as u8,
        b'0' + (k % 10) as u8,
        0,
    ];
    out.extend_from_slice(&name)?;
    Ok(())
}

/// Adds the names of `n` functions.
#[tactic(auto, unfolding(crate::specs::Contents::strings), using(crate::proofs::Rows::next_row))]
pub fn push_strings(out: &mut Vec<u8>, n: u32) -> Result<(), NoMemory>
    requires { n ≤ 1_000_000 }
    ensures { OnOk result (out.new.items ≡ out.old.items ++ strings n) }
{
    out.extend_from_slice(b"\0")?;
    for k in 1..n + 1 {
        push_function_name(out, k)?;
    }
    Ok(())
}

/// Adds the names of the sections.
#[tactic(auto, unfolding(crate::specs::Contents::section_names))]
pub fn push_section_names(out: &mut Vec<u8>) -> Result<(), NoMemory>
    ensures { OnOk result (out.new.items ≡ out.old.items ++ section_names) }
{
    out.extend_from_slice(SECTION_NAMES)?;
    Ok(())
}

//! Writes little-endian numbers to the end of a file (ELF gABI, Data Representation).

ghost use Rattle.std.specs.Prelude.{◌≡◌, ◌++◌, OnOk};
ghost use Rattle.elf_synth.specs.Records.{half, word, xword, zeros};

use size_core::NoMemory;

/// Adds zero bytes.
#[tactic(auto, unfolding(crate::specs::Records::zeros))]
pub fn push_zeros(out: &mut Vec<u8>, count: u8) -> Result<(), NoMemory>
    ensures { OnOk result (out.new.items ≡ out.old.items ++ zeros count) }
{
    let len = out.len() + usize::from(count);
    out.resize(len, 0)?;
    Ok(())
}

/// Adds a number of two bytes.
#[tactic(auto, unfolding(crate::specs::Records::half))]
pub fn push_u16(out: &mut Vec<u8>, number: u16) -> Result<(), NoMemory>
    ensures { OnOk result (out.new.items ≡ out.old.items ++ half number) }
{
    out.extend_from_slice(&number.to_le_bytes())?;
    Ok(())
}

/// Adds a number of four bytes.
#[tactic(auto, unfolding(crate::specs::Records::word))]
pub fn push_u32(out: &mut Vec<u8>, number: u32) -> Result<(), NoMemory>
    ensures { OnOk result (out.new.items ≡ out.old.items ++ word number) }
{
    out.extend_from_slice(&number.to_le_bytes())?;
    Ok(())
}

/// Adds a number of eight bytes.
#[tactic(auto, unfolding(crate::specs::Records::xword))]
pub fn push_u64(out: &mut Vec<u8>, number: u64) -> Result<(), NoMemory>
    ensures { OnOk result (out.new.items ≡ out.old.items ++ xword number) }
{
    out.extend_from_slice(&number.to_le_bytes())?;
    Ok(())
}

//! Appending bytes to a text.

ghost use Rattle.std.specs.Prelude.{◌≡◌, ◌++◌, OnOk, OnErr};
ghost use Rattle.report_text.specs.Numbers.{right, spaces};

use size_core::NoMemory;

/// Appends bytes.
pub fn push(out: &mut Vec<u8>, bytes: &[u8]) -> Result<(), NoMemory>
    ensures { OnOk result (out.new.items ≡ out.old.items ++ bytes.now) }
{
    out.extend_from_slice(bytes)?;
    Ok(())
}

/// Appends a text. If `out` is empty, it takes over the text without a copy. If memory runs out, `out` is unchanged.
pub fn push_text(out: &mut Vec<u8>, text: Vec<u8>) -> Result<(), NoMemory>
    ensures ok { OnOk result (out.new.items ≡ out.old.items ++ text.items) }
    ensures err { OnErr result (out.new.items ≡ out.old.items) }
{
    if out.is_empty() {
        *out = text;
        return Ok(());
    }
    out.extend_from_slice(text.as_slice())?;
    Ok(())
}

/// Appends `count` spaces.
pub fn push_spaces(out: &mut Vec<u8>, count: usize) -> Result<(), NoMemory>
    ensures { OnOk result (out.new.items ≡ out.old.items ++ spaces count) }
{
    for _space in 0..count {
        push(out, b" ")?;
    }
    Ok(())
}

/// Appends a text, right-aligned in a column of this width.
#[tactic(auto, unfolding(crate::specs::Numbers::right))]
pub fn push_right(out: &mut Vec<u8>, places: usize, text: &[u8]) -> Result<(), NoMemory>
    ensures { OnOk result (out.new.items ≡ out.old.items ++ right places text.now) }
{
    push_spaces(out, places.saturating_sub(text.len()))?;
    push(out, text)
}

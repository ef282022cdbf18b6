//! Lists of loads.

ghost use Rattle.std.specs.Prelude.{◌≡◌, ◌++◌, All, IfSome, OnOk, OnErr};
ghost use Rattle.std.specs.Option.{option_to_list};
ghost use Rattle.size_model.specs.Loads.{IsLoad};

use size_core::{Load, NoMemory};

/// Pushes a load, if there is one. If memory runs out, the list is unchanged.
pub fn push_load(loads: &mut Vec<Load>, load: Option<Load>) -> Result<(), NoMemory>
    requires fits { IfSome load IsLoad }
    requires all { All IsLoad loads.old.items }
    ensures pushed { OnOk result (loads.new.items ≡ loads.old.items ++ option_to_list load) }
    ensures unchanged { OnErr result (loads.new.items ≡ loads.old.items) }
    ensures all { OnOk result (All IsLoad loads.new.items) }
{
    if let Some(load) = load {
        loads.push(load)?;
    }
    Ok(())
}

//! The UUID of a Mach-O file.

ghost use Rattle.std.specs.Prelude.{◌≡◌};
ghost use Rattle.std.specs.Option.{option_copied};
ghost use Rattle.macho_file.specs.Commands.{commands};
ghost use Rattle.debug_pair.specs.Identities.{first_uuid, macho_identity};

use macho_file::{Command, MachoFile};
use macho_records::LC_UUID;

/// Returns the first LC_UUID command.
#[tactic(auto, using(crate::proofs::UuidLemmas::uuid_here, crate::proofs::UuidLemmas::uuid_later, crate::proofs::UuidLemmas::uuid_none))]
fn first_uuid<'a>(file: &MachoFile<'a>) -> Option<Command>
    ensures { result ≡ first_uuid (commands file.now) }
{
    for command in file.commands() {
        if command.kind == LC_UUID {
            return Some(command);
        }
    }
    None
}

/// Returns the UUID of a Mach-O file: the 16 bytes after `cmd` and `cmdsize` in its first LC_UUID command
/// (`uuid_command`). `None` exactly if there is no LC_UUID, or if the first is shorter than 24 bytes.
#[tactic(auto, unfolding(crate::specs::Identities::macho_identity), using(crate::proofs::UuidLemmas::uuid_inside))]
pub fn macho_identity<'a>(file: &MachoFile<'a>) -> Option<&'a [u8]>
    ensures { option_copied result ≡ macho_identity file.now }
{
    let bytes = file.bytes();
    let command = first_uuid(file)?;
    if command.size < 24 {
        return None;
    }
    let place = command.place as usize + 8;
    Some(&bytes[place..place + 16])
}

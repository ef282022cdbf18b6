//! The type of the note with a build ID, and a law that states it in digits.

ghost use Rattle.std.specs.Prelude.{◌≡◌};

/// The type of a build ID among notes with the name `GNU`.
pub const NT_GNU_BUILD_ID: u32 = 3;

/// A law: the type of a build ID.
pub fn standard_numbers()
    ensures build_id { NT_GNU_BUILD_ID ≡ 3 }
{}

//! Laws of the definitions. Each law is the contract of a function with an empty body.

ghost use Rattle.std.specs.Prelude.{◌≡◌, ◌∷◌, []};
ghost use Rattle.wasm_file.specs.Laws.{BodiesFollow, BodiesHaveNames, SectionsEnd, SectionsFollow, SectionsGoOn, SectionsStop};

use crate::constants::{
    CODE, CUSTOM, DATA, DATA_COUNT, ELEMENT, EXPORT, FUNCTION, FUNCTION_IMPORT, FUNCTION_NAMES,
    GLOBAL, GLOBAL_IMPORT, IMPORT, MEMORY, MEMORY_IMPORT, START, TABLE, TABLE_IMPORT, TYPE,
    VERSION,
};

/// A law: the constants of the standard (WebAssembly core 2.0, 5.5.2 Sections, 5.5.5 Import Section, 5.5.16
/// Modules and 7.4.1 Name Section).
pub fn standard_numbers()
    ensures version { VERSION ≡ 1 }
    ensures sections { CUSTOM ∷ TYPE ∷ IMPORT ∷ FUNCTION ∷ TABLE ∷ MEMORY ∷ GLOBAL ∷ EXPORT ∷ START
        ∷ ELEMENT ∷ CODE ∷ DATA ∷ DATA_COUNT ∷ []
        ≡ 0 ∷ 1 ∷ 2 ∷ 3 ∷ 4 ∷ 5 ∷ 6 ∷ 7 ∷ 8 ∷ 9 ∷ 10 ∷ 11 ∷ 12 ∷ [] }
    ensures imports { FUNCTION_IMPORT ∷ TABLE_IMPORT ∷ MEMORY_IMPORT ∷ GLOBAL_IMPORT ∷ []
        ≡ 0 ∷ 1 ∷ 2 ∷ 3 ∷ [] }
    ensures names { FUNCTION_NAMES ≡ 1 }
{}

/// A law: each section begins where the one before it ends, up to the end of the file or the first fault.
/// So the offset of a section is 8 plus the lengths of the sections before it.
pub fn sections_follow_one_another()
    ensures more { SectionsGoOn }
    ensures fault { SectionsStop }
    ensures end { SectionsEnd }
    ensures places { SectionsFollow }
{}

/// A law: functions with bodies have the indices after those of the imported functions, and their names.
pub fn bodies_follow_the_imports()
    ensures indices { BodiesFollow }
    ensures names { BodiesHaveNames }
{}

//! The constants of the standard in digits: the contract of a function with an empty body.

ghost use Rattle.std.specs.Prelude.{◌≡◌};

use crate::constants::{
    LC_CODE_SIGNATURE, LC_DATA_IN_CODE, LC_DYLD_CHAINED_FIXUPS, LC_DYLD_EXPORTS_TRIE, LC_DYLD_INFO,
    LC_DYLD_INFO_ONLY, LC_DYLIB_CODE_SIGN_DRS, LC_DYSYMTAB, LC_FUNCTION_STARTS,
    LC_LINKER_OPTIMIZATION_HINT, LC_SEGMENT, LC_SEGMENT_64, LC_SEGMENT_SPLIT_INFO, LC_SYMTAB,
    LC_UUID, MH_DSYM, MH_MAGIC, MH_MAGIC_64, MH_OBJECT, N_SECT, N_STAB, N_TYPE, S_GB_ZEROFILL,
    S_THREAD_LOCAL_ZEROFILL, S_ZEROFILL, SECTION_TYPE,
};

/// A law: the values of the constants that definitions use, from `mach-o/loader.h` (`mach_header`,
/// `load_command`, `section`) and `mach-o/nlist.h`.
pub fn standard_numbers()
    ensures magic { (MH_MAGIC ≡ 4277009102) × (MH_MAGIC_64 ≡ 4277009103) }
    ensures file_type { (MH_OBJECT ≡ 1) × (MH_DSYM ≡ 10) }
    ensures segments { (LC_SEGMENT ≡ 1) × (LC_SEGMENT_64 ≡ 25) }
    ensures tables { (LC_SYMTAB ≡ 2) × (LC_DYSYMTAB ≡ 11) × (LC_UUID ≡ 27) }
    ensures dyld_info { (LC_DYLD_INFO ≡ 34) × (LC_DYLD_INFO_ONLY ≡ 2147483682) }
    ensures signature { (LC_CODE_SIGNATURE ≡ 29) × (LC_DYLIB_CODE_SIGN_DRS ≡ 43) }
    ensures code { (LC_SEGMENT_SPLIT_INFO ≡ 30) × (LC_FUNCTION_STARTS ≡ 38)
        × (LC_DATA_IN_CODE ≡ 41) × (LC_LINKER_OPTIMIZATION_HINT ≡ 46) }
    ensures linking { (LC_DYLD_EXPORTS_TRIE ≡ 2147483699) × (LC_DYLD_CHAINED_FIXUPS ≡ 2147483700) }
    ensures section_types { (SECTION_TYPE ≡ 255) × (S_ZEROFILL ≡ 1)
        × (S_GB_ZEROFILL ≡ 12) × (S_THREAD_LOCAL_ZEROFILL ≡ 18) }
    ensures symbol_types { (N_STAB ≡ 224) × (N_TYPE ≡ 14) × (N_SECT ≡ 14) }
{}

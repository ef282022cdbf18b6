//! The constants of the standard that this crate distinguishes: the types of units (DWARF 5, section 7.5.1,
//! table 7.2), and the attributes of a unit's root (section 7.5.4, table 7.5).

/// `DW_UT_compile`. Every unit of DWARF 2 to 4 has this type too.
pub const DW_UT_COMPILE: u8 = 0x01;

/// `DW_UT_type`
pub const DW_UT_TYPE: u8 = 0x02;

/// `DW_UT_skeleton`
pub const DW_UT_SKELETON: u8 = 0x04;

/// `DW_UT_split_compile`
pub const DW_UT_SPLIT_COMPILE: u8 = 0x05;

/// `DW_UT_split_type`. It is the greatest type that the standard defines.
pub const DW_UT_SPLIT_TYPE: u8 = 0x06;

/// `DW_AT_name`
pub const DW_AT_NAME: u64 = 0x03;

/// `DW_AT_stmt_list`
pub const DW_AT_STMT_LIST: u64 = 0x10;

/// `DW_AT_low_pc`
pub const DW_AT_LOW_PC: u64 = 0x11;

/// `DW_AT_high_pc`
pub const DW_AT_HIGH_PC: u64 = 0x12;

/// `DW_AT_ranges`
pub const DW_AT_RANGES: u64 = 0x55;

/// `DW_AT_str_offsets_base`
pub const DW_AT_STR_OFFSETS_BASE: u64 = 0x72;

/// `DW_AT_addr_base`
pub const DW_AT_ADDR_BASE: u64 = 0x73;

/// `DW_AT_rnglists_base`
pub const DW_AT_RNGLISTS_BASE: u64 = 0x74;

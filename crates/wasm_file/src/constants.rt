//! The constants of the standard that are used here (WebAssembly core 2.0, 5.5.2 Sections, 5.5.5 Import
//! Section, 5.5.16 Modules and 7.4.1 Name Section).

/// The version of the binary format.
pub const VERSION: u32 = 1;

/// A custom section, which has a name.
pub const CUSTOM: u8 = 0;

/// The function types.
pub const TYPE: u8 = 1;

/// The imports.
pub const IMPORT: u8 = 2;

/// The types of the functions with bodies.
pub const FUNCTION: u8 = 3;

/// The tables.
pub const TABLE: u8 = 4;

/// The memories.
pub const MEMORY: u8 = 5;

/// The globals.
pub const GLOBAL: u8 = 6;

/// The exports.
pub const EXPORT: u8 = 7;

/// The start function.
pub const START: u8 = 8;

/// The element segments, which initialize tables.
pub const ELEMENT: u8 = 9;

/// The bodies of functions.
pub const CODE: u8 = 10;

/// The data segments, which initialize memories.
pub const DATA: u8 = 11;

/// The number of data segments.
pub const DATA_COUNT: u8 = 12;

/// An imported function.
pub const FUNCTION_IMPORT: u8 = 0;

/// An imported table.
pub const TABLE_IMPORT: u8 = 1;

/// An imported memory.
pub const MEMORY_IMPORT: u8 = 2;

/// An imported global.
pub const GLOBAL_IMPORT: u8 = 3;

/// The subsection of a name section that has the names of functions.
pub const FUNCTION_NAMES: u8 = 1;

//! The faults of a file.

ghost use Rattle.std.specs.Prelude.{◌≡◌};

use thiserror::Error;

/// What is wrong with a file.
#[derive(Clone, Copy, Debug, PartialEq, Eq, Hash)]
pub enum Fault {
    /// The file's first bytes are of no known format.
    UnknownFormat,
    /// The file is an archive of objects.
    Archive,
    /// The file is a universal Mach-O file.
    Universal,
    /// A field or a number reaches past the end of its header, section or file.
    Truncated,
    /// A header field has a value that isn't supported.
    BadHeader,
    /// A table reaches past the end of the file.
    TablePastEnd,
    /// An index names no section or entry.
    BadIndex,
    /// A name's offset is outside its string table, or the name has no terminating null byte there.
    NameOutside,
    /// A section's bytes reach past the end of the file.
    SectionPastEnd,
    /// A virtual address plus a size exceeds 2^64.
    RangeOverflow,
    /// A Mach-O load command has a wrong size.
    BadCommand,
    /// A LEB128 number is too large, or has too many bytes.
    BadLeb,
    /// An import or a code entry of a WebAssembly module, or their count, can't be read.
    BadWasm,
    /// The data source isn't available for this kind of file.
    SourceNotForFile,
    /// A debug section is compressed.
    CompressedDebugInfo,
    /// The header of a DWARF unit is wrong, or the length of a unit, an address set or a line program.
    BadUnit,
    /// A unit's root refers to an abbreviation that isn't declared.
    BadAbbrev,
    /// A DWARF form is unknown, or isn't allowed where it is.
    UnknownForm,
    /// A DWARF offset or index is outside its section.
    OffsetOutside,
    /// A range list can't be read.
    BadRangeList,
    /// A line program can't be read.
    BadLine,
    /// A debug string has no terminating null byte.
    BadString,
    /// Not in use. DWARF 2 to 5 are read, and units of other versions are skipped.
    NewerDwarf,
    /// Not in use. Relocatable files are read.
    Relocatable,
}

impl Fault {
    ghost use Rattle.size_core.specs.FaultNames.{fault_name};

    /// The fault's name, as error lines print it.
    pub fn name(&self) -> &'static str
        ensures { result.now ≡ fault_name self.now }
    {
        match self {
            Fault::UnknownFormat => "UnknownFormat",
            Fault::Archive => "Archive",
            Fault::Universal => "Universal",
            Fault::Truncated => "Truncated",
            Fault::BadHeader => "BadHeader",
            Fault::TablePastEnd => "TablePastEnd",
            Fault::BadIndex => "BadIndex",
            Fault::NameOutside => "NameOutside",
            Fault::SectionPastEnd => "SectionPastEnd",
            Fault::RangeOverflow => "RangeOverflow",
            Fault::BadCommand => "BadCommand",
            Fault::BadLeb => "BadLeb",
            Fault::BadWasm => "BadWasm",
            Fault::SourceNotForFile => "SourceNotForFile",
            Fault::CompressedDebugInfo => "CompressedDebugInfo",
            Fault::BadUnit => "BadUnit",
            Fault::BadAbbrev => "BadAbbrev",
            Fault::UnknownForm => "UnknownForm",
            Fault::OffsetOutside => "OffsetOutside",
            Fault::BadRangeList => "BadRangeList",
            Fault::BadLine => "BadLine",
            Fault::BadString => "BadString",
            Fault::NewerDwarf => "NewerDwarf",
            Fault::Relocatable => "Relocatable",
        }
    }
}

/// A fault and the file offset, in bytes, where it was found. Its message is the end of the error line for the file.
#[derive(Clone, Copy, Debug, PartialEq, Eq, Hash, Error)]
#[error("offset {offset}: {fault:?}")]
pub struct BadFile {
    /// What is wrong.
    pub fault: Fault,
    /// The file offset in bytes.
    pub offset: u64,
}

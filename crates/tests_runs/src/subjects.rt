//! A sound file of each format, and the data sources that read the most of it.

use sample_files::{Class, Input, Order};

/// A file, and a list of data sources.
#[derive(Clone, Copy)]
pub struct Subject {
    pub file: Input,
    pub list: &'static str,
}

// A module with a type, an imported function and table, two functions with names, and bytes that are no names.
const MODULE: Input = Input::Text(
    b"\0asm\x01\0\0\0\x01\x04\x01\x60\0\0\x02\x10\x02\x01m\x01f\0\0\x01m\x01t\x01\x70\x01\0\x01\
\x03\x03\x02\0\0\x0a\x08\x02\x02\0\x0b\x03\0\x01\x0b\
\0\x13\x04name\x01\x0c\x03\0\x01f\x01\x02go\x02\x02up\0\x03\x01x.",
);

const SYMBOLS: &str = "symbols";

const UNITS: &str = "compileunits,inlines";

/// Two executables and an object. The second executable has 32 bits and is big-endian.
pub const ELF: [Subject; 3] = [
    Subject {
        file: Input::TwoFunctions,
        list: SYMBOLS,
    },
    Subject {
        file: Input::BigEndian,
        list: SYMBOLS,
    },
    Subject {
        file: Input::ObjectFunctions,
        list: SYMBOLS,
    },
];

/// Programs of both classes and both orders.
pub const MACHO: [Subject; 2] = [
    Subject {
        file: Input::MachoOf(Class::Bits64, Order::Little),
        list: SYMBOLS,
    },
    Subject {
        file: Input::MachoOf(Class::Bits32, Order::Big),
        list: SYMBOLS,
    },
];

pub const WASM: [Subject; 1] = [Subject {
    file: MODULE,
    list: SYMBOLS,
}];

/// Units in ELF files before DWARF 5.
pub const OLDER_UNITS: [Subject; 3] = [
    Subject {
        file: Input::Units(2),
        list: UNITS,
    },
    Subject {
        file: Input::Units(3),
        list: UNITS,
    },
    Subject {
        file: Input::Units(4),
        list: UNITS,
    },
];

/// Units of DWARF 5, with sets of addresses.
pub const UNITS_OF_DWARF_5: [Subject; 1] = [Subject {
    file: Input::Units(5),
    list: UNITS,
}];

/// Units in a Mach-O file.
pub const UNITS_OF_MACHO: [Subject; 1] = [Subject {
    file: Input::MachoUnits,
    list: UNITS,
}];

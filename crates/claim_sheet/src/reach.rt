//! The bytes and addresses that a claim covers.

ghost use Rattle.std.specs.Prelude.{◌≡◌};
ghost use Rattle.claim_sheet.specs.Reaches.{is_empty, span, in_file, in_memory, in_both, of_load, of_addresses};

use size_core::{Load, Side, Span};

/// The bytes of the file and the virtual addresses that a claim covers.
#[derive(Clone, Copy)]
pub struct Reach {
    /// Which of the two spans the claim names.
    pub side: Side,
    /// The virtual addresses.
    pub vm: Span,
    /// The file offsets.
    pub file: Span,
}

const NO_SPAN: Span = Span {
    space: 0,
    start: 0,
    len: 0,
};

/// Returns a span of `len` bytes. `start` is a file offset or a virtual address. All empty spans are equal: space, start
/// and length are 0.
pub fn span(space: u32, start: u64, len: u64) -> Span
    ensures { result ≡ span space start len }
{
    if len == 0 {
        NO_SPAN
    } else {
        Span { space, start, len }
    }
}

impl Reach {
    /// Covers bytes of the file only.
    pub fn in_file(file: Span) -> Reach
        ensures { result ≡ in_file file }
    {
        Reach {
            side: Side::File,
            vm: NO_SPAN,
            file,
        }
    }

    /// Covers virtual addresses only.
    pub fn in_memory(vm: Span) -> Reach
        ensures { result ≡ in_memory vm }
    {
        Reach {
            side: Side::Vm,
            vm,
            file: NO_SPAN,
        }
    }

    /// Covers virtual addresses and bytes of the file.
    pub fn in_both(vm: Span, file: Span) -> Reach
        ensures { result ≡ in_both vm file }
    {
        Reach {
            side: Side::Both,
            vm,
            file,
        }
    }

    /// Covers what a load maps: its addresses, and its bytes in a file of `len` bytes. Bytes after the end of the file
    /// are left out.
    pub fn of_load(len: u64, load: &Load) -> Reach
        ensures { result ≡ of_load len load.now }
    {
        let taken = load.filesz.min(load.memsz);
        let part = taken.min(len.saturating_sub(load.offset));
        Reach::in_both(
            span(load.space, load.vaddr, load.memsz),
            span(0, load.offset, part),
        )
    }

    /// Covers the addresses of a load only.
    pub fn of_addresses(load: &Load) -> Reach
        ensures { result ≡ of_addresses load.now }
    {
        Reach::in_memory(span(load.space, load.vaddr, load.memsz))
    }

    /// Returns whether neither a byte nor an address is covered.
    pub fn is_empty(&self) -> bool
        ensures { result ≡ is_empty self.now }
    {
        self.vm.len == 0 && self.file.len == 0
    }
}

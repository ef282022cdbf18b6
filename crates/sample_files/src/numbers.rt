//! Numbers in a row, in the widths and the order of a file.

use std::alloc::{AllocError, Global};

/// The width of a file's addresses.
#[derive(Clone, Copy, PartialEq, Eq)]
pub enum Class {
    /// 32 bits.
    Bits32,
    /// 64 bits.
    Bits64,
}

impl Class {
    /// How many bytes an address has.
    pub fn address_size(self) -> u8 {
        match self {
            Class::Bits32 => 4,
            Class::Bits64 => 8,
        }
    }
}

/// The byte order.
#[derive(Clone, Copy, PartialEq, Eq)]
pub enum Order {
    /// The least significant byte comes first.
    Little,
    /// The most significant byte comes first.
    Big,
}

/// Bytes that grow by numbers. A write that gets no memory is left out, and `bytes` and `finish` report it.
#[derive(Drop)]
pub struct Numbers {
    class: Class,
    order: Order,
    out_of_memory: bool,
    bytes: Vec<u8>,
}

impl Numbers {
    /// No bytes yet. Numbers are written for this class and in this order.
    pub fn new(alloc: Global, class: Class, order: Order) -> Numbers {
        Numbers {
            class,
            order,
            out_of_memory: false,
            bytes: Vec::new(alloc),
        }
    }

    /// How many bytes there are, in a field of 4 bytes.
    pub fn len(&self) -> u32 {
        u32::try_from(self.bytes.len()).unwrap_or(u32::MAX)
    }

    /// Whether there are no bytes.
    pub fn is_empty(&self) -> bool {
        self.bytes.is_empty()
    }

    /// The bytes. `AllocError` if a write got no memory.
    pub fn bytes(&self) -> Result<&[u8], AllocError> {
        if self.out_of_memory {
            return Err(AllocError);
        }
        Ok(&self.bytes)
    }

    /// The bytes. `AllocError` if a write got no memory.
    pub fn finish(self) -> Result<Vec<u8>, AllocError> {
        if self.out_of_memory {
            return Err(AllocError);
        }
        Ok(self.bytes)
    }

    /// Appends these bytes.
    pub fn text(&mut self, text: &[u8]) {
        if self.bytes.extend_from_slice(text).is_err() {
            self.out_of_memory = true;
        }
    }

    /// Appends a text with the zero byte that ends it.
    pub fn name(&mut self, name: &[u8]) {
        self.text(name);
        self.text(&[0]);
    }

    /// Appends `count` zero bytes.
    pub fn zeros(&mut self, count: usize) {
        for _ in 0..count {
            if self.bytes.push(0).is_err() {
                self.out_of_memory = true;
            }
        }
    }

    /// Appends a number of 2 bytes.
    pub fn half(&mut self, x: u16) {
        match self.order {
            Order::Little => self.text(&x.to_le_bytes()),
            Order::Big => self.text(&x.to_be_bytes()),
        }
    }

    /// Appends numbers of 2 bytes.
    pub fn halves(&mut self, numbers: &[u16]) {
        for x in numbers {
            self.half(*x);
        }
    }

    /// Appends a number of 4 bytes.
    pub fn word(&mut self, x: u32) {
        match self.order {
            Order::Little => self.text(&x.to_le_bytes()),
            Order::Big => self.text(&x.to_be_bytes()),
        }
    }

    /// Appends numbers of 4 bytes.
    pub fn words(&mut self, numbers: &[u32]) {
        for x in numbers {
            self.word(*x);
        }
    }

    // A number of 8 bytes.
    fn long(&mut self, x: u64) {
        match self.order {
            Order::Little => self.text(&x.to_le_bytes()),
            Order::Big => self.text(&x.to_be_bytes()),
        }
    }

    /// Appends a number of 4 or 8 bytes, by the class.
    pub fn address(&mut self, x: u64) {
        match self.class {
            Class::Bits32 => self.word(u32::try_from(x).unwrap_or(u32::MAX)),
            Class::Bits64 => self.long(x),
        }
    }

    /// Appends numbers of 4 or 8 bytes, by the class.
    pub fn addresses(&mut self, numbers: &[u64]) {
        for x in numbers {
            self.address(*x);
        }
    }

    /// Appends pairs of addresses.
    pub fn pairs(&mut self, pairs: &[(u64, u64)]) {
        for (first, second) in pairs {
            self.address(*first);
            self.address(*second);
        }
    }

    /// Appends the bytes of other numbers.
    pub fn all(&mut self, others: &Numbers) {
        self.text(&others.bytes);
        self.out_of_memory = self.out_of_memory || others.out_of_memory;
    }

    /// Appends the length of other numbers in bytes, and then their bytes.
    pub fn counted(&mut self, others: &Numbers) {
        self.word(others.len());
        self.all(others);
    }
}

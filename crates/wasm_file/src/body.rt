//! Functions with bodies.

/// A function with a body (WebAssembly core 2.0, 5.5.13 Code Section).
#[derive(Clone, Copy, Debug)]
pub struct Body<'a> {
    /// Its function index. Imported functions come first.
    pub index: u32,
    /// The file offset of the size field of the body.
    pub place: u64,
    /// The number of bytes of the size field and the body together.
    pub len: u64,
    /// Its name, if the module has one.
    pub name: Option<&'a [u8]>,
}

/// The file range of a body with its size field.
#[derive(Clone, Copy, Debug, PartialEq, Eq)]
pub struct Extent {
    /// The file offset of the size field.
    pub place: u64,
    /// The number of bytes of the size field and the body together.
    pub len: u64,
}

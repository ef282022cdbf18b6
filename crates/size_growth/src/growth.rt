//! Paths with their sizes in new files and in base files.

ghost use Rattle.std.specs.Prelude.{◌≡◌, length};
ghost use Rattle.size_growth.specs.Paths.{IsGrowth};
ghost use Rattle.size_growth.specs.Sizes.{Fits, no_sizes, plus};

use size_core::Path;
use std::marker::Model;

/// The sizes in the new files and in the base files, in bytes.
#[derive(Clone, Copy, Debug, PartialEq, Eq, PartialOrd, Ord)]
pub struct GrowthSizes {
    /// The VM size in the new files: the number of mapped addresses.
    pub new_vm: u64,
    /// The file size in the new files.
    pub new_file: u64,
    /// The VM size in the base files.
    pub base_vm: u64,
    /// The file size in the base files.
    pub base_file: u64,
}

impl GrowthSizes {
    /// Sizes of 0.
    pub fn none() -> GrowthSizes
        ensures { result ≡ no_sizes }
    {
        GrowthSizes {
            new_vm: 0,
            new_file: 0,
            base_vm: 0,
            base_file: 0,
        }
    }

    /// The sum of the sizes, each with its own kind.
    pub fn plus(self, other: GrowthSizes) -> GrowthSizes
        requires { Fits (plus self other) }
        ensures { result ≡ plus self other }
    {
        GrowthSizes {
            new_vm: self.new_vm + other.new_vm,
            new_file: self.new_file + other.new_file,
            base_vm: self.base_vm + other.base_vm,
            base_file: self.base_file + other.base_file,
        }
    }
}

/// A path with its sizes.
#[derive(Debug, Drop)]
pub struct GrowthPath {
    /// The path. It has one label for each requested data source.
    pub path: Path,
    /// The sizes of the path in bytes.
    pub sizes: GrowthSizes,
}

/// The paths of the new files and the base files. Contracts see the number of labels of each path, and the
/// paths, sorted and without duplicates.
#[derive(Debug, Drop)]
pub struct Growth {
    pub(crate) depth: u32,
    pub(crate) paths: Vec<GrowthPath>,
}

impl Model for Growth {
    ghost use Rattle.size_growth.specs.Paths.{Paths, IsGrowth};

    ghost Value = { Paths };

    ghost view = { λ g. record { depth = g.depth; paths = g.paths.items } };

    ghost invariant = { λ g. IsGrowth g.depth g.paths.items };
}

impl Growth {
    /// The number of labels of each path.
    pub fn depth(&self) -> u32
        ensures { result ≡ self.now.depth }
    {
        self.depth
    }

    /// The number of paths, and the properties of every growth.
    pub fn len(&self) -> usize
        ensures count { result ≡ length self.now.paths }
        ensures known { IsGrowth self.now.depth self.now.paths }
    {
        self.paths.len()
    }
}

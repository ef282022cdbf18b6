//! The limits of a run.

ghost use Rattle.std.specs.Prelude.{◌≡◌};

/// The most that a run reads and claims.
#[derive(Clone, Copy, Debug, PartialEq, Eq, Hash)]
pub struct Limits {
    /// Bytes of one file.
    pub file: u64,
    /// Bytes of all files of a run together.
    pub total: u64,
    /// Claims of all requested data sources together, for one file.
    pub claims: u64,
}

/// The program's limits: 1 GiB for a file, 2 GiB for a run, and 2^24 claims for a file.
pub const FULL: Limits = Limits {
    file: 1 << 30,
    total: 1 << 31,
    claims: 1 << 24,
};

/// A law: the program's limits in plain digits.
pub fn full_in_digits()
    ensures file { FULL.file ≡ 1_073_741_824 }
    ensures total { FULL.total ≡ 2_147_483_648 }
    ensures claims { FULL.claims ≡ 16_777_216 }
{}

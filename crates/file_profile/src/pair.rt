//! The sizes of a file with its debug file.

ghost use Rattle.std.specs.Prelude.{◌≡◌, ◌<◌, ◌^◌, length, IfOk};
ghost use Rattle.std.specs.Option.{option_copied};
ghost use Rattle.data_sources.specs.Groups.{bytes_of};
ghost use Rattle.data_sources.specs.Opened.{opened};
ghost use Rattle.file_profile.specs.Identity.{is_pair, is_same};
ghost use Rattle.file_profile.specs.PairViews.{PairAnswers, opened_as, opened_pair, pair_view, pair_viewed};
ghost use Rattle.file_profile.specs.Profiles.{CanProfile, Profiles};

use crate::answer::{PairAnswer, PairFile};
use crate::plan::Plan;
use crate::profile::profile_opened;
use crate::subject::Subject;
use data_sources::{Binary, open_binary};
use debug_pair::{elf_identity, macho_identity};
use rollup::Rollup;
use size_core::{Limits, Steps};
use std::alloc::Global;
use std::sync::ledger::Ledger;

// Opens one of the two files.
fn open_one<'a>(which: PairFile, file: &'a [u8]) -> Result<Binary<'a>, PairAnswer>
    requires { length file.now < 2 ^ 32 }
    ensures opened { result ≡ opened_as which (opened file.now) }
    ensures bytes { IfOk result (λ binary. bytes_of binary ≡ file.now) }
{
    match open_binary(file) {
        Ok(binary) => Ok(binary),
        Err(bad) => Err(PairAnswer::Bad(which, bad)),
    }
}

// Both identifiers are present, and they are equal.
fn is_same(own: Option<&[u8]>, debug: Option<&[u8]>) -> bool
    ensures { result ≡ is_same (option_copied own.entry) (option_copied debug.entry) }
{
    match (own, debug) {
        (Some(own), Some(debug)) => own == debug,
        _ => false,
    }
}

// Both files have one format and the same identifier.
fn is_pair(binary: &Binary<'_>, debug: &Binary<'_>) -> bool
    ensures { result ≡ is_pair binary.now debug.now }
{
    match (binary, debug) {
        (Binary::Elf(own), Binary::Elf(debug)) => is_same(elf_identity(own), elf_identity(debug)),
        (Binary::Macho(own), Binary::Macho(debug)) => {
            is_same(macho_identity(own), macho_identity(debug))
        }
        _ => false,
    }
}

/// Adds the sizes of one file to `total`. The claims of its debug file come before those of the file: they name
/// symbols, compile units and source lines that a stripped file no longer has. Only the bytes and addresses of the file
/// are counted, none of the debug file. `inputfiles` labels them `name`.
///
/// # Errors
///
/// The first of these. `Bad` says which of the two files it is:
///
/// - `Bad`: the first fault of the file's format, or else of the debug file's,
/// - `NoMatch`: the identifiers of the two (the build ID of ELF, the UUID of Mach-O) differ, or one is absent,
/// - `Bad` or `TooManyClaims` of the first data source that has a fault, in the debug file or else in the file, or with
///   which the claims exceed `limits.claims`,
/// - `MappedTooLarge`: the mapped sizes of this file and of those in `total` exceed 2^63 - 1.
///
/// `NoMemory` may come at any step. After an error `total` is as before.
#[tactic(auto, unfolding(crate::specs::PairViews::pair_viewed, crate::specs::PairViews::opened_pair))]
pub fn profile_pair<L: Ledger>(
    alloc: Global,
    plan: &Plan,
    name: &str,
    file: &[u8],
    debug: &[u8],
    total: &mut Rollup,
    limits: &Limits,
    steps: &mut Steps<L>,
) -> Result<(), PairAnswer>
    requires file { CanProfile (length file.now) plan.now.sources total.old }
    requires debug { length debug.now < 2 ^ 32 }

    // The result is the first fault or exceeded limit of the two files, unless memory runs out.
    ensures answer { PairAnswers result
        (pair_viewed total.old.mapped limits.now.claims name.now file.now debug.now
        plan.now.sources) }

    // What is added, and what it costs. The debug file's length and addresses are no part of it.
    ensures effect { let claims = limits.now.claims in
        let counted = pair_viewed total.old.mapped claims name.now file.now debug.now
        plan.now.sources in
        let view = pair_view claims name.now file.now debug.now plan.now.sources in
        Profiles result counted view plan.now.filter (length file.now)
        total.old total.new steps.old steps.new }
{
    let binary = open_one(PairFile::Own, file)?;
    let other = open_one(PairFile::Debug, debug)?;
    if !is_pair(&binary, &other) {
        return Err(PairAnswer::NoMatch);
    }
    let subject = Subject::new(alloc, name.as_bytes(), binary, Some(other))?;
    profile_opened(plan, &subject, total, limits, steps)?;
    Ok(())
}

//! What the matches hold, argument by argument. Only this module and those below it use `clap`.

ghost use Rattle.std.specs.Prelude.{◌≡◌};
ghost use Rattle.clap.specs.Words.{found_of, rows_of};
ghost use Rattle.size_options.specs.Given.{given_in, is_on, texts_of};

use clap::ArgMatches;

/// The text of each option that is given, the flags that are given, and the files.
#[derive(Clone, Copy)]
pub struct Given<'m, 'a> {
    /// The value of `-d`.
    pub sources: Option<&'a str>,
    /// The value of `-n`.
    pub limit: Option<&'a str>,
    /// The value of `-s`.
    pub sort: Option<&'a str>,
    /// The value of `--domain`.
    pub domain: Option<&'a str>,
    /// Whether `-w` is given.
    pub wide: bool,
    /// Whether `--csv` is given.
    pub csv: bool,
    /// Whether `--tsv` is given.
    pub tsv: bool,
    /// The value of `-c`.
    pub config: Option<&'a str>,
    /// The value of `--source-filter`.
    pub filter: Option<&'a str>,
    /// The value of `--debug-file`.
    pub debug: Option<&'a str>,
    /// The value of `--debug-fileoff`.
    pub offset: Option<&'a str>,
    /// The value of `--debug-vmaddr`.
    pub address: Option<&'a str>,
    /// The value of `--synth`.
    pub synth: Option<&'a str>,
    /// The names of the files.
    pub files: Option<&'m [&'a str]>,
}

// Whether a flag is given.
#[tactic(auto, using(crate::proofs::CommandLemmas::value_is))]
fn is_on(matches: &ArgMatches<'_>, id: &str) -> bool
    ensures { result ≡ is_on id.now (rows_of (found_of matches.now)) }
{
    match matches.get_str(id) {
        Some(text) => text == "true",
        None => false,
    }
}

/// The arguments that the matches hold.
#[tactic(auto, using(crate::proofs::CommandLemmas::value_is, crate::proofs::CommandLemmas::values_are))]
pub fn given_of<'m, 'a>(matches: &'m ArgMatches<'a>) -> Given<'m, 'a>
    ensures { texts_of result ≡ given_in (rows_of (found_of matches.entry.now)) }
{
    Given {
        sources: matches.get_str("sources"),
        limit: matches.get_str("limit"),
        sort: matches.get_str("sort"),
        domain: matches.get_str("domain"),
        wide: is_on(matches, "wide"),
        csv: is_on(matches, "csv"),
        tsv: is_on(matches, "tsv"),
        config: matches.get_str("config"),
        filter: matches.get_str("source-filter"),
        debug: matches.get_str("debug-file"),
        offset: matches.get_str("debug-fileoff"),
        address: matches.get_str("debug-vmaddr"),
        synth: matches.get_str("synth"),
        files: matches.get_raw("FILE"),
    }
}

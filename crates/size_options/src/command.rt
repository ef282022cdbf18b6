//! The `clap` command that parses the command line.

ghost use Rattle.std.specs.Prelude.{◌≡◌, IfOk};
ghost use Rattle.clap.specs.Words.{app_of};
ghost use Rattle.size_options.specs.Command.{bare_app, debug_rules, file_rules, label_rules, profile_app, report_rules, row_rules, with_rules};

use clap::{Arg, ArgAction, Command};
use std::alloc::{AllocError, Global};

// A command without arguments, and without flags for help and for the version.
fn bare_command<'a>(alloc: Global) -> Command<'a>
    ensures { app_of result ≡ bare_app }
{
    Command::new(alloc, "bloaty")
        .no_binary_name(true)
        .disable_help_flag(true)
        .disable_version_flag(true)
}

// Adds the options for the rows of a report.
fn with_row_options<'a>(command: Command<'a>, alloc: Global) -> Result<Command<'a>, AllocError>
    ensures { IfOk result (λ c. app_of c ≡ with_rules (app_of command.entry) row_rules) }
{
    command
        .arg(Arg::new(alloc, "sources").short('d'))?
        .arg(Arg::new(alloc, "limit").short('n'))?
        .arg(Arg::new(alloc, "sort").short('s'))?
        .arg(Arg::new(alloc, "domain").long("domain"))
}

// Adds the flags for the format of a report.
fn with_report_flags<'a>(command: Command<'a>, alloc: Global) -> Result<Command<'a>, AllocError>
    ensures { IfOk result (λ c. app_of c ≡ with_rules (app_of command.entry) report_rules) }
{
    command
        .arg(
            Arg::new(alloc, "wide")
                .short('w')
                .action(ArgAction::SetTrue),
        )?
        .arg(
            Arg::new(alloc, "csv")
                .long("csv")
                .action(ArgAction::SetTrue),
        )?
        .arg(
            Arg::new(alloc, "tsv")
                .long("tsv")
                .action(ArgAction::SetTrue),
        )
}

// Adds the options for labels and their filter.
fn with_label_options<'a>(command: Command<'a>, alloc: Global) -> Result<Command<'a>, AllocError>
    ensures { IfOk result (λ c. app_of c ≡ with_rules (app_of command.entry) label_rules) }
{
    command
        .arg(Arg::new(alloc, "config").short('c'))?
        .arg(Arg::new(alloc, "source-filter").long("source-filter"))
}

// Adds the options for a debug file and for a location to explain.
fn with_debug_options<'a>(command: Command<'a>, alloc: Global) -> Result<Command<'a>, AllocError>
    ensures { IfOk result (λ c. app_of c ≡ with_rules (app_of command.entry) debug_rules) }
{
    command
        .arg(Arg::new(alloc, "debug-file").long("debug-file"))?
        .arg(Arg::new(alloc, "debug-fileoff").long("debug-fileoff"))?
        .arg(Arg::new(alloc, "debug-vmaddr").long("debug-vmaddr"))
}

// Adds the option `--synth`, and the files.
fn with_files<'a>(command: Command<'a>, alloc: Global) -> Result<Command<'a>, AllocError>
    ensures { IfOk result (λ c. app_of c ≡ with_rules (app_of command.entry) file_rules) }
{
    command
        .arg(Arg::new(alloc, "synth").long("synth"))?
        .arg(Arg::new(alloc, "FILE").action(ArgAction::Append))
}

/// The command with all its arguments.
#[tactic(auto, unfolding(crate::specs::Command::profile_app))]
pub fn profile_command<'a>(alloc: Global) -> Result<Command<'a>, AllocError>
    ensures { IfOk result (λ c. app_of c ≡ profile_app) }
{
    let command = with_row_options(bare_command(alloc), alloc)?;
    let command = with_report_flags(command, alloc)?;
    let command = with_label_options(command, alloc)?;
    let command = with_debug_options(command, alloc)?;
    with_files(command, alloc)
}

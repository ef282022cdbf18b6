//! The explanation of one location of the only file.

ghost use Rattle.std.specs.Prelude.{◌≡◌};
ghost use Rattle.bloaty_engine.specs.Reports.{AsksPlace, MakesReport};
ghost use Rattle.bloaty_engine.specs.Verdict.{end_of_place};

use crate::files::{first_name, only_file};
use crate::request::Run;
use file_profile::{PlaceAnswer, Plan, explain_place};
use file_reports::report_of_location;
use outside::Files;
use run_outcome::Outcome;
use size_core::{BadFile, Place};

// The outcome of a run in which a location isn't explained.
fn end_of_place(answer: PlaceAnswer) -> Outcome
    ensures { result ≡ end_of_place answer }
{
    match answer {
        PlaceAnswer::Bad(BadFile { fault, offset }) => Outcome::Bad {
            file: 1,
            fault,
            offset,
        },
        PlaceAnswer::PlaceOutside => Outcome::PlaceOutside,
        PlaceAnswer::TooManyClaims => Outcome::TooManyClaims(1),
        PlaceAnswer::MappedTooLarge => Outcome::MappedTooLarge,
        PlaceAnswer::NoMemory => Outcome::NoMemory,
    }
}

/// Reads or makes the only file, and returns the text that explains a location of it.
pub fn place_report<F: Files>(
    run: &Run,
    plan: &Plan,
    place: &Place,
    files: &mut F,
) -> Result<Vec<u8>, Outcome>
    requires { AsksPlace run.now.options plan.now place.now }
    ensures { MakesReport F.Files run.now.limits plan.now.sources run.now.options
        result files.old files.new }
{
    let file = only_file(run, files)?;
    let options = &run.options;
    match explain_place(
        run.alloc,
        plan,
        &options.sources,
        place,
        options.limit,
        first_name(options),
        &file,
        &run.limits,
    ) {
        Ok(sources) => Ok(report_of_location(run.alloc, place, &sources, options.wide)?),
        Err(answer) => Err(end_of_place(answer)),
    }
}

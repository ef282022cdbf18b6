//! The data sources that the names in `-d` mean.

ghost use Rattle.std.specs.Prelude.{◌≡◌, None, length, IfSome, IfOk, IfErr, MatchOption, option_map};
ghost use Rattle.file_profile.specs.Choices.{IsChoice, chosen_in, rewrite_lists};
ghost use Rattle.file_profile.specs.Plans.{HasNameCause};
ghost use Rattle.file_profile.specs.Sources.{chosen_named, custom_named};
ghost use Rattle.run_plan.specs.Planning.{AreChoices, IsCustomAt};

use config_text::CustomSource;
use file_profile::{Choice, PlanAnswer};
use size_core::{Names, Source};
use std::alloc::Global;

// The index of the first custom data source with this name.
#[tactic(auto, using(crate::proofs::PlanLemmas::custom_here))]
fn custom_place(custom: &[CustomSource], name: &[u8]) -> Option<usize>
    ensures { MatchOption result (custom_named custom.now name.now ≡ None)
        (IsCustomAt custom.now name.now) }
{
    for i in 0..custom.len() {
        if custom[i].name.as_slice() == name {
            return Some(i);
        }
    }
    None
}

// The data source with this name.
fn choice_of(custom: &[CustomSource], name: &[u8]) -> Option<Choice>
    ensures chosen { option_map (chosen_in (rewrite_lists custom.now)) result
        ≡ chosen_named custom.now name.now }
    ensures place { IfSome result (IsChoice (length custom.now)) }
{
    if let Some(base) = Source::named(name) {
        return Some(Choice {
            base,
            rewrites: None,
        });
    }
    let place = custom_place(custom, name)?;
    Some(Choice {
        base: custom[place].base,
        rewrites: Some(place),
    })
}

/// The data sources of these names. A name means the built-in data source of that name, or else the first custom one.
///
/// # Errors
///
/// `UnknownSource` with the number, from 1, of the first name that means no data source, or `NoMemory`.
pub fn choices_of(
    alloc: Global,
    names: &Names,
    custom: &[CustomSource],
) -> Result<Vec<Choice>, PlanAnswer>
    ensures choices { IfOk result (λ choices. AreChoices custom.now names.now choices.items) }
    ensures cause { IfErr result (HasNameCause custom.now names.now) }
{
    let mut choices = Vec::new(alloc);
    for i in 0..names.len() {
        let Some(choice) = choice_of(custom, names.get(i).as_slice()) else {
            return Err(PlanAnswer::UnknownSource(i + 1));
        };
        choices.push(choice)?;
    }
    Ok(choices)
}

//! A law of a run: the contract of an empty function. The laws of reports are in `file_reports`.

ghost use Rattle.bloaty_engine.specs.RunLaws.{DoneReportsWhatItRead};

/// A run that is done has written the report of the bytes that its reads returned, and of its synthetic file if it has one.
#[tactic(auto, using(crate::proofs::RunLemmas::done_reports))]
pub fn done_runs_report_what_they_read()
    ensures { DoneReportsWhatItRead }
{}

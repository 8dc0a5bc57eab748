// The laws of outcomes, each the contract of a function without code.

ghost use Rattle.report.specs.Outcome.{OneOutcome, SettingsChangeNoOutcome, WholeReadingsTellNoFailure};

/// With every number of workers and every depth that is not refused, the outcomes are those of one worker.
pub fn settings_change_no_outcome()
    ensures { SettingsChangeNoOutcome }
{}

/// For the same texts, readings and requirements there is one outcome, a lack of memory aside.
pub fn one_outcome()
    ensures { OneOutcome }
{}

/// If no reader failed, no outcome is a reader's failure.
pub fn whole_readings_tell_no_failure()
    ensures { WholeReadingsTellNoFailure }
{}

// The law on runs that are made, the contract of a function without code.

ghost use Rattle.recording_maker.specs.Outcome.{MadeIsTheOutcome};

/// The verdict of a run that is made is what a check of its texts answers under no rules, whatever its settings. After a Yes, the recordings
/// are a lawful run of the configured machine in the order of the certificate. After a No, the records before its place are such a run, and
/// the machine has no step for the record at the place.
pub fn made_is_the_outcome()
    ensures { MadeIsTheOutcome }
{}

// The laws of verdicts, each the contract of a function without code.

ghost use Rattle.verdict_merge.specs.Refusals.{VerdictIsOfTheMachine};
ghost use Rattle.verdict_merge.specs.Verdicts.{OneVerdict, VerdictIsOfTheFindings};

/// An order of records has at most one verdict.
pub fn one_verdict()
    ensures { OneVerdict }
{}

/// The verdict follows from what each piece finds in all the records: Yes if no piece finds anything, and else No with the least
/// finding.
pub fn verdict_is_of_the_findings()
    ensures { VerdictIsOfTheFindings }
{}

/// For every configuration that can be read, and records at the places 0, 1, 2, ..: a Yes means that the records are a run of the
/// machine in which each view meets every rule. A No means that the records before its place are such a run, and that the machine has
/// no step for the record there. A broken rule means that the records up to its place are a run, and that the view there is the first
/// that breaks a rule.
pub fn verdict_is_of_the_machine()
    ensures { VerdictIsOfTheMachine }
{}

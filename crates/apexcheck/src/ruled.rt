// The check under the rules of options and of a rules file.

ghost use Rattle.std.specs.Prelude.{[], ◌≡◌};
ghost use Rattle.asked_rules.specs.Reading.{said_file};
ghost use Rattle.apexcheck.specs.Ruled.{AnswersRuled};

use asked_rules::{RuleOption, RulesFile, all_relations};
use csv_rows::TextSource;
use report::{
    CheckFault, Gate, Inputs, Last, Options, Settings, Verdict, Witness, check_relations,
};
use std::alloc::Global;
use std::sync::Wait;
use std::thread::Threads;

/// Checks these inputs under rules: those that these options request, numbered in their order, and those of the file after them, with its
/// memories. The check is carried out as the settings say, and the gate sees its progress.
///
/// Leaves the last records before the place of a No or of a broken rule in `last`, if that was empty, and none after any other answer. The
/// witness receives what is at that place.
pub fn check_ruled<T, R, C, G, V>(
    rt: T,
    alloc: Global,
    inputs: Inputs<'_, R, C>,
    options: &[RuleOption],
    file: &RulesFile,
    settings: Settings,
    gate: &G,
    last: &mut Last,
    witness: &mut V,
) -> Result<Verdict, CheckFault>
where
    G: Gate + Sync,
    V: Witness,
    T: Threads + Wait + Sync + Copy + Send + 'static,
    R: TextSource + Drop + Send + 'static,
    C: TextSource + Drop,
    ensures { last.old ≡ [] → AnswersRuled inputs.entry options.now (said_file file.now) settings result last.new }
{
    let Ok(relations) = all_relations(alloc, options, &file.rules) else {
        return Err(CheckFault::Memory);
    };
    let options = Options::new(settings, gate);
    check_relations(
        rt,
        alloc,
        inputs,
        &file.memories,
        relations,
        options,
        last,
        witness,
    )
}

// The check.

ghost use Rattle.std.specs.Prelude.{◌≡◌, ◌≤◌, map};
ghost use Rattle.apex_types.specs.declared.limits.TheConstants.{LARGEST_ROUND};
ghost use Rattle.user_rules.specs.Remembered.{required_by};
ghost use Rattle.user_rules.specs.Rules.{required_of};
ghost use Rattle.report.specs.Answers.{Answers, AnswersWith, given_by};

use crate::fault::{ArgumentFault, CheckFault, config_refusal};
use crate::inputs::Inputs;
use crate::last::Last;
use crate::options::Options;
use crate::rounds::{Terms, judge_all};
use crate::settings::Settings;
use crate::witness::{Nobody, Witness};
use apex_types::View;
use apex_types::limits::LARGEST_ROUND;
use core_intake::Intake;
use csv_rows::TextSource;
use module_config::Config;
use order_cert::CertSource;
use placement::Placer;
use std::alloc::Global;
use std::sync::Wait;
use std::thread::Threads;
use user_rules::{Relation, Rule, RuleMemory, Test};
use verdict_merge::{Gate, Verdict};

/// Checks the recordings against the configuration, the order that the certificate proposes, and the user's rules.
///
/// A thread of its own reads each recording while records are judged. The workers judge the pieces of a round, and the gate sees
/// each claim and each post. At most two rounds are held at a time, of which one is judged while the other is filled, and for each core
/// the records that were read ahead. After a round with a rejected record, no more is taken than the round that was filled meanwhile,
/// and the threads are stopped.
///
/// The answer is Yes with the number of records if the order is lawful, the records in this order are a run of the machine, and each
/// rule holds of each record's view, with the values that the memories have at it. It is No with the first place that has no step, the
/// piece that rejects the record and its cause; or the first place whose view breaks a rule, with the number of the rule. Else it is the
/// first refusal: of the settings, of the configuration, of the number of readers, and then at the least place. The answer is the same
/// for all settings that are not refused, for every gate and every size of rounds, and however the threads interleave. It is Memory if
/// memory or a thread was refused at any point. A reader that returns an error ends its text there, with the fault Read.
///
/// A No and a broken rule also hold of the machine. The certificate's first pairs are then a lawful order of the first records of the
/// recordings. The records before the place of a No are a run of the machine in which each rule holds, and the machine has no step for
/// the record at the place. The records up to and including the place of a broken rule are a run, and the view there is the first that
/// breaks a rule.
///
/// `last` receives the last records before the place of a No or of a broken rule, at most eight, and none after any other answer. The
/// witness receives what is at that place.
///
/// All threads have ended when the call returns. A reader that blocks in its own read holds up the call until that read returns.
pub fn check_inputs<T, R, C, G, V>(
    rt: T,
    alloc: Global,
    inputs: Inputs<'_, R, C>,
    memories: &[RuleMemory],
    rules: &[Rule],
    options: Options<'_, G>,
    last: &mut Last,
    witness: &mut V,
) -> Result<Verdict, CheckFault>
where
    T: Threads + Wait + Sync + Copy + Send + 'static,
    R: TextSource + Drop + Send + 'static,
    C: TextSource + Drop,
    G: Gate + Sync,
    V: Witness,
    ensures { AnswersWith inputs.entry (required_of memories.now rules.now) options.entry.settings result last.new }
{
    last.clear();
    if let Some(fault) = options.settings.fault() {
        return Err(CheckFault::Arguments(fault));
    }
    let config = match Config::read(alloc, inputs.config) {
        Ok(config) => config,
        Err(fault) => return Err(config_refusal(fault)),
    };
    if inputs.recordings.len() != config.cores() as usize {
        return Err(CheckFault::Arguments(ArgumentFault::ReaderCount));
    }
    config.keeps_limits();
    // Workers read it while the placer is written to. In a box of its own it shares no cache line with the placer.
    let Ok(config) = Box::new(alloc, config) else {
        return Err(CheckFault::Memory);
    };
    let Inputs {
        config: _,
        recordings,
        order,
    } = inputs;
    let Ok(intake) = Intake::open(rt, alloc, recordings, options.settings.depth) else {
        return Err(CheckFault::Memory);
    };
    let mut placer = Placer::new(intake, CertSource::new(alloc, order));
    let terms = Terms {
        config: &config,
        memories,
        rules,
        options: &options,
    };
    let answer = judge_all(&rt, alloc, &terms, &mut placer, last, witness);
    options.gate.at_answer();
    placer.close(&rt);
    last.settle(&answer);
    answer
}

/// The answer of `check_inputs` under these memories and the rules of these relations, each of which is its own test, and what it leaves.
///
/// Memory also if it is refused for the tests.
#[tactic(auto, using(crate::proofs::Answering::want_of_memory))]
pub fn check_relations<T, R, C, G, V>(
    rt: T,
    alloc: Global,
    inputs: Inputs<'_, R, C>,
    memories: &[RuleMemory],
    relations: Vec<Relation>,
    options: Options<'_, G>,
    last: &mut Last,
    witness: &mut V,
) -> Result<Verdict, CheckFault>
where
    T: Threads + Wait + Sync + Copy + Send + 'static,
    R: TextSource + Drop + Send + 'static,
    C: TextSource + Drop,
    G: Gate + Sync,
    V: Witness,
    ensures { AnswersWith inputs.entry (required_by memories.now relations.items) options.entry.settings result last.new }
{
    last.clear();
    let mut rules = Vec::new(alloc);
    for relation in relations {
        let Ok(tested) = relation.clone() else {
            return Err(CheckFault::Memory);
        };
        let Ok(test) = Box::new(
            alloc,
            move |view: &View, values: &[i64]| tested.holds(view, values),
        ) else {
            return Err(CheckFault::Memory);
        };
        let test: Test = test;
        if rules.push(Rule::new(relation, test)).is_err() {
            return Err(CheckFault::Memory);
        }
    }
    check_inputs(rt, alloc, inputs, memories, &rules, options, last, witness)
}

/// The same check, without the last records and without a witness.
pub fn check<T, R, C, G>(
    rt: T,
    alloc: Global,
    config: &[u8],
    readers: Vec<R>,
    cert: C,
    memories: &[RuleMemory],
    rules: &[Rule],
    settings: Settings,
    gate: &G,
) -> Result<Verdict, CheckFault>
where
    T: Threads + Wait + Sync + Copy + Send + 'static,
    R: TextSource + Drop + Send + 'static,
    C: TextSource + Drop,
    G: Gate + Sync,
    ensures { Answers (given_by config.now (map R.remaining readers.items) R.can_fail (C.remaining cert) C.can_fail) (required_of memories.now rules.now) settings result }
{
    check_in_rounds(
        rt,
        alloc,
        config,
        readers,
        cert,
        memories,
        rules,
        settings,
        gate,
        LARGEST_ROUND,
    )
}

/// The same check, which also leaves the last records before the place of a No or of a broken rule.
pub fn check_with_last<T, R, C, G>(
    rt: T,
    alloc: Global,
    config: &[u8],
    readers: Vec<R>,
    cert: C,
    memories: &[RuleMemory],
    rules: &[Rule],
    settings: Settings,
    gate: &G,
    last: &mut Last,
) -> Result<Verdict, CheckFault>
where
    T: Threads + Wait + Sync + Copy + Send + 'static,
    R: TextSource + Drop + Send + 'static,
    C: TextSource + Drop,
    G: Gate + Sync,
    ensures { AnswersWith (given_by config.now (map R.remaining readers.items) R.can_fail (C.remaining cert) C.can_fail) (required_of memories.now rules.now) settings result last.new }
{
    let inputs = Inputs::new(config, readers, cert);
    let options = Options::new(settings, gate);
    check_inputs(
        rt,
        alloc,
        inputs,
        memories,
        rules,
        options,
        last,
        &mut Nobody,
    )
}

/// The same check with rounds of at most this many records, from 1 to the largest round.
pub fn check_in_rounds<T, R, C, G>(
    rt: T,
    alloc: Global,
    config: &[u8],
    readers: Vec<R>,
    cert: C,
    memories: &[RuleMemory],
    rules: &[Rule],
    settings: Settings,
    gate: &G,
    size: usize,
) -> Result<Verdict, CheckFault>
where
    T: Threads + Wait + Sync + Copy + Send + 'static,
    R: TextSource + Drop + Send + 'static,
    C: TextSource + Drop,
    G: Gate + Sync,
    requires least { 1 ≤ size }
    requires most { size ≤ LARGEST_ROUND }
    ensures { Answers (given_by config.now (map R.remaining readers.items) R.can_fail (C.remaining cert) C.can_fail) (required_of memories.now rules.now) settings result }
{
    let Ok(mut last) = Last::new(alloc) else {
        return Err(CheckFault::Memory);
    };
    let inputs = Inputs::new(config, readers, cert);
    let options = Options::new(settings, gate).in_rounds(size);
    check_inputs(
        rt,
        alloc,
        inputs,
        memories,
        rules,
        options,
        &mut last,
        &mut Nobody,
    )
}

// The search under the rules of options and of a rules file.

ghost use Rattle.std.specs.Prelude.{◌≡◌, ℕ, List, Ok, Some, length, map, option_map};
ghost use Rattle.apex_machine.specs.Configuration.{Configuration};
ghost use Rattle.module_config.specs.Reading.{configuration_of};
ghost use Rattle.record_read.specs.Row.{records_of};
ghost use Rattle.user_rules.specs.Remembered.{required_by};
ghost use Rattle.asked_rules.specs.Reading.{said_file};
ghost use Rattle.apexorder.specs.Endings.{EndsSearch, HasReceived, IsCertifiedBy};
ghost use Rattle.apexorder.specs.Ruled.{IsCertified};

use crate::ending::OrderEnd;
use crate::proposing::propose_into;
use apex_types::View;
use asked_rules::{RuleOption, RulesFile, all_relations};
use csv_rows::TextSource;
use order_tip::Watcher;
use program_ends::{Ending, out_of_memory};
use sink::WriterSink;
use std::alloc::Global;
use std::io::Write;
use user_rules::{Relation, Rule, RuleMemory, Test};

/// Searches for an order of these recordings, and tests rules on it: those that these options request, numbered in their order, and those
/// of the file after them, with its memories.
pub fn propose_ruled<S: TextSource + Drop, V: Watcher, W: Write + Drop>(
    alloc: Global,
    effort: u64,
    text: &[u8],
    options: &[RuleOption],
    file: &RulesFile,
    cores: Vec<S>,
    watcher: &mut V,
    output: &mut WriterSink<W>,
) -> Ending<OrderEnd>
    ensures rows { HasReceived (configuration_of text.now) (map (λ source. option_map records_of (S.remaining source)) cores.items) output.old.bytes output.new.bytes }
    ensures ended { EndsSearch (configuration_of text.now) (length cores.items) result }
    ensures certified { (configuration : Configuration) (texts : List (List ℕ)) → configuration_of text.now ≡ Ok configuration → map S.remaining cores.items ≡ map Some texts → IsCertified configuration options.now (said_file file.now) texts output.old.bytes output.new.bytes result }
{
    match all_relations(alloc, options, &file.rules) {
        Ok(relations) => propose_under(
            alloc,
            effort,
            text,
            &file.memories,
            relations,
            cores,
            watcher,
            output,
        ),
        Err(_) => out_of_memory(),
    }
}

// Searches for an order of these recordings, and tests these relations on it, with these memories.
#[tactic(auto, using(crate::proofs::Searched::memory_ends))]
fn propose_under<S: TextSource + Drop, V: Watcher, W: Write + Drop>(
    alloc: Global,
    effort: u64,
    text: &[u8],
    memories: &[RuleMemory],
    relations: Vec<Relation>,
    cores: Vec<S>,
    watcher: &mut V,
    output: &mut WriterSink<W>,
) -> Ending<OrderEnd>
    ensures rows { HasReceived (configuration_of text.now) (map (λ source. option_map records_of (S.remaining source)) cores.items) output.old.bytes output.new.bytes }
    ensures ended { EndsSearch (configuration_of text.now) (length cores.items) result }
    ensures certified { (configuration : Configuration) (texts : List (List ℕ)) → configuration_of text.now ≡ Ok configuration → map S.remaining cores.items ≡ map Some texts → IsCertifiedBy configuration (required_by memories.now relations.items) texts output.old.bytes output.new.bytes result }
{
    let mut rules = Vec::new(alloc);
    for relation in relations {
        let Ok(tested) = relation.clone() else {
            return out_of_memory();
        };
        let Ok(test) = Box::new(
            alloc,
            move |view: &View, values: &[i64]| tested.holds(view, values),
        ) else {
            return out_of_memory();
        };
        let test: Test = test;
        if rules.push(Rule::new(relation, test)).is_err() {
            return out_of_memory();
        }
    }
    propose_into(
        alloc, effort, text, memories, &rules, cores, watcher, output,
    )
}

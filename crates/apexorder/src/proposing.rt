// The search over recordings that are opened.

ghost use Rattle.std.specs.Prelude.{◌≡◌, ℕ, List, Ok, Some, length, map, option_map};
ghost use Rattle.apex_machine.specs.Configuration.{Configuration};
ghost use Rattle.module_config.specs.Reading.{configuration_of};
ghost use Rattle.record_read.specs.Row.{records_of};
ghost use Rattle.user_rules.specs.Rules.{required_of};
ghost use Rattle.apexorder.specs.Endings.{EndsSearch, HasReceived, IsCertifiedBy};

use crate::ending::{OrderEnd, refused_by};
use csv_rows::TextSource;
use module_config::{Config, ConfigFault};
use order_tip::{Limits, MOST_UNDECIDED, Watcher, propose};
use program_ends::{Ending, out_of_memory};
use report::{ArgumentFault, CheckFault};
use sink::WriterSink;
use std::alloc::Global;
use std::io::Write;
use user_rules::{Rule, RuleMemory};

/// Searches for an order of these recordings under the configuration with this text, and writes its certificate to this output. The rules
/// are tested on it.
///
/// Whatever the end is, the output received the first bytes of rows that begin a lawful order of the configured cores and list the first
/// records of the recordings, and nothing if the text is no configuration. If the end is a proposal, the output received the whole
/// certificate, and the proposal means of the configuration, the rules and the recordings what `order_run` says. A refusal of the
/// configuration comes before that of the number of recordings.
#[tactic(auto, using(crate::proofs::Written::none_received, crate::proofs::Written::received, crate::proofs::Written::certified, crate::proofs::Written::none_is_certified, crate::proofs::Searched::memory_ends, crate::proofs::Searched::configuration_ends, crate::proofs::Searched::count_ends, crate::proofs::Searched::proposal_ends, crate::proofs::Searched::output_ends, crate::proofs::Searched::fault_ends))]
pub fn propose_into<S: TextSource + Drop, V: Watcher, W: Write + Drop>(
    alloc: Global,
    effort: u64,
    text: &[u8],
    memories: &[RuleMemory],
    rules: &[Rule],
    cores: Vec<S>,
    watcher: &mut V,
    output: &mut WriterSink<W>,
) -> Ending<OrderEnd>
    ensures rows { HasReceived (configuration_of text.now) (map (λ source. option_map records_of (S.remaining source)) cores.items) output.old.bytes output.new.bytes }
    ensures ended { EndsSearch (configuration_of text.now) (length cores.items) result }
    ensures certified { (configuration : Configuration) (texts : List (List ℕ)) → configuration_of text.now ≡ Ok configuration → map S.remaining cores.items ≡ map Some texts → IsCertifiedBy configuration (required_of memories.now rules.now) texts output.old.bytes output.new.bytes result }
{
    let config = match Config::read(alloc, text) {
        Ok(config) => config,
        Err(ConfigFault::Memory) => return out_of_memory(),
        Err(fault) => return Ending::Own(OrderEnd::Refused(CheckFault::Config(fault))),
    };
    if cores.len() != config.cores() as usize {
        return Ending::Own(OrderEnd::Refused(CheckFault::Arguments(ArgumentFault::ReaderCount)));
    }
    let limits = Limits {
        window: MOST_UNDECIDED,
        effort,
    };
    match propose(
        alloc, &config, memories, rules, cores, limits, watcher, output,
    ) {
        Ok(proposal) => match output.flush() {
            Ok(()) => Ending::Own(OrderEnd::Proposed(proposal)),
            Err(_) => Ending::Own(OrderEnd::Unwritten),
        },
        Err(fault) => refused_by(fault),
    }
}

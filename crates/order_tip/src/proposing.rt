// An order is searched for and proposed.

ghost use Rattle.std.specs.Prelude.{◌≡◌, ℕ, List, Option, Some, IfOk, length, map, option_map};
ghost use Rattle.apex_types.specs.declared.record.Pair.{Pair};
ghost use Rattle.order_cert.specs.Order.{IsPrefixOfLawful};
ghost use Rattle.record_read.specs.Row.{records_of};
ghost use Rattle.sink.specs.Written.{IsWritten};
ghost use Rattle.user_rules.specs.Rules.{required_of};
ghost use Rattle.order_run.specs.Proposal.{HaveGoneOut, IsProposed, ListsFirst};
ghost use Rattle.order_run.specs.Rows.{rows_of};

use crate::exploration::Exploration;
use crate::guided::Guided;
use crate::machine::Machine;
use crate::watcher::Watcher;
use csv_rows::TextSource;
use module_config::Config;
use order_run::{Guide, Lanes, Proposal, ProposalFault, propose_by};
use order_search::{Limits, Search};
use sink::Sink;
use std::alloc::{AllocError, Global};
use user_rules::{Rule, RuleMemory};

/// How many records may be undecided by default.
pub const MOST_UNDECIDED: usize = 65_536;

/// Searches for an order of the records of these recordings, one for each core of the configuration, and writes its certificate.
///
/// Whatever it answers, the rows that it wrote are a prefix of a lawful order, and list the first records of each recording. If it proposes an order, they list every record.
/// `Found`: in that order the records are a run of the machine from the cold state. `NotFound`: the records before the place are such a
/// run, and the machine has no step that takes the record at the place. Of both it says which of these rules is broken first, and where;
/// the rules decide nothing in the search.
pub fn propose<R: TextSource + Drop, W: Sink, V: Watcher>(
    alloc: Global,
    config: &Config,
    memories: &[RuleMemory],
    rules: &[Rule],
    sources: Vec<R>,
    limits: Limits,
    watcher: &mut V,
    out: &mut W,
) -> Result<Proposal, ProposalFault>
    requires { length sources.items ≡ config.now.cores }
    ensures prefix { (pairs : List Pair) × IsPrefixOfLawful config.now.cores pairs × ListsFirst config.now.cores (map (λ source. option_map records_of (R.remaining source)) sources.items) pairs × HaveGoneOut (W.bytes out.old) (rows_of pairs) result (W.bytes out.new) }
    ensures proposed { (texts : List (List ℕ)) → map R.remaining sources.items ≡ map Some texts → IfOk result (λ proposal. (certificate : List ℕ) × IsWritten (W.bytes out.old) certificate (W.bytes out.new) × IsProposed config.now (required_of memories.now rules.now) texts certificate proposal) }
{
    match explored(alloc, config, sources, limits) {
        Ok(exploration) => {
            let guide = Guided {
                config,
                exploration,
                watcher,
            };
            propose_with(alloc, config, memories, rules, guide, out)
        }
        Err(_) => Err(ProposalFault::Memory),
    }
}

// Puts all records in one order, as a guide of its own says, and writes its certificate.
fn propose_with<G: Guide + Drop, W: Sink>(
    alloc: Global,
    config: &Config,
    memories: &[RuleMemory],
    rules: &[Rule],
    guide: G,
    out: &mut W,
) -> Result<Proposal, ProposalFault>
    requires { length (G.left guide) ≡ config.now.cores }
    ensures prefix { (pairs : List Pair) × IsPrefixOfLawful config.now.cores pairs × ListsFirst config.now.cores (G.left guide) pairs × HaveGoneOut (W.bytes out.old) (rows_of pairs) result (W.bytes out.new) }
    ensures proposed { (texts : List (List ℕ)) → G.left guide ≡ map (λ text. Some (records_of text)) texts → IfOk result (λ proposal. (certificate : List ℕ) × IsWritten (W.bytes out.old) certificate (W.bytes out.new) × IsProposed config.now (required_of memories.now rules.now) texts certificate proposal) }
{
    let mut guide = guide;
    propose_by(alloc, config, memories, rules, &mut guide, out)
}

// The exploration of these recordings, before the first record.
fn explored<'a, R: TextSource + Drop>(
    alloc: Global,
    config: &'a Config,
    sources: Vec<R>,
    limits: Limits,
) -> Result<Exploration<'a, R>, AllocError>
    ensures { IfOk result (λ exploration. exploration.machine.outlook.lanes ≡ map (λ source. option_map records_of (R.remaining source)) sources.items) }
{
    let lanes = Lanes::open(alloc, sources)?;
    let search = Search::new(alloc, lanes.count(), limits)?;
    let machine = Machine::start(alloc, config, lanes)?;
    Ok(Exploration::new(search, machine))
}

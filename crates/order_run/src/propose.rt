// An order is proposed.

ghost use Rattle.std.specs.Prelude.{◌≡◌, ◌≢◌, ◌<◌, ℕ, List, Option, Some, IfOk, OnOk, false, length, map};
ghost use Rattle.apex_types.specs.declared.record.Pair.{Pair};
ghost use Rattle.order_cert.specs.Order.{IsPrefixOfLawful};
ghost use Rattle.record_read.specs.Row.{records_of};
ghost use Rattle.sink.specs.Written.{IsWritten};
ghost use Rattle.user_rules.specs.Rules.{required_of};
ghost use Rattle.order_run.specs.Left.{HasEnded, Lefts, left_at};
ghost use Rattle.order_run.specs.Proposal.{HaveGoneOut, IsProposed, ListsFirst};
ghost use Rattle.order_run.specs.Rows.{rows_of};
ghost use Rattle.order_run.specs.UnderWay.{GoesOn, IsUnderWay};

use crate::guide::Guide;
use crate::proposal::{Proposal, ProposalFault};
use crate::run::Run;
use apex_types::CoreId;
use module_config::Config;
use sink::Sink;
use std::alloc::Global;
use user_rules::{Rule, RuleMemory};

/// Puts all records in one order, as the guide says, and writes its certificate row by row. A row is written once its record was
/// judged, or after the row of the record that is refused.
///
/// The rules decide nothing of the order. Each view is tested by them as a check does it, and the first that breaks one is reported.
///
/// Where the guide knows no further record, the remaining records follow in the order of the cores.
pub fn propose_by<G: Guide, W: Sink>(
    alloc: Global,
    config: &Config,
    memories: &[RuleMemory],
    rules: &[Rule],
    guide: &mut G,
    out: &mut W,
) -> Result<Proposal, ProposalFault>
    requires { length (G.left guide.old) ≡ config.now.cores }
    ensures prefix { (pairs : List Pair) × IsPrefixOfLawful config.now.cores pairs × ListsFirst config.now.cores (G.left guide.old) pairs × HaveGoneOut (W.bytes out.old) (rows_of pairs) result (W.bytes out.new) }
    ensures proposed { (texts : List (List ℕ)) → G.left guide.old ≡ map (λ text. Some (records_of text)) texts → IfOk result (λ proposal. (certificate : List ℕ) × IsWritten (W.bytes out.old) certificate (W.bytes out.new) × IsProposed config.now (required_of memories.now rules.now) texts certificate proposal) }
{
    config.keeps_limits();
    let mut run = Run::start(alloc, config, memories)?;
    follow(config, memories, rules, guide, &mut run, out)?;
    drain_all(config, memories, rules, guide, &mut run, out)?;
    run.settle(config, memories, rules, out)?;
    Ok(run.proposal())
}

// Puts records as the guide says, until it knows none or one was refused.
fn follow<G: Guide, W: Sink>(
    config: &Config,
    memories: &[RuleMemory],
    rules: &[Rule],
    guide: &mut G,
    run: &mut Run,
    out: &mut W,
) -> Result<(), ProposalFault>
    requires { (bytes : Option (List ℕ)) × (start : Lefts) × IsUnderWay config.now (required_of memories.now rules.now) bytes start run.old (G.left guide.old) (W.bytes out.old) }
    ensures { (bytes : Option (List ℕ)) (start : Lefts) → IsUnderWay config.now (required_of memories.now rules.now) bytes start run.old (G.left guide.old) (W.bytes out.old) → GoesOn config.now (required_of memories.now rules.now) bytes start result run.new (G.left guide.new) (W.bytes out.new) }
{
    for _ in 0..u64::MAX {
        if run.refused.is_some() {
            return Ok(());
        }
        let next = guide.next()?;
        let Some(core) = next else {
            return Ok(());
        };
        if core >= config.cores() as usize {
            return Ok(());
        }
        let is_put = put_next(config, memories, rules, guide, run, core as u8, out)?;
        if !is_put {
            return Ok(());
        }
    }
    Ok(())
}

// Puts the remaining records of all cores, one core after another.
fn drain_all<G: Guide, W: Sink>(
    config: &Config,
    memories: &[RuleMemory],
    rules: &[Rule],
    guide: &mut G,
    run: &mut Run,
    out: &mut W,
) -> Result<(), ProposalFault>
    requires { (bytes : Option (List ℕ)) × (start : Lefts) × IsUnderWay config.now (required_of memories.now rules.now) bytes start run.old (G.left guide.old) (W.bytes out.old) }
    ensures goes_on { (bytes : Option (List ℕ)) (start : Lefts) → IsUnderWay config.now (required_of memories.now rules.now) bytes start run.old (G.left guide.old) (W.bytes out.old) → GoesOn config.now (required_of memories.now rules.now) bytes start result run.new (G.left guide.new) (W.bytes out.new) }
    ensures ended { OnOk result ((core : ℕ) → core < config.now.cores → HasEnded (G.left guide.new) core) }
{
    for core in 0..config.cores() {
        drain(config, memories, rules, guide, run, core, out)?;
    }
    Ok(())
}

// Puts the remaining records of a core.
fn drain<G: Guide, W: Sink>(
    config: &Config,
    memories: &[RuleMemory],
    rules: &[Rule],
    guide: &mut G,
    run: &mut Run,
    core: u8,
    out: &mut W,
) -> Result<(), ProposalFault>
    requires core { core < config.now.cores }
    requires under_way { (bytes : Option (List ℕ)) × (start : Lefts) × IsUnderWay config.now (required_of memories.now rules.now) bytes start run.old (G.left guide.old) (W.bytes out.old) }
    ensures goes_on { (bytes : Option (List ℕ)) (start : Lefts) → IsUnderWay config.now (required_of memories.now rules.now) bytes start run.old (G.left guide.old) (W.bytes out.old) → GoesOn config.now (required_of memories.now rules.now) bytes start result run.new (G.left guide.new) (W.bytes out.new) }
    ensures others { OnOk result ((other : ℕ) → other ≢ core → left_at (G.left guide.new) other ≡ left_at (G.left guide.old) other) }
    ensures ended { OnOk result (HasEnded (G.left guide.new) core) }
{
    for _ in 0..u64::MAX {
        let is_put = put_next(config, memories, rules, guide, run, core, out)?;
        if !is_put {
            return Ok(());
        }
    }
    Err(ProposalFault::Memory)
}

// Puts the next record of a core. The answer is false where its recording has ended.
fn put_next<G: Guide, W: Sink>(
    config: &Config,
    memories: &[RuleMemory],
    rules: &[Rule],
    guide: &mut G,
    run: &mut Run,
    core: u8,
    out: &mut W,
) -> Result<bool, ProposalFault>
    requires core { core < config.now.cores }
    requires under_way { (bytes : Option (List ℕ)) × (start : Lefts) × IsUnderWay config.now (required_of memories.now rules.now) bytes start run.old (G.left guide.old) (W.bytes out.old) }
    ensures goes_on { (bytes : Option (List ℕ)) (start : Lefts) → IsUnderWay config.now (required_of memories.now rules.now) bytes start run.old (G.left guide.old) (W.bytes out.old) → GoesOn config.now (required_of memories.now rules.now) bytes start result run.new (G.left guide.new) (W.bytes out.new) }
    ensures others { OnOk result ((other : ℕ) → other ≢ core → left_at (G.left guide.new) other ≡ left_at (G.left guide.old) other) }
    ensures ended { IfOk result (λ is_put. is_put ≡ false → HasEnded (G.left guide.new) core) }
{
    make_room(config, memories, rules, run, out)?;
    let taken = guide.take(core as usize)?;
    match taken {
        Some(rec) => {
            run.put(CoreId::new(core), rec)?;
            Ok(true)
        }
        None => Ok(false),
    }
}

// Settles a round that is full.
fn make_room<W: Sink>(
    config: &Config,
    memories: &[RuleMemory],
    rules: &[Rule],
    run: &mut Run,
    out: &mut W,
) -> Result<(), ProposalFault>
    requires { (bytes : Option (List ℕ)) × (start lefts : Lefts) × IsUnderWay config.now (required_of memories.now rules.now) bytes start run.old lefts (W.bytes out.old) }
    ensures { (bytes : Option (List ℕ)) (start lefts : Lefts) → IsUnderWay config.now (required_of memories.now rules.now) bytes start run.old lefts (W.bytes out.old) → GoesOn config.now (required_of memories.now rules.now) bytes start result run.new lefts (W.bytes out.new) }
{
    if !run.is_full() {
        return Ok(());
    }
    run.settle(config, memories, rules, out)?;
    Ok(())
}

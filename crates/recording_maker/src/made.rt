// A run that is made and judged.

ghost use Rattle.std.specs.Prelude.{◌≡◌, IfErr, IfOk, List, Ok, Some, true, ℕ};
ghost use Rattle.recording_maker.specs.Made.{IsMade, IsWanted};
ghost use Rattle.recording_maker.specs.Refused.{IsShown};

use crate::checking::answer_to;
use crate::fault::MakeFault;
use crate::formats::are_in_format;
use crate::kept::line_of;
use apex_types::{Cause, Place};
use module_config::{Config, ConfigFault};
use recording_walk::{WalkPlan, Walked, walk};
use report::{CheckFault, Verdict};
use seed_choices::PortNames;
use std::alloc::Global;
use std::sync::Wait;
use std::thread::Threads;

/// A run that was made: the text of each recording, core 0 first, that of the certificate, the verdict of a check of them, and its line,
/// with its line feed.
#[derive(Debug, Drop)]
pub struct MadeRun {
    pub recordings: Vec<Vec<u8>>,
    pub certificate: Vec<u8>,
    pub verdict: Verdict,
    pub line: Vec<u8>,
}

/// Makes a run of the module that this text configures, by this plan, and judges it. The same text and the same plan make the same run.
///
/// A run is given only if its check has the answer that the plan asks for. If it is not, the fault says why.
#[tactic(auto, using(crate::proofs::Making::made_so))]
pub fn make<T>(rt: T, alloc: Global, config: &[u8], plan: WalkPlan) -> Result<MadeRun, MakeFault>
where
    T: Threads + Wait + Sync + Copy + Send + 'static,
    ensures made { IfOk result (IsMade config.now plan) }
    ensures refused { IfErr result (IsShown config.now plan) }
{
    let Walked { texts, spoilt } = walk_over(alloc, config, plan)?;
    if plan.spoil.is_some() && spoilt.is_none() {
        return Err(MakeFault::NotSpoilt);
    }
    if !are_in_format(alloc, plan.format, &texts.recordings)? {
        return Err(MakeFault::OtherFormat);
    }
    let outcome = answer_to(rt, alloc, config, &texts.recordings, &texts.certificate)?;
    let line = line_of(alloc, &outcome)?;
    let verdict = wanted(plan, spoilt, outcome)?;
    Ok(MadeRun {
        recordings: texts.recordings,
        certificate: texts.certificate,
        verdict,
        line,
    })
}

// The walk of the module that a text configures.
#[tactic(auto, using(crate::proofs::Shown::of_walk))]
fn walk_over(alloc: Global, text: &[u8], plan: WalkPlan) -> Result<Walked, MakeFault>
    ensures { IfErr result (IsShown text.now plan) }
{
    let config = match Config::read(alloc, text) {
        Ok(config) => config,
        Err(ConfigFault::Memory) => return Err(MakeFault::Memory),
        Err(fault) => return Err(MakeFault::Config(fault)),
    };
    let ports = PortNames::read(alloc, text)?;
    Ok(walk(alloc, &config, &ports, plan)?)
}

// The verdict of an outcome, if it is one that the plan asks for, and a No is at the place of the record that is spoilt.
fn wanted(
    plan: WalkPlan,
    spoilt: Option<Place>,
    outcome: Result<Verdict, CheckFault>,
) -> Result<Verdict, MakeFault>
    ensures same { IfOk result (λ verdict. outcome ≡ Ok verdict) }
    ensures wanted { IfOk result (IsWanted plan) }
    ensures refused { (config : List ℕ) → IfErr result (IsShown config plan) }
{
    match outcome {
        Ok(verdict) => {
            if is_wanted(plan, spoilt, &verdict) {
                return Ok(verdict);
            }
            Err(MakeFault::Judged(Ok(verdict)))
        }
        Err(CheckFault::Memory) => Err(MakeFault::Memory),
        Err(fault) => Err(MakeFault::Judged(Err(fault))),
    }
}

// Whether the plan asks for this verdict, and a No is at the place of the record that is spoilt.
fn is_wanted(plan: WalkPlan, spoilt: Option<Place>, verdict: &Verdict) -> bool
    ensures { result ≡ true → IsWanted plan verdict.now }
{
    match verdict {
        Verdict::Yes { records } => match plan.spoil {
            None => *records == plan.records,
            Some(_) => false,
        },
        Verdict::No { pos, cause, .. } => is_at(spoilt, pos) && is_cause(plan.spoil, *cause),
        Verdict::Broken { .. } => false,
    }
}

// Whether the record that is spoilt, if one is, is at this place.
fn is_at(spoilt: Option<Place>, place: &Place) -> bool {
    match spoilt {
        Some(spoilt) => spoilt.number() == place.number(),
        None => false,
    }
}

// Whether this is the cause that is wanted, if one is.
fn is_cause(wanted: Option<Cause>, cause: Cause) -> bool
    ensures { result ≡ true → wanted ≡ Some cause }
{
    match wanted {
        Some(wanted) => is_same_cause(wanted, cause),
        None => false,
    }
}

fn is_same_cause(one: Cause, other: Cause) -> bool
    ensures { result ≡ true → one ≡ other }
{
    one == other
}

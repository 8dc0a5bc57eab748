// The walk: one lawful record after another, and one that is spoilt.

use crate::errors::reports_missed;
use crate::machine::Machine;
use crate::moves::{Chooser, Spot};
use crate::spoiling::spoilt_bodies;
use crate::texts::{RunTexts, Texts};
use crate::walk_fault::WalkFault;
use apex_types::{Cause, CoreId, Format, Ordered, Place};
use module_config::Config;
use seed_choices::{Choices, PortNames};
use std::alloc::{AllocError, Global};

// How many proposals are tried for a record before a core only ticks.
const TRIALS: u8 = 40;

// A further record is of the same core as the last, except for one in so many.
const TURN_IN: u64 = 5;

/// What a walk is to make.
#[derive(Clone, Copy, Debug)]
pub struct WalkPlan {
    /// The seed of its choices.
    pub seed: u64,
    /// How many records all recordings have together.
    pub records: u64,
    /// The format of the recordings.
    pub format: Format,
    /// The cause for which a piece is to reject one record.
    pub spoil: Option<Cause>,
}

/// The texts of a walk, and the place of the record that is spoilt in them, if one is.
#[derive(Drop)]
pub struct Walked {
    pub texts: RunTexts,
    pub spoilt: Option<Place>,
}

/// Walks the machine from its cold start, and writes what happens as recordings and a certificate. With a cause, one record is replaced by
/// one that a piece rejects for this cause: the first that can be where the seed chooses, or else the first of all. If no record can be,
/// none is spoilt.
///
/// `Memory` if it is refused, and `Stuck` if no record is found that the machine accepts next.
pub fn walk(
    alloc: Global,
    config: &Config,
    ports: &PortNames,
    plan: WalkPlan,
) -> Result<Walked, WalkFault> {
    let first = Allowed::chosen(plan);
    let walked = walk_with(alloc, config, ports, plan, first)?;
    if plan.spoil.is_some() && walked.spoilt.is_none() && first != ANYWHERE {
        return walk_with(alloc, config, ports, plan, ANYWHERE);
    }
    Ok(walked)
}

// Where a record may be spoilt.
#[derive(Clone, Copy, Debug, PartialEq, Eq)]
struct Allowed {
    // From this place on.
    from: u64,
    // Whether only the report of a missed deadline may be.
    of_reports: bool,
}

const ANYWHERE: Allowed = Allowed {
    from: 0,
    of_reports: false,
};

impl Allowed {
    // Where the seed of a plan chooses. Reports are few, so they are chosen for every other run that is spoilt for them.
    fn chosen(plan: WalkPlan) -> Allowed {
        let mut choices = Choices::new(plan.seed);
        Allowed {
            from: choices.below(plan.records),
            of_reports: plan.spoil == Some(Cause::Deadline) && choices.one_in(2),
        }
    }

    // Whether this record may be spoilt.
    fn allows(self, ordered: &Ordered) -> bool {
        let may_be = !self.of_reports || reports_missed(&ordered.rec.body);
        may_be && ordered.pos.number() >= self.from
    }
}

// The same, with where a record may be spoilt.
fn walk_with(
    alloc: Global,
    config: &Config,
    ports: &PortNames,
    plan: WalkPlan,
    allowed: Allowed,
) -> Result<Walked, WalkFault> {
    let mut walker = Walker {
        chooser: Chooser {
            alloc,
            ports,
            format: plan.format,
        },
        choices: Choices::new(plan.seed),
        machine: Machine::start(alloc, config)?,
        texts: Texts::new(alloc, plan.format, config.cores())?,
        core: CoreId::new(0),
        spoil: plan.spoil,
        faults: Choices::new(plan.seed),
        allowed,
        spoilt: None,
    };
    for _ in 0..plan.records {
        walker.step()?;
    }
    let Walker { texts, spoilt, .. } = walker;
    Ok(Walked {
        texts: texts.into_run(alloc)?,
        spoilt,
    })
}

// A walk under way.
#[derive(Drop)]
struct Walker<'a> {
    chooser: Chooser<'a>,
    choices: Choices,
    machine: Machine<'a>,
    texts: Texts,
    // The core of the last record.
    core: CoreId,
    // The cause for which a record is to be spoilt, by these choices, where one may be, and the place of the one that is.
    spoil: Option<Cause>,
    faults: Choices,
    allowed: Allowed,
    spoilt: Option<Place>,
}

impl Walker<'_> {
    // Makes the next record.
    fn step(&mut self) -> Result<(), WalkFault> {
        for _ in 0..TRIALS {
            let spot = self.next_spot()?;
            let proposed = self
                .chooser
                .propose(&mut self.choices, &self.machine, spot)?;
            if let Some(ordered) = proposed {
                if self.try_take(ordered)? {
                    return Ok(());
                }
            }
        }
        for number in 0..self.machine.config().cores() {
            let spot = self.spot_on(CoreId::new(number))?;
            let ordered = self.chooser.idle(&mut self.choices, &self.machine, spot)?;
            if self.try_take(ordered)? {
                return Ok(());
            }
        }
        Err(WalkFault::Stuck)
    }

    // The place of the next record, on a core that is chosen.
    fn next_spot(&mut self) -> Result<Spot, WalkFault> {
        if self.choices.one_in(TURN_IN) {
            let cores = u64::from(self.machine.config().cores());
            let number = u8::try_from(self.choices.below(cores)).unwrap_or(0);
            self.core = CoreId::new(number);
        }
        self.spot_on(self.core)
    }

    // The place of the next record, on this core.
    fn spot_on(&self, core: CoreId) -> Result<Spot, WalkFault> {
        match self.machine.next() {
            Some(place) => Ok(Spot {
                place,
                core,
                seq: self.texts.next(core),
            }),
            None => Err(WalkFault::Stuck),
        }
    }

    // Takes a record if no piece rejects it, and writes it, or a spoilt one in its place. Returns whether it did.
    fn try_take(&mut self, ordered: Ordered) -> Result<bool, WalkFault> {
        if self.machine.rejection(&ordered).is_some() {
            return Ok(false);
        }
        let other = self.spoilt_of(&ordered)?;
        self.write(&ordered, other)?;
        self.machine.take(&ordered)?;
        Ok(true)
    }

    // Writes a record, or the spoilt one in its place, if there is one.
    fn write(&mut self, ordered: &Ordered, other: Option<Ordered>) -> Result<(), WalkFault> {
        match other {
            Some(other) => {
                self.spoilt = Some(other.pos);
                self.texts.add(other.core, &other.rec)?;
            }
            None => self.texts.add(ordered.core, &ordered.rec)?,
        }
        Ok(())
    }

    // A record that may take the place of this one, so that a piece rejects it for the wanted cause, if one is wanted here and found. It is
    // one that is chosen among those that are found, by choices of its own: what follows stays as it is without it.
    fn spoilt_of(&mut self, ordered: &Ordered) -> Result<Option<Ordered>, WalkFault> {
        let Some(cause) = self.spoil else {
            return Ok(None);
        };
        if self.spoilt.is_some() || !self.allowed.allows(ordered) {
            return Ok(None);
        }
        let spot = self.spot_on(ordered.core)?;
        let mut found = self.rejected(spot, ordered, cause)?;
        let index = self.faults.index(found.len());
        if index < found.len() {
            Ok(Some(found.swap_remove(index)))
        } else {
            Ok(None)
        }
    }

    // The records that may take the place of this one at its spot, and that a piece rejects for this cause.
    fn rejected(
        &self,
        spot: Spot,
        ordered: &Ordered,
        cause: Cause,
    ) -> Result<Vec<Ordered>, AllocError> {
        let Chooser { alloc, format, .. } = self.chooser;
        let mut found = Vec::new(alloc);
        for body in spoilt_bodies(alloc, format, &self.machine, ordered, cause)? {
            let other = spot.record(body);
            if self.machine.rejection(&other) == Some(cause) {
                found.push(other)?;
            }
        }
        Ok(found)
    }
}

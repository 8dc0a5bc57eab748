// What has figures: windows, processes, objects and channels, in the order of their numbers.

use apex_types::{ChanId, Who};
use run_numbers::{Figure, Named, Numbers, Thing, WindowKey};
use std::alloc::{AllocError, Global};
use std::collections::BTreeSet;

/// What has figures, or at least a name, in the order of the numbers.
#[derive(Drop)]
pub struct Subjects {
    pub windows: BTreeSet<WindowKey>,
    pub processes: BTreeSet<Who>,
    /// Objects and locks, and no channel.
    pub things: BTreeSet<Thing>,
    pub sampling: BTreeSet<ChanId>,
    pub queuing: BTreeSet<ChanId>,
}

impl Subjects {
    /// What has figures in these numbers.
    ///
    /// `AllocError` if memory is refused.
    pub fn of(alloc: Global, numbers: &Numbers) -> Result<Subjects, AllocError> {
        let mut subjects = Subjects {
            windows: BTreeSet::new(alloc),
            processes: BTreeSet::new(alloc),
            things: BTreeSet::new(alloc),
            sampling: BTreeSet::new(alloc),
            queuing: BTreeSet::new(alloc),
        };
        'figures: for index in 0..usize::MAX {
            let Some(figure) = numbers.tallies().figure_at(index) else {
                break;
            };
            subjects.add(figure)?;
        }
        'names: for index in 0..usize::MAX {
            let Some(named) = numbers.names().at(index) else {
                break;
            };
            subjects.add_named(named)?;
        }
        Ok(subjects)
    }

    fn add_named(&mut self, named: &Named) -> Result<(), AllocError> {
        match named {
            Named::Process(who) => self.add_process(who),
            Named::Object(thing) => self.add_thing(thing),
        }
    }

    fn add(&mut self, figure: &Figure) -> Result<(), AllocError> {
        match figure {
            Figure::CoreTicks(_) | Figure::IdleTicks(_) => Ok(()),
            Figure::WindowTicks(window) | Figure::BusyTicks(window) => self.add_window(window),
            Figure::Spent(who, _)
            | Figure::Releases(who)
            | Figure::Lateness(who)
            | Figure::Response(who)
            | Figure::Missed(who)
            | Figure::Slack(who)
            | Figure::Calls(who, _)
            | Figure::Waits(who, _)
            | Figure::Waited(who, _)
            | Figure::TimeOuts(who, _) => self.add_process(who),
            Figure::Waiters(thing)
            | Figure::Messages(thing)
            | Figure::Hold(thing)
            | Figure::Outranked(thing) => self.add_thing(thing),
            Figure::Writes(channel)
            | Figure::Reads(channel)
            | Figure::InvalidReads(channel)
            | Figure::Ages(channel) => self.add_sampling(*channel),
        }
    }

    fn add_window(&mut self, window: &WindowKey) -> Result<(), AllocError> {
        self.windows.insert(*window)?;
        Ok(())
    }

    fn add_process(&mut self, who: &Who) -> Result<(), AllocError> {
        self.processes.insert(*who)?;
        Ok(())
    }

    fn add_thing(&mut self, thing: &Thing) -> Result<(), AllocError> {
        if let Thing::Channel(channel) = thing {
            self.queuing.insert(*channel)?;
        } else {
            self.things.insert(*thing)?;
        }
        Ok(())
    }

    fn add_sampling(&mut self, channel: ChanId) -> Result<(), AllocError> {
        self.sampling.insert(channel)?;
        Ok(())
    }
}

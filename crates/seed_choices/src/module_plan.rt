// What a random module has.

use crate::choices::Choices;
use apex_machine::ErrorPolicy;
use std::alloc::{AllocError, Global};

// The most partitions that are planned.
const MOST_PARTITIONS: i64 = 4;

// The least length of a window. The shortest major frame has room for one of each partition.
const SHORTEST_WINDOW: u64 = 2;

// The lengths of major frames.
const FRAMES: [u64; 4] = [8, 12, 20, 40];

/// A partition: its number, its cores, and how often its period is the major frame.
#[derive(Debug, Drop)]
pub struct PartitionPlan {
    pub number: u64,
    pub cores: Vec<u64>,
    pub frames: u64,
    /// What is done about its errors, if the configuration says so.
    pub on_error: Option<ErrorPolicy>,
    /// The limits of processes, buffers, blackboards, semaphores, events and mutexes.
    pub limits: [u64; 6],
}

/// A window of a partition on a core.
#[derive(Clone, Copy, Debug)]
pub struct WindowPlan {
    pub core: u64,
    pub partition: u64,
    pub start: u64,
    pub length: u64,
}

/// An end of a channel that is outside the module.
#[derive(Clone, Copy, Debug, PartialEq, Eq)]
pub enum OutsideEnd {
    Source,
    Destination,
}

/// A channel from one partition to others, or from or to the outside. A queuing channel has a capacity, and leads to the first of its
/// destinations.
#[derive(Debug, Drop)]
pub struct ChannelPlan {
    pub number: u64,
    pub size: u64,
    pub outside: Option<OutsideEnd>,
    pub source: u64,
    pub destinations: Vec<u64>,
    pub capacity: Option<u64>,
    pub refresh: u64,
    /// Whether its senders, and its receivers, wait by priority.
    pub by_priority: [bool; 2],
}

/// A module.
#[derive(Debug, Drop)]
pub struct ModulePlan {
    pub cores: u64,
    pub frame: u64,
    pub skew: u64,
    pub partitions: Vec<PartitionPlan>,
    pub windows: Vec<WindowPlan>,
    pub channels: Vec<ChannelPlan>,
}

impl ModulePlan {
    /// A module of these choices.
    ///
    /// `AllocError` if memory is refused.
    pub fn new(alloc: Global, choices: &mut Choices) -> Result<ModulePlan, AllocError> {
        let cores = choices.below(4).saturating_add(1);
        let frame = choices.of(&FRAMES).unwrap_or(10);
        let mut plan = ModulePlan {
            cores,
            frame,
            skew: choices.below(9).saturating_add(1),
            partitions: Vec::new(alloc),
            windows: Vec::new(alloc),
            channels: Vec::new(alloc),
        };
        plan.add_partitions(alloc, choices)?;
        for core in 0..cores {
            plan.add_windows(alloc, choices, core)?;
        }
        plan.add_channels(alloc, choices)?;
        Ok(plan)
    }

    // Adds partitions under rising numbers.
    fn add_partitions(&mut self, alloc: Global, choices: &mut Choices) -> Result<(), AllocError> {
        let count = choices.between(1, MOST_PARTITIONS);
        let mut number = 0_u64;
        for _ in 0..count {
            number = number.saturating_add(choices.below(3));
            let limits = [
                choices.below(8).saturating_add(2),
                choices.below(4),
                choices.below(3),
                choices.below(4),
                choices.below(3),
                choices.below(3),
            ];
            self.partitions.push(PartitionPlan {
                number,
                cores: some_cores(alloc, choices, self.cores)?,
                frames: choices.below(2).saturating_add(1),
                on_error: policy(choices, self.partitions.is_empty()),
                limits,
            })?;
            number = number.saturating_add(1);
        }
        Ok(())
    }

    // Adds a window on a core for each partition that has the core, in any order. Some share what the major frame has evenly, and some are
    // longer than others; some end early.
    fn add_windows(
        &mut self,
        alloc: Global,
        choices: &mut Choices,
        core: u64,
    ) -> Result<(), AllocError> {
        let mut there: Vec<u64> = Vec::new(alloc);
        for partition in &self.partitions {
            if partition.cores.contains(&core) {
                there.push(partition.number)?;
            }
        }
        choices.shuffle(there.as_mut_slice());
        let mut left = there.len() as u64;
        let mut start = 0_u64;
        for partition in there {
            let length = window_length(choices, self.frame.saturating_sub(start), left);
            let gap = if length > SHORTEST_WINDOW && choices.one_in(3) {
                1
            } else {
                0
            };
            self.windows.push(WindowPlan {
                core,
                partition,
                start,
                length: length.saturating_sub(gap),
            })?;
            start = start.saturating_add(length);
            left = left.saturating_sub(1);
        }
        Ok(())
    }

    // Adds channels between partitions, and from and to the outside.
    fn add_channels(&mut self, alloc: Global, choices: &mut Choices) -> Result<(), AllocError> {
        let count = choices.below(7);
        let mut number = 0_u64;
        for _ in 0..count {
            number = number.saturating_add(choices.below(9));
            let channel = self.channel(alloc, choices, number)?;
            self.channels.push(channel)?;
            number = number.saturating_add(1);
        }
        Ok(())
    }

    // A channel of this number.
    fn channel(
        &self,
        alloc: Global,
        choices: &mut Choices,
        number: u64,
    ) -> Result<ChannelPlan, AllocError> {
        let outside = self.outside_end(choices);
        let source = choices.index(self.partitions.len());
        let is_queuing = choices.one_in(2);
        let destinations = self.destinations(alloc, source, outside)?;
        Ok(ChannelPlan {
            number,
            size: choices.below(12).saturating_add(1),
            outside,
            source: self.number_at(source),
            destinations: if is_queuing || choices.one_in(2) {
                one_of(alloc, choices, &destinations)?
            } else {
                destinations
            },
            capacity: if is_queuing {
                Some(choices.below(3).saturating_add(1))
            } else {
                None
            },
            refresh: choices.below(30).saturating_add(1),
            by_priority: [choices.one_in(2), choices.one_in(2)],
        })
    }

    // The end of a channel that is outside: none for most, if there are partitions for both ends.
    fn outside_end(&self, choices: &mut Choices) -> Option<OutsideEnd> {
        if self.partitions.len() > 1 && !choices.one_in(3) {
            return None;
        }
        choices.of(&[OutsideEnd::Source, OutsideEnd::Destination])
    }

    // The partitions to which a channel from the one at this index can lead: all others, or all if its source is outside.
    fn destinations(
        &self,
        alloc: Global,
        source: usize,
        outside: Option<OutsideEnd>,
    ) -> Result<Vec<u64>, AllocError> {
        let mut others = Vec::new(alloc);
        for (index, partition) in self.partitions.iter().enumerate() {
            if index != source || outside == Some(OutsideEnd::Source) {
                others.push(partition.number)?;
            }
        }
        Ok(others)
    }

    // The number of the partition at an index.
    fn number_at(&self, index: usize) -> u64 {
        match self.partitions.get(index) {
            Some(partition) => partition.number,
            None => 0,
        }
    }
}

// What is done about the errors of a partition. Those of the first one never make it idle, so that something goes on.
fn policy(choices: &mut Choices, is_first: bool) -> Option<ErrorPolicy> {
    match choices.below(8) {
        0 => Some(ErrorPolicy::Ignore),
        1 if !is_first => Some(ErrorPolicy::Idle),
        2 | 3 => Some(ErrorPolicy::ColdStart),
        4 | 5 => Some(ErrorPolicy::WarmStart),
        _ => None,
    }
}

// The length of the next window, which shares this time with those after it: with it there are so many.
fn window_length(choices: &mut Choices, time: u64, windows: u64) -> u64 {
    let share = time.checked_div(windows).unwrap_or(0);
    if choices.one_in(2) {
        return share;
    }
    let spare = time.saturating_sub(windows.saturating_mul(SHORTEST_WINDOW));
    SHORTEST_WINDOW.saturating_add(choices.below(spare.saturating_add(1)))
}

// Some of so many cores, at least one, in rising order.
fn some_cores(alloc: Global, choices: &mut Choices, cores: u64) -> Result<Vec<u64>, AllocError> {
    let sure = choices.below(cores);
    let mut some = Vec::new(alloc);
    for core in 0..cores {
        if core == sure || choices.one_in(2) {
            some.push(core)?;
        }
    }
    Ok(some)
}

// One of these numbers, if there is one.
fn one_of(alloc: Global, choices: &mut Choices, numbers: &[u64]) -> Result<Vec<u64>, AllocError> {
    let mut one = Vec::new(alloc);
    if let Some(number) = choices.of(numbers) {
        one.push(number)?;
    }
    Ok(one)
}

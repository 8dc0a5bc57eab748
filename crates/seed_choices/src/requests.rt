// The choice of a request: a service with its arguments, which are mostly sensible.

ghost use Rattle.std.specs.Prelude.{◌≡◌, IfOk, true};
ghost use Rattle.apex_types.specs.Requested.{service_of};
ghost use Rattle.apex_types.specs.Services.{is_in};

use crate::choices::Choices;
use crate::situation::Situation;
use apex_machine::Direction;
use apex_types::limits::{GREATEST_PRIORITY, LONGEST_MESSAGE, LONGEST_REPORT, MOST_MESSAGES};
use apex_types::{ArgumentValues, Discipline, Format, Message, Name, ObjectKind, Request, Service};
use module_config::{QueuingPort, SamplingPort};
use std::alloc::{AllocError, Global};

// One argument in so many is one that a caller should not give.
const BAD_IN: u64 = 14;

// The priorities that processes have: few, so that there are ties.
const PRIORITIES: [i64; 6] = [10, 20, 20, 30, 30, 40];

impl Situation<'_> {
    /// The caller's next request, of a service that the format has.
    ///
    /// `AllocError` if memory is refused.
    #[tactic(auto, using(crate::proofs::Named::of_its_service))]
    pub fn request(&self, alloc: Global, choices: &mut Choices) -> Result<Request, AllocError>
        ensures { IfOk result (λ request. is_in self.now.format (service_of request) ≡ true) }
    {
        let service = self.service(choices);
        let values = self.values(alloc, choices, service)?;
        Ok(Request::new(service, values))
    }

    // The arguments of a request of this service.
    fn values(
        &self,
        alloc: Global,
        choices: &mut Choices,
        service: Service,
    ) -> Result<ArgumentValues, AllocError> {
        let mut values = ArgumentValues {
            n1: 0,
            n2: 0,
            n3: 0,
            name: Name::empty(alloc),
            message: Message::empty(alloc),
        };
        match Situation::kind_of(service) {
            Some(kind) => self.give_of_kind(alloc, choices, service, kind, &mut values)?,
            None => self.give_of_process(alloc, choices, service, &mut values)?,
        }
        if service.arguments().message {
            values.message = message(alloc, choices, values.n2)?;
        }
        Ok(values)
    }

    // Gives the arguments of a service that is of processes, time, the partition or its lock.
    fn give_of_process(
        &self,
        alloc: Global,
        choices: &mut Choices,
        service: Service,
        values: &mut ArgumentValues,
    ) -> Result<(), AllocError> {
        match service {
            Service::CreateProcess => {
                values.n1 = priority(choices);
                values.n2 = self.period(choices);
                values.n3 = self.time_capacity(choices, values.n2);
                values.name = self.process_name(alloc, choices)?;
            }
            Service::GetProcessId => values.name = self.process_name(alloc, choices)?,
            Service::InitializeProcessCoreAffinity => {
                values.n1 = self.process(choices);
                values.n2 = self.core(choices);
            }
            Service::DelayedStart => {
                values.n1 = self.process(choices);
                values.n2 = if choices.one_in(4) {
                    // As long as the periods of some processes.
                    choices.between(0, 60)
                } else {
                    delay(choices)
                };
            }
            Service::ReportApplicationMessage => values.n2 = report_length(choices),
            Service::RaiseApplicationError => {
                values.n1 = bad_or(choices, &[0, 2], 1, 1);
                values.n2 = report_length(choices);
            }
            Service::ConfigureErrorHandler => {
                values.n1 = bad_or(choices, &[-1, 2], 0, 1);
                values.n2 = self.core(choices);
            }
            Service::Stop | Service::Suspend => values.n1 = self.process_to_stop(choices),
            Service::Start
            | Service::Resume
            | Service::GetProcessStatus
            | Service::GetProcessMutexState => values.n1 = self.process(choices),
            Service::SetPriority => {
                values.n1 = self.process(choices);
                values.n2 = priority(choices);
            }
            Service::SuspendSelf => values.n1 = self.time_out(choices),
            Service::TimedWait => values.n1 = delay(choices),
            Service::Replenish => values.n1 = budget(choices),
            Service::SetPartitionMode => values.n1 = self.mode(choices),
            _ => {}
        }
        Ok(())
    }

    // Gives the arguments of a service that is of objects or ports of this kind.
    fn give_of_kind(
        &self,
        alloc: Global,
        choices: &mut Choices,
        service: Service,
        kind: ObjectKind,
        values: &mut ArgumentValues,
    ) -> Result<(), AllocError> {
        let services = kind.services();
        if service == services.creation {
            return self.give_creation(alloc, choices, kind, values);
        }
        if service == services.id {
            values.name = self.name(alloc, choices, kind)?;
            return Ok(());
        }
        let (number, size) = self.used(choices, service, kind);
        values.n1 = number;
        match service {
            Service::ResetMutex => self.give_reset(choices, values),
            Service::SendBuffer | Service::SendQueuingMessage => {
                values.n2 = length(choices, size);
                values.n3 = self.time_out(choices);
            }
            Service::DisplayBlackboard | Service::WriteSamplingMessage => {
                values.n2 = length(choices, size);
            }
            Service::ReceiveBuffer
            | Service::ReadBlackboard
            | Service::WaitSemaphore
            | Service::WaitEvent
            | Service::AcquireMutex
            | Service::ReceiveQueuingMessage => values.n2 = self.time_out(choices),
            _ => {}
        }
        Ok(())
    }

    // Gives a mutex that a process owns, mostly, with this process, or else a process with the mutex that is chosen already.
    fn give_reset(&self, choices: &mut Choices, values: &mut ArgumentValues) {
        values.n2 = self.process(choices);
        if choices.one_in(4) {
            return;
        }
        for (number, mutex) in self.state.mutexes().iter() {
            if let Some(owner) = mutex.owner() {
                values.n1 = i64::from(*number);
                values.n2 = i64::from(owner.number());
            }
        }
    }

    // Gives the arguments with which one of this kind is created.
    fn give_creation(
        &self,
        alloc: Global,
        choices: &mut Choices,
        kind: ObjectKind,
        values: &mut ArgumentValues,
    ) -> Result<(), AllocError> {
        values.name = self.name(alloc, choices, kind)?;
        match kind {
            ObjectKind::Buffer => {
                values.n1 = size(choices);
                values.n2 = bad_or(choices, &[0, MOST_MESSAGES as i64 + 1], 1, 4);
                values.n3 = discipline(choices);
            }
            ObjectKind::Blackboard => values.n1 = size(choices),
            ObjectKind::Semaphore => {
                values.n2 = bad_or(choices, &[0, 32_768], 1, 5);
                values.n1 = bad_or(choices, &[-1, values.n2.saturating_add(1)], 0, values.n2);
                values.n3 = discipline(choices);
            }
            ObjectKind::Event => {}
            ObjectKind::Mutex => {
                values.n1 = bad_or(choices, &[0, 240], 15, 60);
                values.n2 = discipline(choices);
            }
            ObjectKind::SamplingPort => self.give_sampling_port(choices, values),
            ObjectKind::QueuingPort => self.give_queuing_port(choices, values),
        }
        Ok(())
    }

    // Gives the settings with which the sampling port of this name is configured.
    fn give_sampling_port(&self, choices: &mut Choices, values: &mut ArgumentValues) {
        if let Some(port) = self.sampling_port(&values.name) {
            values.n1 = i64::from(port.size).saturating_add(slip(choices));
            values.n2 = number_of(port.direction);
            values.n3 = i64::try_from(port.refresh).unwrap_or(1);
        }
    }

    // Gives the settings with which the queuing port of this name is configured.
    fn give_queuing_port(&self, choices: &mut Choices, values: &mut ArgumentValues) {
        if let Some(port) = self.queuing_port(&values.name) {
            values.n1 = i64::from(port.size);
            values.n2 = i64::from(port.capacity).saturating_add(slip(choices));
            let discipline = match port.discipline {
                Discipline::Fifo => 0,
                Discipline::Priority => 2,
            };
            values.n3 = number_of(port.direction).saturating_add(discipline);
        }
    }

    // What is configured of the sampling port of this name, if there is one.
    fn sampling_port(&self, name: &Name) -> Option<SamplingPort> {
        self.config.sampling_port(self.who.part, name)
    }

    // What is configured of the queuing port of this name, if there is one.
    fn queuing_port(&self, name: &Name) -> Option<QueuingPort> {
        self.config.queuing_port(self.who.part, name)
    }

    // A name of one of this kind: of an object one of few names, and of a port mostly a configured one.
    fn name(
        &self,
        alloc: Global,
        choices: &mut Choices,
        kind: ObjectKind,
    ) -> Result<Name, AllocError> {
        match kind {
            ObjectKind::SamplingPort | ObjectKind::QueuingPort => {
                if !choices.one_in(BAD_IN) {
                    if let Some(name) = self.ports.of(choices, self.who.part, kind) {
                        return Ok(name.clone()?);
                    }
                }
                numbered_name(alloc, choices, b'X', 2)
            }
            ObjectKind::Buffer => numbered_name(alloc, choices, b'B', self.limit(kind)),
            ObjectKind::Blackboard => numbered_name(alloc, choices, b'D', self.limit(kind)),
            ObjectKind::Semaphore => numbered_name(alloc, choices, b'S', self.limit(kind)),
            ObjectKind::Event => numbered_name(alloc, choices, b'E', self.limit(kind)),
            ObjectKind::Mutex => numbered_name(alloc, choices, b'M', self.limit(kind)),
        }
    }

    // The number of an object or a port of this kind, mostly of one that there is, and the greatest size of its messages.
    fn used(&self, choices: &mut Choices, service: Service, kind: ObjectKind) -> (i64, i64) {
        if choices.one_in(BAD_IN) {
            return (choices.between(-1, 70), 8);
        }
        let index = choices.below(self.count(kind)) as usize;
        let state = self.state;
        let found = match kind {
            ObjectKind::Buffer => match state.buffers().iter().nth(index) {
                Some((number, buffer)) => Some((*number, buffer.size())),
                None => None,
            },
            ObjectKind::Blackboard => match state.blackboards().iter().nth(index) {
                Some((number, board)) => Some((*number, board.size())),
                None => None,
            },
            ObjectKind::Semaphore => match state.semaphores().iter().nth(index) {
                Some((number, _)) => Some((*number, 1)),
                None => None,
            },
            ObjectKind::Event => match state.events().iter().nth(index) {
                Some((number, _)) => Some((*number, 1)),
                None => None,
            },
            ObjectKind::Mutex => self.used_mutex(choices, index),
            ObjectKind::SamplingPort | ObjectKind::QueuingPort => {
                self.used_port(choices, service, kind)
            }
        };
        match found {
            Some((number, size)) => (i64::from(number), i64::from(size)),
            None => (1, 8),
        }
    }

    // The mutex that the caller owns, mostly, or the one at this index.
    fn used_mutex(&self, choices: &mut Choices, index: usize) -> Option<(u32, u16)> {
        if let Some(owned) = self.owned_mutex() {
            if !choices.one_in(4) {
                return Some((owned, 1));
            }
        }
        let (number, _) = self.state.mutexes().iter().nth(index)?;
        Some((*number, 1))
    }

    // One of the ports of this kind, if it is created: mostly one of the direction that the service needs.
    fn used_port(
        &self,
        choices: &mut Choices,
        service: Service,
        kind: ObjectKind,
    ) -> Option<(u32, u16)> {
        let mut name = self.ports.of(choices, self.who.part, kind)?;
        let needed = direction_of(service);
        if needed.is_some() && self.direction_of_port(name, kind) != needed {
            name = self.ports.of(choices, self.who.part, kind)?;
        }
        if kind == ObjectKind::SamplingPort {
            let number = self.state.sampling_ports().number_named(name)?;
            Some((number, self.sampling_port(name)?.size))
        } else {
            let number = self.state.queuing_ports().number_named(name)?;
            Some((number, self.queuing_port(name)?.size))
        }
    }

    // The direction of the port of this kind and name, if it is configured.
    fn direction_of_port(&self, name: &Name, kind: ObjectKind) -> Option<Direction> {
        if kind == ObjectKind::SamplingPort {
            Some(self.sampling_port(name)?.direction)
        } else {
            Some(self.queuing_port(name)?.direction)
        }
    }

    // The number of a process, mostly of one that there is.
    fn process(&self, choices: &mut Choices) -> i64 {
        let table = self.state.processes();
        if choices.one_in(BAD_IN) {
            return choices.between(-1, 3);
        }
        let index = choices.index(table.len()).saturating_add(1);
        match table.at(index) {
            Some((number, _)) => i64::from(number.number()),
            None => 1,
        }
    }

    // The same, but never the one that keeps the partition going: often the owner of the lock, if it is another process.
    fn process_to_stop(&self, choices: &mut Choices) -> i64 {
        let process = match self.state.lock().owner() {
            Some(owner) if self.another_owns_lock() && !choices.one_in(4) => {
                i64::from(owner.number())
            }
            _ => self.process(choices),
        };
        match self.keeper() {
            Some(keeper) if i64::from(keeper.number()) == process => i64::from(u32::MAX),
            _ => process,
        }
    }

    // The name of a process: one of few names.
    fn process_name(&self, alloc: Global, choices: &mut Choices) -> Result<Name, AllocError> {
        let limit = u64::from(self.config.process_limit(self.who.part));
        numbered_name(alloc, choices, b'P', limit)
    }

    // The time capacity of a process of this period: none for most. Rows before format 3 cannot give one.
    fn time_capacity(&self, choices: &mut Choices, period: i64) -> i64 {
        if self.format != Format::Three {
            return -1;
        }
        match choices.below(8) {
            0 => choices.of(&[0, -2]).unwrap_or(0),
            1 => period.saturating_add(1),
            2 | 3 => choices.between(1, period.max(40)),
            _ => -1,
        }
    }

    // The period of a process: none for most, or a multiple of the partition's.
    fn period(&self, choices: &mut Choices) -> i64 {
        let period = i64::try_from(self.config.period(self.who.part)).unwrap_or(1);
        match choices.below(12) {
            0 => choices.of(&[0, -2]).unwrap_or(0),
            1 => period.saturating_add(1),
            2 | 3 | 4 => period.saturating_mul(choices.between(1, 2)),
            _ => -1,
        }
    }

    // A core, mostly one of the partition's.
    fn core(&self, choices: &mut Choices) -> i64 {
        if choices.one_in(BAD_IN) {
            return choices.between(-1, 16);
        }
        let part = self.who.part;
        let cores = i64::from(self.config.cores());
        let first = choices.between(0, cores.saturating_sub(1));
        for step in 0..cores {
            let core = first.saturating_add(step).checked_rem(cores).unwrap_or(0);
            if self.config.has_core(part, core) {
                return core;
            }
        }
        first
    }

    // A time-out. The process that keeps the partition going waits for a while at most.
    fn time_out(&self, choices: &mut Choices) -> i64 {
        match choices.below(16) {
            0 => -2,
            1 | 2 | 3 | 4 => 0,
            5 if !self.is_keeper() => -1,
            _ => choices.between(1, 20),
        }
    }

    // A mode for the partition.
    fn mode(&self, choices: &mut Choices) -> i64 {
        if !self.is_normal() {
            return match choices.below(16) {
                0 => choices.of(&[-1, 4]).unwrap_or(4),
                1 => 1,
                2 => 2,
                _ => 3,
            };
        }
        match choices.below(24) {
            0 => choices.of(&[-1, 4]).unwrap_or(4),
            1 | 2 | 3 => 1,
            4 | 5 | 6 => 2,
            7 if self.others_run => 0,
            _ => 3,
        }
    }
}

// One of these bad numbers, now and then, or else a number from the first to the last.
fn bad_or(choices: &mut Choices, bad: &[i64], first: i64, last: i64) -> i64 {
    if choices.one_in(BAD_IN) {
        if let Some(number) = choices.of(bad) {
            return number;
        }
    }
    choices.between(first, last)
}

// What is added to a configured number: mostly nothing.
fn slip(choices: &mut Choices) -> i64 {
    if choices.one_in(BAD_IN) { 1 } else { 0 }
}

// A priority.
fn priority(choices: &mut Choices) -> i64 {
    if choices.one_in(BAD_IN) {
        return choices
            .of(&[0, i64::from(GREATEST_PRIORITY) + 1, -1])
            .unwrap_or(0);
    }
    choices.of(&PRIORITIES).unwrap_or(10)
}

// A delay in ticks.
fn delay(choices: &mut Choices) -> i64 {
    bad_or(choices, &[-1], 0, 9)
}

// A budget in ticks: one without an end now and then.
fn budget(choices: &mut Choices) -> i64 {
    if choices.one_in(6) {
        return -1;
    }
    bad_or(choices, &[0, -2], 1, 12)
}

// The length of a message to the maintenance or the error handler.
fn report_length(choices: &mut Choices) -> i64 {
    let longest = LONGEST_REPORT as i64;
    if choices.one_in(4) {
        return choices.of(&[0, longest]).unwrap_or(0);
    }
    bad_or(choices, &[-1, longest + 1], 1, 12)
}

// The greatest size of the messages of a new object.
fn size(choices: &mut Choices) -> i64 {
    bad_or(choices, &[0, LONGEST_MESSAGE as i64 + 1], 1, 12)
}

// A discipline by its number.
fn discipline(choices: &mut Choices) -> i64 {
    bad_or(choices, &[2, -1], 0, 1)
}

// The direction of the ports that a service takes, if it takes but one.
fn direction_of(service: Service) -> Option<Direction> {
    match service {
        Service::SendQueuingMessage | Service::WriteSamplingMessage => Some(Direction::Source),
        Service::ReceiveQueuingMessage | Service::ReadSamplingMessage | Service::ClearQueuingPort =>
            Some(Direction::Destination),
        _ => None,
    }
}

// A direction by its number.
fn number_of(direction: Direction) -> i64 {
    match direction {
        Direction::Source => 0,
        Direction::Destination => 1,
    }
}

// The length of a message for what takes at most this size.
fn length(choices: &mut Choices, size: i64) -> i64 {
    bad_or(choices, &[0, size.saturating_add(1)], 1, size)
}

// A message of this length; an empty one if no message can have it. Some have few different bytes, so that they are often alike.
fn message(alloc: Global, choices: &mut Choices, length: i64) -> Result<Message, AllocError> {
    let mut bytes = Vec::new(alloc);
    let different = if choices.one_in(3) { 2 } else { 256 };
    if length >= 1 && length <= LONGEST_MESSAGE as i64 {
        for _ in 0..length {
            bytes.push(u8::try_from(choices.below(different)).unwrap_or(0))?;
        }
    }
    Ok(Message::new(bytes))
}

// A letter and a number, of few more than the limit: some are taken, and some are of nothing.
fn numbered_name(
    alloc: Global,
    choices: &mut Choices,
    letter: u8,
    limit: u64,
) -> Result<Name, AllocError> {
    let number = choices.below(limit.saturating_mul(2).saturating_add(1));
    let mut bytes = Vec::new(alloc);
    bytes.push(letter)?;
    let mut buffer = itoa::Buffer::new();
    bytes.extend_from_slice(buffer.format(number).as_bytes())?;
    Ok(Name::new(bytes))
}

// A partition, and its parts.

ghost use Rattle.std.specs.Prelude.{◌≡◌, ◌&&◌, ℕ, [], None, IfOk, OnOk};
ghost use Rattle.apex_machine.specs.declared.state.StartCondition.TheVariants.{NormalStart};
ghost use Rattle.apex_machine.specs.Configuration.{Configuration, first_core as first_core_of};
ghost use Rattle.apex_machine.specs.Choice.{is_handling_on, is_one_alive, is_paused, partition_choice, pauses_others};
ghost use Rattle.apex_machine.specs.State.{cold_partition, free_lock, is_normal, item_at};
ghost use Rattle.scheduling.specs.Processes.{processes_of};
ghost use Rattle.partition_state.specs.Calls.{NumbersAreKept};

use apex_machine::{ErrorHandler, ListedError, Mode, StartCondition};
use apex_types::{CoreId, PartId, ProcId, Who};
use partition_objects::{
    Blackboard, Buffer, Event, Mutex653, ObjectTable, PortTable, PreemptionLock, Semaphore,
};
use scheduling::ProcTable;
use std::alloc::{AllocError, Global};
use std::marker::Model;

/// The state of a partition: its mode and its processes, its start condition, its error handler with the errors that this has still to take,
/// its lock, and its objects and ports of each kind under their numbers, in the order of their creation.
#[derive(Drop)]
pub struct PartitionState {
    pub(crate) alloc: Global,
    pub(crate) start: StartCondition,
    pub(crate) handler: Option<ErrorHandler>,
    pub(crate) errors: Vec<ListedError>,
    pub(crate) lock: PreemptionLock,
    pub(crate) processes: ProcTable,
    pub(crate) buffers: ObjectTable<Buffer>,
    pub(crate) blackboards: ObjectTable<Blackboard>,
    pub(crate) semaphores: ObjectTable<Semaphore>,
    pub(crate) events: ObjectTable<Event>,
    pub(crate) mutexes: ObjectTable<Mutex653>,
    pub(crate) sampling_ports: PortTable,
    pub(crate) queuing_ports: PortTable,
}

impl Model for PartitionState {
    ghost use Rattle.apex_machine.specs.State.{Partition};

    ghost Value = { Partition };

    ghost view = { λ state. record { mode = state.processes.mode; start = state.start; handler = state.handler; errors = state.errors.items; lock = state.lock; table = state.processes.table; buffers = state.buffers; blackboards = state.blackboards; semaphores = state.semaphores; events = state.events; mutexes = state.mutexes; sampling_ports = state.sampling_ports; queuing_ports = state.queuing_ports } };
}

impl PartitionState {
    /// The partition as it starts cold: its initialising process alone, on its first core, and no object or port.
    ///
    /// AllocError if memory is refused.
    pub fn new(alloc: Global, first_core: CoreId) -> Result<PartitionState, AllocError>
        ensures { IfOk result (λ state. (configuration : Configuration) (number : ℕ) → first_core_of configuration number ≡ first_core → state ≡ cold_partition configuration number) }
    {
        let processes = ProcTable::new(alloc, first_core)?;
        Ok(PartitionState::without_objects(alloc, processes))
    }

    // The partition of this mode and these processes as the module starts it, with a free lock, and without an error handler, an object or
    // a port. Takes no memory.
    fn without_objects(alloc: Global, processes: ProcTable) -> PartitionState
        ensures { result ≡ record { mode = processes.mode; start = NormalStart; handler = None; errors = []; lock = free_lock; table = processes.table; buffers = []; blackboards = []; semaphores = []; events = []; mutexes = []; sampling_ports = []; queuing_ports = [] } }
    {
        PartitionState {
            alloc,
            start: StartCondition::NormalStart,
            handler: None,
            errors: Vec::new(alloc),
            lock: PreemptionLock::new(alloc),
            processes,
            buffers: ObjectTable::new(alloc),
            blackboards: ObjectTable::new(alloc),
            semaphores: ObjectTable::new(alloc),
            events: ObjectTable::new(alloc),
            mutexes: ObjectTable::new(alloc),
            sampling_ports: PortTable::new(alloc),
            queuing_ports: PortTable::new(alloc),
        }
    }

    // Replaces its objects by copies of another partition's.
    fn copy_objects(&mut self, other: &PartitionState) -> Result<(), AllocError>
        ensures { OnOk result (self.new ≡ record self.old { buffers = other.now.buffers; blackboards = other.now.blackboards; semaphores = other.now.semaphores; events = other.now.events; mutexes = other.now.mutexes }) }
    {
        self.buffers.copy_from(&other.buffers)?;
        self.blackboards.copy_from(&other.blackboards)?;
        self.semaphores.copy_from(&other.semaphores)?;
        self.events.copy_from(&other.events)?;
        self.mutexes.copy_from(&other.mutexes)?;
        Ok(())
    }

    // Replaces its ports by copies of another partition's.
    fn copy_ports(&mut self, other: &PartitionState) -> Result<(), AllocError>
        ensures { OnOk result (self.new ≡ record self.old { sampling_ports = other.now.sampling_ports; queuing_ports = other.now.queuing_ports }) }
    {
        self.sampling_ports.copy_from(&other.sampling_ports)?;
        self.queuing_ports.copy_from(&other.queuing_ports)?;
        Ok(())
    }

    // Replaces everything but its mode and its processes by copies of what another partition has.
    fn copy_all_but_processes(&mut self, other: &PartitionState) -> Result<(), AllocError>
        ensures { OnOk result (self.new ≡ record other.now { mode = self.old.mode; table = self.old.table }) }
    {
        self.start = other.start;
        self.handler = other.handler;
        self.errors = other.errors.clone()?;
        self.lock = other.lock.clone()?;
        self.copy_objects(other)?;
        self.copy_ports(other)
    }

    // States what every state keeps: the numbers of its objects fit 32 bits. Does nothing.
    pub(crate) fn keep_numbers(&self)
        ensures { NumbersAreKept self.now }
    {
        self.buffers.keeps_numbers();
        self.blackboards.keeps_numbers();
        self.semaphores.keeps_numbers();
        self.events.keeps_numbers();
        self.mutexes.keeps_numbers();
    }

    /// The mode and the processes.
    pub fn processes(&self) -> &ProcTable
        ensures { result.now ≡ processes_of self.now }
    {
        &self.processes
    }

    /// Its start condition.
    pub fn start_condition(&self) -> StartCondition
        ensures { result ≡ self.now.start }
    {
        self.start
    }

    /// Its lock on preemption.
    pub fn lock(&self) -> &PreemptionLock
        ensures { result.now ≡ self.now.lock }
    {
        &self.lock
    }

    /// The process that this core is to run if the window is this partition's, whose number is given: the error handler if it is ready on the
    /// core; None if the cores stand still for the handler; else the owner of the lock if it is ready on the core; else the ready process that
    /// no other goes before, or None if none is ready.
    pub fn choice_on(&self, part: PartId, core: CoreId) -> Option<Who>
        ensures { result ≡ partition_choice part core self.now }
    {
        if self.is_handler_alive() {
            self.choice_with_handler(part, core)
        } else {
            self.processes.choice_on(part, core, self.lock.owner())
        }
    }

    // The choice where the error handler is not dormant.
    fn choice_with_handler(&self, part: PartId, core: CoreId) -> Option<Who>
        ensures { result ≡ partition_choice part core self.now }
    {
        if self.is_handling_on(core) {
            return Some(Who {
                part,
                proc: ProcId::new(0),
            });
        }
        if self.is_paused() {
            return None;
        }
        self.processes.choice_on(part, core, self.lock.owner())
    }

    // Whether the error handler is not dormant.
    fn is_handler_alive(&self) -> bool
        ensures { result ≡ (is_normal self.now.mode && is_one_alive (item_at self.now.table 0)) }
    {
        self.processes.mode() == Mode::Normal && self.processes.is_alive(ProcId::new(0))
    }

    // Whether the error handler is ready on this core.
    fn is_handling_on(&self, core: CoreId) -> bool
        ensures { result ≡ is_handling_on core self.now }
    {
        self.processes.mode() == Mode::Normal && self.processes.is_ready_on(core, ProcId::new(0))
    }

    // Whether the cores stand still for the error handler, but for its own.
    fn is_paused(&self) -> bool
        ensures { result ≡ is_paused self.now }
    {
        self.is_handler_alive() && self.others_pause()
    }

    // Whether there is a handler for which the other cores stand still.
    fn others_pause(&self) -> bool
        ensures { result ≡ pauses_others self.now.handler }
    {
        match self.handler {
            Some(handler) => handler.pauses,
            None => false,
        }
    }

    /// The buffers.
    pub fn buffers(&self) -> &ObjectTable<Buffer>
        ensures { result.now ≡ self.now.buffers }
    {
        &self.buffers
    }

    /// The blackboards.
    pub fn blackboards(&self) -> &ObjectTable<Blackboard>
        ensures { result.now ≡ self.now.blackboards }
    {
        &self.blackboards
    }

    /// The semaphores.
    pub fn semaphores(&self) -> &ObjectTable<Semaphore>
        ensures { result.now ≡ self.now.semaphores }
    {
        &self.semaphores
    }

    /// The events.
    pub fn events(&self) -> &ObjectTable<Event>
        ensures { result.now ≡ self.now.events }
    {
        &self.events
    }

    /// The mutexes.
    pub fn mutexes(&self) -> &ObjectTable<Mutex653>
        ensures { result.now ≡ self.now.mutexes }
    {
        &self.mutexes
    }

    /// The sampling ports.
    pub fn sampling_ports(&self) -> &PortTable
        ensures { result.now ≡ self.now.sampling_ports }
    {
        &self.sampling_ports
    }

    /// The queuing ports.
    pub fn queuing_ports(&self) -> &PortTable
        ensures { result.now ≡ self.now.queuing_ports }
    {
        &self.queuing_ports
    }
}

impl Clone for PartitionState {
    ghost is_clone = { λ state copy. copy ≡ state };

    fn clone(&self) -> Result<PartitionState, AllocError> {
        let processes = self.processes.clone()?;
        let mut copy = PartitionState::without_objects(self.alloc, processes);
        match copy.copy_all_but_processes(self) {
            Ok(()) => Ok(copy),
            Err(refused) => {
                // A call drops the copy as one value; a drop in place would be proved table by table.
                drop(copy);
                Err(refused)
            }
        }
    }
}

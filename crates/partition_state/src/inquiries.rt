// What services report: the number of what has a name, and the status of the object or the port that has a number.

ghost use Rattle.std.specs.Prelude.{◌≡◌};
ghost use Rattle.apex_types.specs.declared.object_kind.NamedKind.TheVariants as named;
ghost use Rattle.apex_machine.specs.Names as names;
ghost use Rattle.apex_machine.specs.Statuses as statuses;

use crate::state::PartitionState;
use apex_machine::Status;
use apex_types::{Name, NamedKind, ObjectKind};

impl PartitionState {
    /// The number of the process, or of the object or port of a kind, that has this name, or None if none has it.
    pub fn number_of(&self, kind: NamedKind, name: &Name) -> Option<u32>
        ensures { result ≡ names.number_of self.now kind name.now }
    {
        match kind {
            NamedKind::Process => Some(self.processes.number_named(name)?.number()),
            NamedKind::Object(kind) => self.object_number_of(kind, name),
        }
    }

    /// The number of the object or the port of a kind that has this name, or None if none has it.
    pub fn object_number_of(&self, kind: ObjectKind, name: &Name) -> Option<u32>
        ensures { result ≡ names.number_of self.now (named.Object kind) name.now }
    {
        match kind {
            ObjectKind::Buffer => self.buffers.number_named(name),
            ObjectKind::Blackboard => self.blackboards.number_named(name),
            ObjectKind::Semaphore => self.semaphores.number_named(name),
            ObjectKind::Event => self.events.number_named(name),
            ObjectKind::Mutex => self.mutexes.number_named(name),
            ObjectKind::SamplingPort => self.sampling_ports.number_named(name),
            ObjectKind::QueuingPort => self.queuing_ports.number_named(name),
        }
    }

    /// The status of the object or the sampling port of a kind that has the number that a caller gives, or None if none has it. None also
    /// for a queuing port, whose status its channel reports.
    pub fn status_of(&self, kind: ObjectKind, object: i64) -> Option<Status>
        ensures { result ≡ statuses.status_of self.now kind object }
    {
        match kind {
            ObjectKind::Buffer => Some(self.buffers.given(object)?.status()),
            ObjectKind::Blackboard => Some(self.blackboards.given(object)?.status()),
            ObjectKind::Semaphore => Some(self.semaphores.given(object)?.status()),
            ObjectKind::Event => Some(self.events.given(object)?.status()),
            ObjectKind::Mutex => Some(self.mutexes.given(object)?.status()),
            ObjectKind::SamplingPort => Some(self.sampling_ports.given(object)?.status()),
            ObjectKind::QueuingPort => None,
        }
    }
}

// The owners of mutexes and of the lock.

ghost use Rattle.std.specs.Prelude.{◌≡◌};
ghost use Rattle.std.specs.Option.{option_to_list};
ghost use Rattle.apex_machine.specs.Arguments.{natural_of};
ghost use Rattle.apex_machine.specs.Conditions.{owns_mutex};
ghost use Rattle.apex_machine.specs.ObjectConditions.{owns_another};
ghost use Rattle.apex_machine.specs.Locks.{freed_by_stop, owns_lock};
ghost use Rattle.apex_machine.specs.Objects.{is_owner};
ghost use Rattle.apex_machine.specs.Statuses.{mutex_owned, mutex_state};
ghost use Rattle.wait_set.specs.GivenNumbers.{value_given};

use crate::state::PartitionState;
use apex_types::{ProcId, Who};
use wait_set::GivenValue;

impl PartitionState {
    /// Whether this process owns a mutex.
    pub fn owns_mutex(&self, process: ProcId) -> bool
        ensures { result ≡ owns_mutex self.now.mutexes process }
    {
        self.mutexes
            .iter()
            .any(|(_, mutex)| mutex.is_owned_by(process))
    }

    /// Whether the process of the number that a caller gives owns a mutex; a number below 0 is read as 0.
    pub fn numbered_owns_mutex(&self, process: i64) -> bool
        ensures { result ≡ owns_mutex self.now.mutexes (natural_of process) }
    {
        self.mutexes
            .iter()
            .any(|(_, mutex)| is_numbered(mutex.owner(), process))
    }

    /// GET_PROCESS_MUTEX_STATE: the number of the mutex that the process of the number that a caller gives owns, -3 if it owns the lock, or
    /// -2 if it owns neither; a number below 0 is read as 0.
    pub fn mutex_state(&self, process: i64) -> GivenValue
        ensures { value_given result ≡ mutex_state self.now (natural_of process) }
    {
        if self.numbered_owns_lock(process) {
            GivenValue::BelowZero(-3)
        } else {
            self.mutex_owned(process)
        }
    }

    // The number of the mutex that the process of the number that a caller gives owns, or -2 if it owns none; a number below 0 is read as 0.
    fn mutex_owned(&self, process: i64) -> GivenValue
        ensures { value_given result ≡ mutex_owned self.now.mutexes (natural_of process) }
    {
        let owned = self
            .mutexes
            .iter()
            .find(|(_, mutex)| is_numbered(mutex.owner(), process));
        match owned {
            Some((number, _)) => GivenValue::Natural(u64::from(*number)),
            None => GivenValue::BelowZero(-2),
        }
    }

    /// Whether this process owns the lock.
    pub fn owns_lock(&self, process: ProcId) -> bool
        ensures { result ≡ owns_lock self.now process }
    {
        self.lock.is_owned_by(process)
    }

    /// Whether the process of the number that a caller gives owns the lock; a number below 0 is read as 0.
    pub fn numbered_owns_lock(&self, process: i64) -> bool
        ensures { result ≡ owns_lock self.now (natural_of process) }
    {
        is_numbered(self.lock.owner(), process)
    }

    // The process whose wait ends when the process of the number that a caller gives is stopped: if that one owns the lock, the one that
    // gets it. A number below 0 is read as 0.
    pub(crate) fn freed_by_stop(&self, process: i64) -> Option<Who>
        ensures { option_to_list result ≡ freed_by_stop (natural_of process) self.now.lock }
    {
        if self.numbered_owns_lock(process) {
            self.lock.next_owner()
        } else {
            None
        }
    }

    /// Whether this process owns a mutex other than the one of the number that a caller gives.
    pub fn owns_another(&self, mutex: i64, process: ProcId) -> bool
        ensures { result ≡ owns_another self.now.mutexes mutex process }
    {
        self.mutexes.iter().any(|(number, other)| other.is_owned_by(process)
            && mutex != i64::from(*number))
    }
}

// Whether this owner, if there is one, is the process of the number that a caller gives; a number below 0 is read as 0.
fn is_numbered(owner: Option<ProcId>, process: i64) -> bool
    ensures { result ≡ is_owner owner (natural_of process) }
{
    match owner {
        Some(owner) => i64::from(owner.number()) == process.max(0),
        None => false,
    }
}

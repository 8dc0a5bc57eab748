// What a call creates.

ghost use Rattle.std.specs.Prelude.{◌≡◌, ◌++◌, [], IfErr, IfOk, OnErr, OnOk};
ghost use Rattle.apex_types.specs.Requested.{kind_of};
ghost use Rattle.apex_types.specs.declared.request.Request.TheVariants as request;
ghost use Rattle.apex_machine.specs.After.{numbered, objects_by};
ghost use Rattle.apex_machine.specs.CreationConditions.{parameter_conditions};
ghost use Rattle.apex_machine.specs.Demands.{AllHold};
ghost use Rattle.apex_machine.specs.State.{objects_of};
ghost use Rattle.wait_set.specs.Actors.{Refuses};
ghost use Rattle.wait_set.specs.declared.object.ObjFault.TheVariants.{Memory};
ghost use Rattle.partition_state.specs.Calls.{created_demands};

use crate::creations::{new_blackboard, new_buffer, new_event, new_mutex, new_semaphore};
use crate::state::PartitionState;
use apex_machine::Direction;
use apex_types::{ChanId, Claim, Name, NewObject, Who};
use module_config::Config;
use partition_objects::{ObjectTable, PortSettings};
use wait_set::ObjFault;

impl PartitionState {
    /// The creation of an object or a port on which no error condition holds. What is created has the number that is claimed, and a port is
    /// as it is configured.
    ///
    /// Refused, with nothing changed, if the claim is not what a creation gives, or if memory is refused.
    pub(crate) fn create(
        &mut self,
        config: &Config,
        who: Who,
        name: &Name,
        object: &NewObject,
        claim: &Claim,
    ) -> Result<(), ObjFault>
        requires clear { parameter_conditions config.now who.part name.now object.now ≡ [] }
        ensures ok { OnOk result (AllHold (created_demands (objects_of self.old (kind_of object.now)) claim.now)) }
        ensures after { OnOk result (self.new ≡ objects_by config.now who claim.now.val (request.Create name.now object.now) self.old) }
        ensures refused { IfErr result (Refuses (created_demands (objects_of self.old (kind_of object.now)) claim.now)) }
        ensures unchanged { OnErr result (self.new ≡ self.old) }
    {
        let (alloc, part) = (self.alloc, who.part);
        match object {
            NewObject::Buffer {
                size,
                capacity,
                discipline,
            } => {
                let made = new_buffer(alloc, name, *size, *capacity, *discipline);
                add_created(&mut self.buffers, claim, made)
            }
            NewObject::Blackboard { size } => {
                add_created(
                    &mut self.blackboards,
                    claim,
                    new_blackboard(alloc, name, *size),
                )
            }
            NewObject::Semaphore {
                value,
                maximum,
                discipline,
            } => {
                let made = new_semaphore(alloc, name, *value, *maximum, *discipline);
                add_created(&mut self.semaphores, claim, made)
            }
            NewObject::Event => add_created(&mut self.events, claim, new_event(alloc, name)),
            NewObject::Mutex {
                priority,
                discipline,
            } => {
                let made = new_mutex(alloc, name, *priority, *discipline);
                add_created(&mut self.mutexes, claim, made)
            }
            NewObject::SamplingPort { .. } => {
                let Some(port) = config.sampling_port(part, name) else {
                    unreachable!()
                };
                let settings = settings_of(port.size, port.direction, port.channel);
                self.sampling_ports.create(alloc, name, settings, claim)
            }
            NewObject::QueuingPort { .. } => {
                let Some(port) = config.queuing_port(part, name) else {
                    unreachable!()
                };
                let settings = settings_of(port.size, port.direction, port.channel);
                self.queuing_ports.create(alloc, name, settings, claim)
            }
        }
    }
}

// Adds what a creation makes after the others of its kind, under the claimed number.
//
// Refused, with nothing changed, if the claim is not what a creation gives, or if memory was refused.
fn add_created<Object: Drop>(
    objects: &mut ObjectTable<Object>,
    claim: &Claim,
    made: Result<Object, ObjFault>,
) -> Result<(), ObjFault>
    requires memory { IfErr made (λ fault. fault ≡ Memory) }
    ensures ok { OnOk result (AllHold (created_demands objects.old claim.now)) }
    ensures after { (object : Object) → IfOk made (λ found. found ≡ object) → OnOk result (objects.new ≡ objects.old ++ numbered claim.now.val object) }
    ensures refused { IfErr result (Refuses (created_demands objects.old claim.now)) }
    ensures unchanged { OnErr result (objects.new ≡ objects.old) }
{
    objects.judge_creation(claim)?;
    objects.add(claim.val, made?)
}

// The settings of a port of this size, direction and channel.
fn settings_of(size: u16, direction: Direction, channel: ChanId) -> PortSettings
    ensures { result ≡ record { size = size; direction = direction; channel = channel } }
{
    PortSettings {
        size,
        direction,
        channel,
    }
}

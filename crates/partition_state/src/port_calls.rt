// Ports: the channel of a call through a port, and what a read leaves with its port.

ghost use Rattle.std.specs.Prelude.{◌≡◌};
ghost use Rattle.apex_machine.specs.Ports.{channel_of};
ghost use Rattle.partition_state.specs.Calls.{ReadsAtPort, objects_noted};

use crate::state::PartitionState;
use apex_types::{Call, ChanId, ObjectKind, Request, SamplingOperation};
use scheduling::is_done;

impl PartitionState {
    /// The channel of the port that a request goes through, or None if it goes through no created port.
    pub fn channel_of(&self, request: &Request) -> Option<ChanId>
        ensures { result ≡ channel_of self.now request.now }
    {
        match request {
            Request::SamplingPort(port, _) => self.sampling_ports.channel_of(*port),
            Request::QueuingPort(port, _) => self.queuing_ports.channel_of(*port),
            Request::GetStatus(ObjectKind::QueuingPort, object) => self
                .queuing_ports
                .channel_of(*object),
            _ => None,
        }
    }

    /// A call that changes no object: the port at which it read records whether the sample is valid. Takes no memory.
    pub(crate) fn note_read(&mut self, call: &Call)
        requires port { ReadsAtPort call.now call.now.request self.old }
        ensures { self.new ≡ objects_noted call.now call.now.request self.old }
    {
        if let Request::SamplingPort(port, SamplingOperation::Read) = &call.request {
            if is_done(call.claim.out) {
                self.sampling_ports.note_read(*port, call.claim.val);
            }
        }
    }
}

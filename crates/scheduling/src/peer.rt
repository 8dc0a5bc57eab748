// The other processes of a caller's partition: which of them a call stops or wakes.

ghost use Rattle.std.specs.Prelude.{◌≡◌, ◌&&◌, nat_eq};
ghost use Rattle.apex_machine.specs.Waiting as waiting;
ghost use Rattle.scheduling.specs.Peers as peers;

use apex_types::{Call, Code, Out, ProcId, ProcessOperation, Request, Who};

/// Whether a call that names this process ends its wait: the process is of the caller's partition, not the caller, and not
/// stopped by the call.
pub fn wakes(call: &Call, who: Who) -> bool
    ensures { result ≡ peers.wakes call.now who.proc && nat_eq who.part call.now.who.part }
{
    who.proc != call.who.proc && !stops(call, who.proc) && who.part == call.who.part
}

/// Whether a call stops the process of this number of its caller's partition.
pub fn stops(call: &Call, number: ProcId) -> bool
    ensures { result ≡ waiting.stops call.now (peers.peer_at call.now number) }
{
    match stop_of(&call.request) {
        Some(target) => answers_no_error(call.claim.out) && target == number.number() as i64,
        None => false,
    }
}

/// The process that a request stops, other than its caller, by the number that the caller gives.
pub fn stop_of(request: &Request) -> Option<i64>
    ensures { result ≡ waiting.stop_of request.now }
{
    match request {
        Request::Process(process, ProcessOperation::Stop) => Some(*process),
        _ => None,
    }
}

/// Whether a call answers NO_ERROR.
pub fn answers_no_error(out: Out) -> bool
    ensures { result ≡ waiting.is_no_error out }
{
    match out {
        Out::Answer(Code::NoError) => true,
        Out::Waits | Out::Never | Out::Answer(_) => false,
    }
}

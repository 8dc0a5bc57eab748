// The outcomes that a partition judges by itself: of a call on which an error condition holds, and of a call through a channel.

ghost use Rattle.std.specs.Prelude.{◌≢◌, ◌↔◌, ℕ, [], Some, IsTrue, Option, is_some};
ghost use Rattle.apex_types.specs.declared.request.Request.{Request as RequestValue};
ghost use Rattle.apex_machine.specs.Services as services;
ghost use Rattle.apex_machine.specs.Demands.{CanHave, MayWait, outcome_demands};
ghost use Rattle.apex_machine.specs.DueTimes.{time_out_of};
ghost use Rattle.apex_machine.specs.Ports.{use_of};
ghost use Rattle.piece_check.specs.Judged.{Judges};

use crate::arguments::is_over;
use crate::names::names_one_of;
use apex_types::{Call, Cause, ChanId, Claim, Code, Out, PartId, QueuingOperation, Request};
use wait_set::{Conditions, has_no_values};

/// Judges the outcome of a call on which an error condition holds: it is the code of one that holds, and nothing else is claimed.
pub(crate) fn judge_refused(conditions: &Conditions, claim: &Claim) -> Result<(), Cause>
    requires { conditions.now ≢ [] }
    ensures { (channel : Option ℕ) (number : ℕ) (asked : RequestValue) (answer : services.Answer) → Judges (outcome_demands conditions.now channel number asked answer claim.now) result }
{
    if claim.chan.is_some() {
        return Err(Cause::Chan);
    }
    if !conditions.has_code(claim.out) {
        return Err(Cause::Out);
    }
    if !has_no_values(claim) {
        return Err(Cause::Val);
    }
    if !claim.bytes.as_bytes().is_empty() {
        return Err(Cause::Data);
    }
    if !claim.woken.as_slice().is_empty() {
        return Err(Cause::Woken);
    }
    Ok(())
}

/// Judges what a partition can see of the outcome of its own process's call through this channel: the call claims the channel and an
/// outcome that the service can have, and names no other process of the partition. The channel judges the rest.
pub(crate) fn judge_through(channel: ChanId, number: PartId, call: &Call) -> Result<(), Cause>
    requires { IsTrue (is_some (use_of call.now.request)) }
    ensures { (answer : services.Answer) → Judges (outcome_demands [] (Some channel) number call.now.request answer call.now.claim) result }
{
    if call.claim.chan != Some(channel) {
        return Err(Cause::Chan);
    }
    if !can_have(&call.request, call.claim.out) {
        return Err(Cause::Out);
    }
    if names_one_of(call.claim.woken.as_slice(), number) {
        return Err(Cause::Woken);
    }
    Ok(())
}

// Whether a call through a channel can have this outcome, as far as its partition sees: the call answers with a code that is neither that
// of an error condition nor TIMED_OUT, or it waits with a time-out that allows it.
fn can_have(request: &Request, out: Out) -> bool
    requires { IsTrue (is_some (use_of request.now)) }
    ensures { IsTrue result ↔ CanHave request.now out }
{
    match out {
        Out::Waits => may_wait(request),
        Out::Never => false,
        Out::Answer(code) => match code {
            Code::NoError | Code::NoAction | Code::NotAvailable => true,
            Code::InvalidParam | Code::InvalidConfig | Code::InvalidMode | Code::TimedOut => false,
        },
    }
}

// Whether the caller of a service that goes through a channel may wait: the service has a time-out, and it is not 0.
fn may_wait(request: &Request) -> bool
    requires { IsTrue (is_some (use_of request.now)) }
    ensures { IsTrue result ↔ MayWait (time_out_of request.now) }
{
    match request {
        Request::QueuingPort(_, operation) => match operation {
            QueuingOperation::Send { time_out, .. } | QueuingOperation::Receive { time_out } => {
                !is_over(*time_out)
            }
            QueuingOperation::Clear => false,
        },
        _ => false,
    }
}

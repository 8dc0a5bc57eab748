// Copies of records, and of calls with a change of their claim.

use crate::arguments::{Arguments, request_like};
use crate::woken::woken_of;
use apex_types::{Body, Call, ChanId, Claim, Crossing, Message, Out, Return, Woken};
use std::alloc::{AllocError, Global};

/// What differs in a claim.
#[derive(Drop)]
pub enum Change {
    Priority(u8),
    Channel(Option<ChanId>),
    Outcome(Out),
    Value(Option<i64>),
    Bytes(Message),
    Names(Woken),
}

/// The call with this change of its claim.
pub fn with_claim(alloc: Global, call: &Call, change: Change) -> Result<Body, AllocError> {
    let mut other = copy_of_call(alloc, call)?;
    match change {
        Change::Priority(prio) => other.claim.prio = prio,
        Change::Channel(channel) => other.claim.chan = channel,
        Change::Outcome(out) => other.claim.out = out,
        Change::Value(value) => other.claim.val = value,
        Change::Bytes(bytes) => other.claim.bytes = bytes,
        Change::Names(woken) => other.claim.woken = woken,
    }
    Ok(Body::Call(other))
}

/// A copy of a call.
pub fn copy_of_call(alloc: Global, call: &Call) -> Result<Call, AllocError> {
    let request = request_like(alloc, call.request.service(), Arguments::of(&call.request))?;
    let named = Vec::from_slice(alloc, call.claim.woken.as_slice())?;
    let claim = Claim {
        prio: call.claim.prio,
        out: call.claim.out,
        val: call.claim.val,
        val2: call.claim.val2,
        val3: call.claim.val3,
        bytes: call.claim.bytes.clone()?,
        chan: call.claim.chan,
        woken: woken_of(alloc, named)?,
    };
    Ok(Call {
        who: call.who,
        request,
        claim,
    })
}

/// A copy of a return.
pub fn copy_of_return(ret: &Return) -> Result<Return, AllocError> {
    Ok(Return {
        who: ret.who,
        service: ret.service,
        code: ret.code,
        val: ret.val,
        val2: ret.val2,
        val3: ret.val3,
        bytes: ret.bytes.clone()?,
    })
}

/// A copy of a message that passes an end outside.
pub fn copy_of_crossing(alloc: Global, crossing: &Crossing) -> Result<Crossing, AllocError> {
    let named = Vec::from_slice(alloc, crossing.woken.as_slice())?;
    Ok(Crossing {
        chan: crossing.chan,
        message: crossing.message.clone()?,
        woken: woken_of(alloc, named)?,
    })
}

/// The record of another message that passes the same end, if this one is of such a message.
pub fn with_crossing(body: &Body, other: Crossing) -> Option<Body> {
    match body {
        Body::Arrive(_) => Some(Body::Arrive(other)),
        Body::Depart(_) => Some(Body::Depart(other)),
        Body::Call(_) | Body::Ret(_) | Body::Disp(_) | Body::Tick(_) | Body::Error(_) => None,
    }
}

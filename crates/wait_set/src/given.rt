// What an operation gives its caller, and whether a claim is that.

ghost use Rattle.std.specs.Prelude.{◌≡◌, ◌↔◌, [], None, pos, option_map, IsTrue, OnOk, if◌then◌else◌};
ghost use Rattle.std.specs.Option.{option_to_list};
ghost use Rattle.apex_types.specs.declared.record.Out.TheVariants as out;
ghost use Rattle.apex_machine.specs.Answer as answer;
ghost use Rattle.apex_machine.specs.Answer.{HasNoValues, HasValue, HasValues, Nothing, Number, Value};
ghost use Rattle.apex_machine.specs.Demands.{Judges, answer_demands};
ghost use Rattle.apex_machine.specs.Locks as locks;
ghost use Rattle.apex_machine.specs.Statuses.{reporting, telling};
ghost use Rattle.apex_machine.specs.Waiting.{first_waiters, is_waiting};
ghost use Rattle.wait_set.specs.declared.ended.Ended.TheVariants.{Nobody};
ghost use Rattle.wait_set.specs.Actors.{WaitsAlone, value_of};
ghost use Rattle.wait_set.specs.GivenNumbers.{value_given};

use crate::ended::Ended;
use crate::named::names_only;
use crate::set::WaitSet;
use crate::value::GivenValue;
use apex_machine::Status;
use apex_types::{Cause, Claim, Code, Out, Who};

/// What an operation gives its caller: the outcome, up to three values, the message that goes with it, and the processes whose waits end.
#[derive(Clone, Copy)]
pub struct Given<'a> {
    pub out: Out,
    pub val: Option<GivenValue>,
    pub val2: Option<GivenValue>,
    pub val3: Option<GivenValue>,
    pub bytes: &'a [u8],
    pub woken: Ended<'a>,
    /// A caller that waits ends no wait.
    pub ghost alone: { IsTrue (is_waiting out) → woken ≡ Nobody },
}

impl<'a> Given<'a> {
    ghost use Rattle.wait_set.specs.Givens.{answer_given};

    // This outcome without a value or a message; no process's wait ends.
    fn leaving(out: Out) -> Given<'a>
        ensures { answer_given result ≡ record { out = out; val = Nothing; val2 = None; val3 = None; bytes = []; woken = [] } }
    {
        Given {
            out,
            val: None,
            val2: None,
            val3: None,
            bytes: &[],
            woken: Ended::Nobody,
        }
    }

    /// The operation answers at once with this code, and does nothing.
    pub fn answering(code: Code) -> Given<'a>
        ensures { answer_given result ≡ answer.answering code }
    {
        Given::leaving(Out::Answer(code))
    }

    /// The operation is done at once.
    pub fn done() -> Given<'a>
        ensures { answer_given result ≡ answer.done }
    {
        Given::answering(Code::NoError)
    }

    /// The call does not return.
    pub fn never() -> Given<'a>
        ensures { answer_given result ≡ answer.never }
    {
        Given::leaving(Out::Never)
    }

    /// If what is waited for has come, the operation is done at once; else the caller waits.
    pub fn done_if(has_come: bool) -> Given<'a>
        ensures { answer_given result ≡ (if has_come then answer.done else answer.waiting) }
    {
        if has_come {
            return Given::done();
        }
        Given::waiting()
    }

    /// The caller waits.
    pub fn waiting() -> Given<'a>
        ensures { answer_given result ≡ answer.waiting }
    {
        Given::leaving(Out::Waits)
    }

    /// The operation cannot have at once what it needs: with a time-out of 0 the code is NOT_AVAILABLE, else the caller waits.
    pub fn unmet(time_out: i64) -> Given<'a>
        ensures { answer_given result ≡ answer.unmet time_out }
    {
        if time_out == 0 {
            return Given::answering(Code::NotAvailable);
        }
        Given::waiting()
    }

    /// The operation is done at once, and the wait of this process ends, if there is one.
    pub fn waking(woken: Option<Who>) -> Given<'a>
        ensures { answer_given result ≡ answer.waking (option_to_list woken) }
    {
        Given::giving(&[], woken)
    }

    /// The call does not return, and the wait of this process ends, if there is one.
    pub fn never_waking(woken: Option<Who>) -> Given<'a>
        ensures { answer_given result ≡ answer.never_waking (option_to_list woken) }
    {
        Given {
            out: Out::Never,
            val: None,
            val2: None,
            val3: None,
            bytes: &[],
            woken: Ended::at_most_one(woken),
        }
    }

    /// The operation of the lock is done at once: the caller's level is this one, and the wait of this process ends, if there is one.
    pub fn at_level(level: u64, woken: Option<Who>) -> Given<'a>
        ensures { answer_given result ≡ locks.at_level level (option_to_list woken) }
    {
        Given {
            out: Out::Answer(Code::NoError),
            val: Some(GivenValue::Natural(level)),
            val2: None,
            val3: None,
            bytes: &[],
            woken: Ended::at_most_one(woken),
        }
    }

    /// The operation is done at once, and all waits in a set end.
    pub fn waking_all(set: &'a WaitSet) -> Given<'a>
        ensures { answer_given result ≡ answer.waking (answer.waiters_of set.now.entries) }
    {
        Given {
            out: Out::Answer(Code::NoError),
            val: None,
            val2: None,
            val3: None,
            bytes: &[],
            woken: Ended::All(set),
        }
    }

    /// The operation is done at once, and the waits of the first in a set end, as many as this number or all.
    pub fn waking_first(set: &'a WaitSet, count: usize) -> Given<'a>
        ensures { answer_given result ≡ answer.waking (answer.waiters_of (first_waiters set.now.discipline count set.now.entries)) }
    {
        Given {
            out: Out::Answer(Code::NoError),
            val: None,
            val2: None,
            val3: None,
            bytes: &[],
            woken: Ended::First(set, count),
        }
    }

    /// The operation gives a message at once, and the wait of this process ends, if there is one.
    pub fn giving(bytes: &'a [u8], woken: Option<Who>) -> Given<'a>
        ensures { answer_given result ≡ answer.giving bytes.now (option_to_list woken) }
    {
        Given {
            out: Out::Answer(Code::NoError),
            val: None,
            val2: None,
            val3: None,
            bytes,
            woken: Ended::at_most_one(woken),
        }
    }

    /// The operation is done at once, and gives this value.
    pub fn valued(val: u64) -> Given<'a>
        ensures { answer_given result ≡ answer.done_with (Number (pos val)) }
    {
        Given::reporting(Some(Status {
            val,
            val2: None,
            val3: None,
        }))
    }

    /// The service reports this status at once, if there is one.
    pub fn reporting(status: Option<Status>) -> Given<'a>
        ensures { answer_given result ≡ telling status }
    {
        let Some(status) = status else {
            return Given::done();
        };
        Given {
            out: Out::Answer(Code::NoError),
            val: Some(GivenValue::Natural(status.val)),
            val2: status.val2.map(GivenValue::Natural),
            val3: status.val3.map(GivenValue::Natural),
            bytes: &[],
            woken: Ended::Nobody,
        }
    }

    /// The service reports these values at once.
    pub fn values(val: GivenValue, val2: Option<GivenValue>, val3: Option<GivenValue>) -> Given<'a>
        ensures { answer_given result ≡ reporting (value_given val) (option_map value_given val2) (option_map value_given val3) }
    {
        Given {
            out: Out::Answer(Code::NoError),
            val: Some(val),
            val2,
            val3,
            bytes: &[],
            woken: Ended::Nobody,
        }
    }

    /// The operation answers at once with this code, value and message.
    pub fn reading(code: Code, val: u64, message: &'a [u8]) -> Given<'a>
        ensures { answer_given result ≡ record { out = out.Answer code; val = Number (pos val); val2 = None; val3 = None; bytes = message.now; woken = [] } }
    {
        Given {
            out: Out::Answer(code),
            val: Some(GivenValue::Natural(val)),
            val2: None,
            val3: None,
            bytes: message,
            woken: Ended::Nobody,
        }
    }

    /// Judges a claim, which must be what the operation gives. The cause is that of the first demand that fails.
    ///
    /// A claim that passes names no process if its caller waits.
    pub fn judge(&self, claim: &Claim) -> Result<(), Cause>
        ensures judged { Judges (answer_demands (answer_given self.now) claim.now) result }
        ensures alone { OnOk result (WaitsAlone claim.now) }
    {
        if claim.out != self.out {
            return Err(Cause::Out);
        }
        if !self.has_values(claim) {
            return Err(Cause::Val);
        }
        if claim.bytes.as_bytes() != self.bytes {
            return Err(Cause::Data);
        }
        if !self.woken.is_exactly(&claim.woken) {
            return Err(Cause::Woken);
        }
        Ok(())
    }

    // Whether a claim has exactly these values.
    fn has_values(&self, claim: &Claim) -> bool
        ensures { IsTrue result ↔ HasValues (value_of (option_map value_given self.now.val)) (option_map value_given self.now.val2) (option_map value_given self.now.val3) claim.now }
    {
        is_value(self.val, claim.val)
            && is_value(self.val2, claim.val2)
            && is_value(self.val3, claim.val3)
    }
}

// Whether a claimed value is this one; if there is none, whether no value is claimed.
fn is_value(value: Option<GivenValue>, claimed: Option<i64>) -> bool
    ensures { IsTrue result ↔ (claimed ≡ option_map value_given value) }
{
    match value {
        Some(value) => value.is_claimed(claimed),
        None => claimed.is_none(),
    }
}

/// Judges the claim of an operation that has this outcome, gives nothing and ends no wait. The cause is that of the first demand that
/// fails.
pub fn judge_outcome(out: Out, claim: &Claim) -> Result<(), Cause>
    ensures { Judges (answer_demands (record { out = out; val = Nothing; val2 = None; val3 = None; bytes = []; woken = [] }) claim.now) result }
{
    judge_alone(out, claim.val.is_none(), claim)
}

/// Judges the claim of an operation that is done at once, ends no wait, and gives a value: `has_value` says whether the claimed value is
/// that one. The cause is that of the first demand that fails.
pub fn judge_value(has_value: bool, claim: &Claim) -> Result<(), Cause>
    ensures { (value : Value) → (IsTrue has_value ↔ HasValue value claim.now.val) → Judges (answer_demands (answer.done_with value) claim.now) result }
{
    judge_alone(Out::Answer(Code::NoError), has_value, claim)
}

// Judges the claim of an operation that has this outcome, gives at most one value and ends no wait: `has_value` says whether the claimed
// value is that one.
fn judge_alone(out: Out, has_value: bool, claim: &Claim) -> Result<(), Cause>
    ensures { (value : Value) → (IsTrue has_value ↔ HasValue value claim.now.val) → Judges (answer_demands (record { out = out; val = value; val2 = None; val3 = None; bytes = []; woken = [] }) claim.now) result }
{
    if claim.out != out {
        return Err(Cause::Out);
    }
    if !has_value || claim.val2.is_some() || claim.val3.is_some() {
        return Err(Cause::Val);
    }
    if !claim.bytes.as_bytes().is_empty() {
        return Err(Cause::Data);
    }
    if !names_only(None, claim.woken.as_slice()) {
        return Err(Cause::Woken);
    }
    Ok(())
}

/// Whether a claim has no value.
pub fn has_no_values(claim: &Claim) -> bool
    ensures { IsTrue result ↔ HasNoValues claim.now }
{
    claim.val.is_none() && claim.val2.is_none() && claim.val3.is_none()
}

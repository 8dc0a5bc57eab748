// The piece of a channel: what goes through it, and which processes wait at its ends.

ghost use Rattle.std.specs.Prelude.{◌≡◌, ◌<◌, ◌≢◌, ℕ, IfErr, IfOk, OnErr, OnOk, Some, if◌then◌else◌, length, true};
ghost use Rattle.apex_types.specs.declared.limits.TheConstants.{PLACE_COUNT};
ghost use Rattle.apex_types.specs.declared.record.Body.TheVariants as body;
ghost use Rattle.apex_types.specs.declared.record.Ordered.{Ordered as OrderedRecord};
ghost use Rattle.apex_types.specs.declared.record.Who.{Who as WhoValue};
ghost use Rattle.apex_machine.specs.After.{channel_after};
ghost use Rattle.apex_machine.specs.Channels.{has_channel};
ghost use Rattle.apex_machine.specs.Demands.{Judges, LocalStep, demands};
ghost use Rattle.apex_machine.specs.Configuration.{Configuration};
ghost use Rattle.apex_machine.specs.Pieces.{OfChannel, one_more, part};
ghost use Rattle.apex_machine.specs.State.{cold_channel, cold_state};
ghost use Rattle.apex_machine.specs.Waiting.{stops};
ghost use Rattle.channel.specs.Held.{IsConfigured};
ghost use Rattle.partition_state.specs.Calls.{RefusesOrWants};
ghost use Rattle.piece_check.specs.Held.{channel_part};
ghost use Rattle.piece_check.specs.Parts.{HoldsBefore, WaitBefore, WantsWhereAllowed};
ghost use Rattle.piece_check.specs.Quiet.{is_quiet};
ghost use Rattle.piece_check.specs.Subjects.{is_the};

use apex_types::{
    Body, Call, Cause, ChanId, Code, Ordered, Out, Place, ProcId, ProcessOperation, Request, Who,
};
use channel::{Channel, QueuingSettings, SamplingSettings};
use module_config::{ChannelKind, Config};
use partition_state::is_restart;
use scheduling::Times;
use std::alloc::{AllocError, Global};
use wait_set::ObjFault;

/// The piece of a channel: the times of the cores, and the channel.
#[derive(Clone, Drop)]
pub(crate) struct ChannelPiece {
    pub(crate) times: Times,
    pub(crate) channel: Channel,
}

impl ChannelPiece {
    /// The piece of this channel, with its part of the cold state.
    ///
    /// AllocError if memory for the places of its messages is refused.
    pub(crate) fn start(
        alloc: Global,
        config: &Config,
        number: ChanId,
    ) -> Result<ChannelPiece, AllocError>
        requires { has_channel config.now number ≡ true }
        ensures part { IfOk result (λ piece. channel_part piece ≡ part (OfChannel number) (cold_state config.now)) }
        ensures configured { IfOk result (λ piece. IsConfigured config.now piece.channel) }
    {
        let times = Times::new(config.cores());
        let channel = empty_channel(alloc, config, number)?;
        Ok(ChannelPiece { times, channel })
    }

    /// Judges a record, and changes the part as the record says.
    ///
    /// Refused, with nothing changed, if a demand fails, with the cause of the first that does; or if memory is refused to a call or an
    /// arrival.
    pub(crate) fn step(&mut self, config: &Config, ordered: &Ordered) -> Result<(), ObjFault>
        requires core { ordered.now.core < length self.old.times }
        requires place { ordered.now.pos < PLACE_COUNT }
        requires holds_before { HoldsBefore ordered.now.pos (channel_part self.old) }
        requires configured { IsConfigured config.now self.old.channel }
        ensures ok { OnOk result (LocalStep config.now (channel_part self.old) ordered.now (channel_part self.new)) }
        ensures refused { IfErr result (RefusesOrWants (demands config.now (channel_part self.old) ordered.now)) }
        ensures unchanged { OnErr result (self.new ≡ self.old) }
        ensures memory { IfErr result (WantsWhereAllowed ordered.now.rec.body) }
        ensures configured { IsConfigured config.now self.new.channel }
    {
        match &ordered.rec.body {
            Body::Call(call) => {
                if call.claim.chan == Some(self.channel.number()) {
                    let now = self.times.now(ordered.core);
                    return self.channel.apply(ordered.pos, now, call);
                }
                self.let_go(ordered.pos, call);
            }
            Body::Arrive(crossing) if crossing.chan == self.channel.number() => {
                let now = self.times.now(ordered.core);
                return self.channel.arrive(now, crossing);
            }
            Body::Depart(crossing) if crossing.chan == self.channel.number() => {
                return self.channel.depart(crossing).map_err(ObjFault::Unlawful);
            }
            Body::Arrive(crossing) | Body::Depart(crossing) => {
                self.channel.release(crossing.woken.as_slice());
            }
            Body::Tick(woken) => {
                self.channel.release(woken.as_slice());
                self.times.advance(ordered.core);
            }
            Body::Error(report) => {
                if report.restarts {
                    self.channel.leave_all(report.who.part);
                }
            }
            Body::Ret(_) | Body::Disp(_) => {}
        }
        Ok(())
    }

    /// Passes by a tick that ends no wait: the time of its core rises. Returns whether the record is one. Takes no memory.
    pub(crate) fn pass_by(&mut self, ordered: &Ordered) -> bool
        requires core { ordered.now.core < length self.old.times }
        requires place { ordered.now.pos < PLACE_COUNT }
        requires holds_before { HoldsBefore ordered.now.pos (channel_part self.old) }
        ensures value { result ≡ is_quiet ordered.now.rec.body }
        ensures after { self.new ≡ (if result then record self.old { times = one_more ordered.now.core self.old.times } else self.old) }
    {
        let Body::Tick(woken) = &ordered.rec.body else {
            return false;
        };
        if !woken.as_slice().is_empty() {
            return false;
        }
        self.times.advance(ordered.core);
        true
    }

    /// Judges a record. A call through the channel, an arrival at it and a departure from it must meet what the channel demands; of any other
    /// record the channel demands nothing.
    /// Takes no memory.
    ///
    /// Refused with the cause of the first demand that fails.
    pub(crate) fn judge(&self, config: &Config, ordered: &Ordered) -> Result<(), Cause>
        requires configured { IsConfigured config.now self.now.channel }
        ensures { Judges (demands config.now (channel_part self.now) ordered.now) result }
    {
        match &ordered.rec.body {
            Body::Call(call) => {
                if call.claim.chan == Some(self.channel.number()) {
                    let now = self.times.now(ordered.core);
                    self.channel.judge(now, call)
                } else {
                    Ok(())
                }
            }
            Body::Arrive(crossing) if crossing.chan == self.channel.number() => {
                self.channel.judge_arrival(crossing)
            }
            Body::Depart(crossing) if crossing.chan == self.channel.number() => {
                self.channel.judge_departure(crossing)
            }
            Body::Arrive(_)
            | Body::Depart(_)
            | Body::Error(_)
            | Body::Tick(_)
            | Body::Ret(_)
            | Body::Disp(_) => { Ok(()) }
        }
    }

    // A call that goes through another channel or through none: processes whose waits it ends leave. A process that waits has a number of
    // 32 bits.
    fn let_go(&mut self, place: Place, call: &Call)
        requires holds_before { WaitBefore place self.old.channel.channel }
        requires apart { call.now.claim.chan ≢ Some self.old.channel.number }
        ensures configured { (configuration : Configuration) → IsConfigured configuration self.old.channel → IsConfigured configuration self.new.channel }
        ensures after { (configuration : Configuration) (now : ℕ) (ordered : OrderedRecord) → ordered.pos ≡ place → ordered.rec.body ≡ body.Call call.now → self.new ≡ record self.old { channel = record self.old.channel { channel = channel_after configuration now self.old.channel.number ordered self.old.channel.channel } } }
    {
        self.channel.release(call.claim.woken.as_slice());
        if is_restart(call) {
            self.channel.leave_all(call.who.part);
        } else if let Some(target) = stopped_by(call) {
            self.channel.leave(target);
        }
    }
}

// The channel of this number as it is configured, with no message and no process that waits.
fn empty_channel(alloc: Global, config: &Config, number: ChanId) -> Result<Channel, AllocError>
    requires { has_channel config.now number ≡ true }
    ensures number { IfOk result (λ channel. channel.number ≡ number) }
    ensures cold { IfOk result (λ channel. channel.channel ≡ cold_channel config.now number) }
    ensures configured { IfOk result (IsConfigured config.now) }
{
    config.keeps_limits();
    let Some(kind) = config.channel_kind(number) else {
        unreachable!()
    };
    match &kind {
        ChannelKind::Sampling {
            size,
            refresh,
            from_outside,
        } => Ok(Channel::sampling(
            alloc,
            number,
            SamplingSettings {
                size: *size,
                refresh: *refresh,
                from_outside: *from_outside,
            },
        )),
        ChannelKind::Queuing {
            size,
            capacity,
            sending,
            receiving,
            source,
            destination,
        } => Channel::queuing(
            alloc,
            number,
            QueuingSettings {
                size: *size,
                capacity: *capacity,
                sending: *sending,
                receiving: *receiving,
                source: *source,
                destination: *destination,
            },
        ),
    }
}

// The process that a call stops, if it stops one whose number has 32 bits: a STOP that is done stops its target, which is of the caller's
// partition.
fn stopped_by(call: &Call) -> Option<Who>
    ensures { (who : WhoValue) → who.proc < 4294967296 → stops call.now who ≡ is_the who result }
{
    let Request::Process(process, ProcessOperation::Stop) = &call.request else {
        return None;
    };
    if call.claim.out != Out::Answer(Code::NoError)
        || *process < 0
        || *process > i64::from(u32::MAX)
    {
        return None;
    }
    Some(Who {
        part: call.who.part,
        proc: ProcId::new(*process as u32),
    })
}

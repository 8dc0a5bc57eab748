// The pieces by their numbers, and the records that touch each.

ghost use Rattle.std.specs.Prelude.{◌≡◌, ◌<◌, IsTrue, length};
ghost use Rattle.apex_machine.specs.Configuration.{Configuration};
ghost use Rattle.apex_machine.specs.Pieces as rules;
ghost use Rattle.apex_machine.specs.Pieces.{OfChannel, OfPartition, is_configured, pieces, touched_by};
ghost use Rattle.piece_check.specs.Parts.{piece_at};
ghost use Rattle.piece_check.specs.Subjects.{piece_of};
ghost use Rattle.piece_check.specs.Touching.{HasList};

use crate::names::names_one_of;
use apex_types::{Body, Call, ChanId, Code, Ordered, Out, PartId, ProcessOperation, Request};
use module_config::Config;
use partition_state::is_restart;

/// The subject of a piece: the module, or the partition or channel with a number.
#[derive(Clone, Copy, Debug, PartialEq, Eq)]
pub enum Subject {
    Module,
    Partition(PartId),
    Channel(ChanId),
}

/// The number of pieces: one for the module, for each partition and for each channel.
pub fn count(config: &Config) -> usize
    ensures { result ≡ length (pieces config.now) }
{
    config.partition_count() + config.channel_count() + 1
}

/// The subject of the piece of this number. The module is piece 0; the partitions follow, and then the channels, each in ascending order.
pub fn subject_of(config: &Config, piece: usize) -> Subject
    requires { piece < length (pieces config.now) }
    ensures value { piece_of result ≡ piece_at config.now piece }
    ensures configured { IsTrue (is_configured config.now (piece_of result)) }
    ensures listed { HasList (piece_of result) }
{
    config.keeps_limits();
    if piece == 0 {
        return Subject::Module;
    }
    let index = piece - 1;
    let partitions = config.partition_count();
    if index < partitions {
        Subject::Partition(config.partition_number(index))
    } else {
        Subject::Channel(config.channel_number(index - partitions))
    }
}

/// Whether a record touches the piece of this number.
pub fn touches(config: &Config, piece: usize, ordered: &Ordered) -> bool
    requires { piece < length (pieces config.now) }
    ensures { result ≡ rules.touches config.now (piece_at config.now piece) ordered.now }
{
    let subject = subject_of(config, piece);
    subject.is_touched(config, ordered)
}

impl Subject {
    /// Whether a record touches the piece; each record touches the module.
    pub fn is_touched(&self, config: &Config, ordered: &Ordered) -> bool
        ensures { result ≡ rules.touches config.now (piece_of self.now) ordered.now }
    {
        match self {
            Subject::Module => true,
            Subject::Partition(number) => touches_partition(*number, &ordered.rec.body),
            Subject::Channel(number) => touches_channel(config, *number, &ordered.rec.body),
        }
    }
}

// Whether a record touches the partition of this number: each tick and each dispatch touches it, and so do its own calls and returns, the
// errors of its processes, and a call, an arrival or a departure that names one of its processes.
fn touches_partition(number: PartId, body: &Body) -> bool
    ensures { (configuration : Configuration) → result ≡ touched_by configuration body.now (OfPartition number) }
{
    match body {
        Body::Disp(_) | Body::Tick(_) => true,
        Body::Call(call) => {
            call.who.part == number || names_one_of(call.claim.woken.as_slice(), number)
        }
        Body::Ret(ret) => ret.who.part == number,
        Body::Error(report) => report.who.part == number,
        Body::Arrive(crossing) | Body::Depart(crossing) => {
            names_one_of(crossing.woken.as_slice(), number)
        }
    }
}

// Whether a record touches the channel of this number: each tick touches it, and so do a call through it, an arrival at it, a departure from
// it, and a stop or a restart at one of its ends.
fn touches_channel(config: &Config, number: ChanId, body: &Body) -> bool
    ensures { result ≡ touched_by config.now body.now (OfChannel number) }
{
    match body {
        Body::Tick(_) => true,
        Body::Call(call) => {
            call.claim.chan == Some(number) || stops_at_end(config, number, call)
        }
        Body::Arrive(crossing) | Body::Depart(crossing) => crossing.chan == number,
        Body::Error(report) => { report.restarts && config.is_at_end(number, report.who.part) }
        Body::Ret(_) | Body::Disp(_) => false,
    }
}

// Whether a call stops processes of a partition at an end of this channel.
fn stops_at_end(config: &Config, number: ChanId, call: &Call) -> bool
    ensures { result ≡ rules.stops_at_end config.now number call.now }
{
    stops_some(call) && config.is_at_end(number, call.who.part)
}

/// Whether a call stops processes of its partition: a STOP that is done stops one, a restart stops all. Such a call may touch channels that
/// it does not claim.
pub(crate) fn stops_some(call: &Call) -> bool
    ensures { result ≡ rules.stops_some call.now }
{
    match call.request {
        Request::Process(_, ProcessOperation::Stop) => call.claim.out == Out::Answer(Code::NoError),
        _ => is_restart(call),
    }
}

// The figures of objects and channels as text.

use crate::text::{Most, count_of, counted, greatest_of};
use apex_types::ChanId;
use run_numbers::{Figure, Named, Numbers, Thing};
use std::alloc::AllocError;
use wording::Ascii;

/// Adds the figures of an object or a lock.
pub(crate) fn add_object(
    text: &mut String,
    thing: &Thing,
    numbers: &Numbers,
) -> Result<(), AllocError> {
    add_name(text, thing)?;
    if let Some(name) = numbers.names().of(&Named::Object(*thing)) {
        write!(text, " ({})", Ascii(name.as_bytes()))?;
    }
    let waiting = greatest_of(numbers, Figure::Waiters(*thing), "process");
    write!(text, "\n  longest queue: {waiting}\n")?;
    match thing {
        Thing::Buffer(..) => add_messages(text, thing, numbers),
        Thing::Mutex(..) => add_holds(text, thing, numbers),
        _ => Ok(()),
    }
}

fn add_name(text: &mut String, thing: &Thing) -> Result<(), AllocError> {
    let (part, kind, number) = match thing {
        Thing::Buffer(part, number) => (*part, "buffer", *number),
        Thing::Blackboard(part, number) => (*part, "blackboard", *number),
        Thing::Semaphore(part, number) => (*part, "semaphore", *number),
        Thing::Event(part, number) => (*part, "event", *number),
        Thing::Mutex(part, number) => (*part, "mutex", *number),
        Thing::Lock(part) => {
            return write!(text, "\nPartition {}, lock", part.number());
        }
        Thing::Channel(channel) => {
            return write!(text, "\nChannel {}", channel.number());
        }
    };
    write!(text, "\nPartition {}, {kind} {number}", part.number())
}

fn add_messages(text: &mut String, thing: &Thing, numbers: &Numbers) -> Result<(), AllocError> {
    let messages = Most(numbers.tallies().tally(&Figure::Messages(*thing)).greatest);
    write!(text, "  most messages: {messages}\n")
}

fn add_holds(text: &mut String, thing: &Thing, numbers: &Numbers) -> Result<(), AllocError> {
    let hold = greatest_of(numbers, Figure::Hold(*thing), "tick");
    let outranked = greatest_of(numbers, Figure::Outranked(*thing), "tick");
    write!(text, "  longest hold: {hold}\n")?;
    write!(
        text,
        "  longest wait for an owner of a lower priority: {outranked}\n"
    )
}

/// Adds the figures of a sampling channel.
pub(crate) fn add_sampling(
    text: &mut String,
    channel: ChanId,
    numbers: &Numbers,
) -> Result<(), AllocError> {
    let writes = counted(count_of(numbers, Figure::Writes(channel)), "write");
    let reads = counted(count_of(numbers, Figure::Reads(channel)), "read");
    let invalid = count_of(numbers, Figure::InvalidReads(channel));
    let age = greatest_of(numbers, Figure::Ages(channel), "tick");
    let number = channel.number();
    write!(
        text,
        "\nChannel {number}\n  {writes}, {reads}, {invalid} invalid; greatest age: {age}\n"
    )
}

/// Adds the figures of a queuing channel.
pub(crate) fn add_queuing(
    text: &mut String,
    channel: ChanId,
    numbers: &Numbers,
) -> Result<(), AllocError> {
    let thing = Thing::Channel(channel);
    add_name(text, &thing)?;
    let waiting = greatest_of(numbers, Figure::Waiters(thing), "process");
    write!(text, "\n  longest queue: {waiting}\n")?;
    add_messages(text, &Thing::Channel(channel), numbers)
}

// The text of a configuration.

use crate::module_plan::{ChannelPlan, ModulePlan, OutsideEnd, PartitionPlan, WindowPlan};
use apex_machine::ErrorPolicy;
use std::alloc::{AllocError, Global};

// The keys of a partition's limits.
const LIMITS: [&str; 6] = [
    "processes",
    "buffers",
    "blackboards",
    "semaphores",
    "events",
    "mutexes",
];

/// The text that configures a module.
///
/// `AllocError` if memory is refused.
pub fn text_of(alloc: Global, plan: &ModulePlan) -> Result<String, AllocError> {
    let mut text = String::new(alloc);
    let (cores, frame, skew) = (plan.cores, plan.frame, plan.skew);
    write!(text, "cores = {cores}\nframe = {frame}\nskew = {skew}\n")?;
    for partition in &plan.partitions {
        add_partition(&mut text, frame, partition)?;
    }
    for window in &plan.windows {
        add_window(&mut text, *window)?;
    }
    for channel in &plan.channels {
        add_channel(&mut text, channel)?;
    }
    Ok(text)
}

// Adds the table of a partition.
fn add_partition(
    text: &mut String,
    frame: u64,
    partition: &PartitionPlan,
) -> Result<(), AllocError> {
    let number = partition.number;
    let period = frame.saturating_mul(partition.frames);
    write!(
        text,
        "\n[[partition]]\nnumber = {number}\nperiod = {period}\ncores = ["
    )?;
    let mut is_first = true;
    for core in &partition.cores {
        text.push_str(if is_first { "" } else { ", " })?;
        is_first = false;
        write!(text, "{core}")?;
    }
    text.push_str("]\n")?;
    for (key, limit) in LIMITS.iter().zip(&partition.limits) {
        write!(text, "{key} = {limit}\n")?;
    }
    match partition.on_error {
        Some(policy) => {
            let name = name_of(policy);
            write!(text, "on_error = \"{name}\"\n")
        }
        None => Ok(()),
    }
}

// The name of what is done about an error.
fn name_of(policy: ErrorPolicy) -> &'static str {
    match policy {
        ErrorPolicy::Ignore => "IGNORE",
        ErrorPolicy::Idle => "IDLE",
        ErrorPolicy::ColdStart => "COLD_START",
        ErrorPolicy::WarmStart => "WARM_START",
    }
}

// Adds the table of a window.
fn add_window(text: &mut String, window: WindowPlan) -> Result<(), AllocError> {
    let WindowPlan {
        core,
        partition,
        start,
        length,
    } = window;
    write!(
        text,
        "\n[[window]]\ncore = {core}\npartition = {partition}\nstart = {start}\nlength = {length}\n"
    )
}

// Adds the table of a channel.
fn add_channel(text: &mut String, channel: &ChannelPlan) -> Result<(), AllocError> {
    match channel.capacity {
        Some(capacity) => add_queuing(text, channel, capacity),
        None => add_sampling(text, channel),
    }
}

// Adds the table of a queuing channel of this capacity.
fn add_queuing(text: &mut String, channel: &ChannelPlan, capacity: u64) -> Result<(), AllocError> {
    let (number, size, source) = (channel.number, channel.size, channel.source);
    let [senders, receivers] = channel.by_priority;
    write!(
        text,
        "\n[[queuing]]\nchannel = {number}\nsize = {size}\ncapacity = {capacity}\n"
    )?;
    add_outside(text, channel)?;
    if channel.outside != Some(OutsideEnd::Source) {
        let senders = discipline(senders);
        write!(
            text,
            "source = {{ partition = {source}, port = \"Q{number}\" }}\nsource_discipline = \"{senders}\"\n"
        )?;
    }
    if channel.outside != Some(OutsideEnd::Destination) {
        let destination = channel.destinations.first().copied().unwrap_or(0);
        let receivers = discipline(receivers);
        write!(
            text,
            "destination = {{ partition = {destination}, port = \"Q{number}\" }}\ndestination_discipline = \"{receivers}\"\n"
        )?;
    }
    Ok(())
}

// Adds the table of a sampling channel.
fn add_sampling(text: &mut String, channel: &ChannelPlan) -> Result<(), AllocError> {
    let (number, size, source) = (channel.number, channel.size, channel.source);
    let refresh = channel.refresh;
    write!(
        text,
        "\n[[sampling]]\nchannel = {number}\nsize = {size}\nrefresh = {refresh}\n"
    )?;
    add_outside(text, channel)?;
    if channel.outside != Some(OutsideEnd::Source) {
        write!(
            text,
            "source = {{ partition = {source}, port = \"S{number}, out\" }}\n"
        )?;
    }
    add_destinations(text, channel)
}

// Adds the destinations of a sampling channel. With one outside, there may be no other.
fn add_destinations(text: &mut String, channel: &ChannelPlan) -> Result<(), AllocError> {
    if channel.outside == Some(OutsideEnd::Destination) && channel.destinations.is_empty() {
        return Ok(());
    }
    let number = channel.number;
    text.push_str("destinations = [")?;
    let mut is_first = true;
    for destination in &channel.destinations {
        text.push_str(if is_first { "" } else { ", " })?;
        is_first = false;
        write!(
            text,
            "{{ partition = {destination}, port = \"S{number}\" }}"
        )?;
    }
    text.push_str("]\n")
}

// Adds which end of a channel is outside, if one is.
fn add_outside(text: &mut String, channel: &ChannelPlan) -> Result<(), AllocError> {
    match channel.outside {
        Some(OutsideEnd::Source) => text.push_str("outside = \"SOURCE\"\n"),
        Some(OutsideEnd::Destination) => text.push_str("outside = \"DESTINATION\"\n"),
        None => Ok(()),
    }
}

// The name of a discipline.
fn discipline(is_by_priority: bool) -> &'static str {
    if is_by_priority { "PRIORITY" } else { "FIFO" }
}

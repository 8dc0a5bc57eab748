// What is refused over the whole of a configuration, once each key has been read.

ghost use Rattle.std.specs.Prelude.{◌≡◌, ◌+◌, ◌≤◌, All, AllPairs, IfSome, false, length, not, option_map};
ghost use Rattle.std.specs.List.{find};
ghost use Rattle.apex_machine.specs.Configuration.{PartitionLimits, numbered};
ghost use Rattle.module_config.specs.declared.fault.ConfigFault.TheVariants.{TooMany, Duplicate, CoreNotOfPartition, Overlap, ChannelEnds};
ghost use Rattle.module_config.specs.Ends.{are_joined};
ghost use Rattle.module_config.specs.Laid.{laid_out};
ghost use Rattle.module_config.specs.Limits.{BeginsNoLater, HasTick};
ghost use Rattle.module_config.specs.Misfits.{Finds, HasMisfit, fault_of};
ghost use Rattle.module_config.specs.Whole.{is_too_large, has_many_channels, has_many_ports, is_given_twice, has_overlap, has_port_twice, is_of_partition, are_of_partitions, whole_fault};

use crate::configured::find_unjoined;
use crate::counts::{EndCount, channel_numbers};
use crate::ends::Likeness;
use crate::layout::Layout;
use crate::misfit::Misfit;
use crate::number::{find as find_numbered, find_twice};
use crate::partition::Partition;
use crate::timetable::find_overlap;
use crate::window::TimeWindow;
use apex_types::limits::{MOST_CHANNELS, MOST_PARTITIONS, MOST_PORTS, MOST_WINDOWS};
use apex_types::{ChanId, PartId};

/// A misfit that shows the first refusal over the whole of a layout, if its parts are not consistent.
pub(crate) fn find_misfit(layout: &Layout) -> Option<Misfit>
    requires by_start { AllPairs BeginsNoLater layout.now.windows.items }
    requires some_tick { All HasTick layout.now.windows.items }
    ensures fault { option_map fault_of result ≡ whole_fault (laid_out layout.now) }
    ensures shown { IfSome result (HasMisfit (laid_out layout.now)) }
{
    if let Some(misfit) = find_excess(layout) {
        return Some(misfit);
    }
    if let Some(misfit) = find_repeated(layout) {
        return Some(misfit);
    }
    if let Some(misfit) = find_stray_window(layout) {
        return Some(misfit);
    }
    if let Some(misfit) = find_shared_tick(layout) {
        return Some(misfit);
    }
    find_stray_channel(layout)
}

// More partitions, windows, channels or ports than a module may have.
fn find_excess(layout: &Layout) -> Option<Misfit>
    ensures { Finds (laid_out layout.now) TooMany (is_too_large (laid_out layout.now)) result }
{
    if layout.partitions.len() > MOST_PARTITIONS {
        return Some(Misfit::Partitions);
    }
    if layout.windows.len() > MOST_WINDOWS {
        return Some(Misfit::Windows);
    }
    if has_many_channels(layout) {
        return Some(Misfit::Channels);
    }
    find_port_excess(layout)
}

// Whether there are more channels than a module may have.
fn has_many_channels(layout: &Layout) -> bool
    ensures { result ≡ has_many_channels (laid_out layout.now) }
{
    layout.sampling.len() > MOST_CHANNELS
        || layout.queuing.len() > MOST_CHANNELS - layout.sampling.len()
}

// A partition that has more ports of a kind than it may have.
fn find_port_excess(layout: &Layout) -> Option<Misfit>
    requires { has_many_channels (laid_out layout.now) ≡ false }
    ensures { Finds (laid_out layout.now) TooMany (has_many_ports (laid_out layout.now)) result }
{
    let sampling = EndCount {
        sampling: &layout.sampling,
        queuing: &[],
        likeness: Likeness::Partition,
        most: MOST_PORTS,
    };
    if let Some(end) = sampling.find_exceeded() {
        return Some(Misfit::SamplingPorts(end.partition()));
    }
    let queuing = EndCount {
        sampling: &[],
        queuing: &layout.queuing,
        likeness: Likeness::Partition,
        most: MOST_PORTS,
    };
    let end = queuing.find_exceeded()?;
    Some(Misfit::QueuingPorts(end.partition()))
}

// A partition's number, a channel's number or a partition's port that is given twice.
fn find_repeated(layout: &Layout) -> Option<Misfit>
    requires { has_many_channels (laid_out layout.now) ≡ false }
    ensures { Finds (laid_out layout.now) Duplicate (is_given_twice (laid_out layout.now)) result }
{
    if let Some(partition) = find_twice(&layout.partitions) {
        return Some(Misfit::PartitionTwice(partition.number));
    }
    if let Some(number) = find_twice(&channel_numbers(layout)) {
        return Some(Misfit::ChannelTwice(ChanId::new(*number)));
    }
    find_repeated_port(layout)
}

// A port that is at two ends of channels.
fn find_repeated_port(layout: &Layout) -> Option<Misfit>
    requires { has_many_channels (laid_out layout.now) ≡ false }
    ensures { Finds (laid_out layout.now) Duplicate (has_port_twice (laid_out layout.now)) result }
{
    let ports = EndCount {
        sampling: &layout.sampling,
        queuing: &layout.queuing,
        likeness: Likeness::Port,
        most: 1,
    };
    let end = ports.find_exceeded()?;
    Some(Misfit::PortTwice {
        partition: end.partition(),
        name: end.name(),
    })
}

// A window whose core is not one of its partition's.
fn find_stray_window(layout: &Layout) -> Option<Misfit>
    ensures { Finds (laid_out layout.now) CoreNotOfPartition (not (are_of_partitions (laid_out layout.now).partitions (laid_out layout.now).windows)) result }
{
    let window = stray_window(&layout.partitions, &layout.windows)?;
    Some(Misfit::StrayWindow {
        core: window.core(),
        start: window.start(),
        partition: window.partition(),
    })
}

// The first window whose core is not one of its partition's, if there is one.
fn stray_window<'a>(partitions: &[Partition], windows: &'a [TimeWindow]) -> Option<&'a TimeWindow>
    ensures { option_map (λ window. window.now) result ≡ find (λ window. not (is_of_partition partitions.now window)) windows.now }
{
    windows
        .iter()
        .find(|window| !is_of_partition(partitions, window))
}

// Two windows of a core that share a tick.
fn find_shared_tick(layout: &Layout) -> Option<Misfit>
    requires by_start { AllPairs BeginsNoLater layout.now.windows.items }
    requires some_tick { All HasTick layout.now.windows.items }
    ensures { Finds (laid_out layout.now) Overlap (has_overlap (laid_out layout.now).windows) result }
{
    let (window, later) = find_overlap(&layout.windows)?;
    Some(Misfit::Overlap {
        core: window.core(),
        start: window.start(),
        later: later.start(),
    })
}

// A channel that does not join configured partitions.
fn find_stray_channel(layout: &Layout) -> Option<Misfit>
    ensures { Finds (laid_out layout.now) ChannelEnds (not (are_joined (laid_out layout.now))) result }
{
    if let Some(channel) = find_unjoined(&layout.sampling, &layout.partitions) {
        return Some(Misfit::StrayChannel(channel.number));
    }
    let channel = find_unjoined(&layout.queuing, &layout.partitions)?;
    Some(Misfit::StrayChannel(channel.number))
}

/// The partition of this number, if there is one.
pub(crate) fn find_partition(partitions: &[Partition], number: PartId) -> Option<&Partition>
    ensures { option_map (λ found. found.now) result ≡ numbered (λ (limits : PartitionLimits). limits.number) number partitions.now }
{
    find_numbered(partitions, u16::from(number.number()))
}

// Whether a window's partition is configured and has the window's core.
fn is_of_partition(partitions: &[Partition], window: &TimeWindow) -> bool
    ensures { result ≡ is_of_partition partitions.now window.now }
{
    find_partition(partitions, window.partition()).is_some_and(|limits| limits
        .cores
        .contains(u64::from(window.core().number())))
}

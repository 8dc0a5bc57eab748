// The numbers that a caller gives, in range or not.

ghost use Rattle.std.specs.Prelude.{◌≡◌, ◌<◌, ◌||◌};
ghost use Rattle.apex_types.specs.declared.error.ErrorCode.TheVariants as error;
ghost use Rattle.apex_types.specs.Numbers.{error_number};
ghost use Rattle.apex_machine.specs.Arguments as numbers;

use apex_machine::Direction;
use apex_types::limits::{
    GREATEST_MAXIMUM, GREATEST_PRIORITY, LONGEST_MESSAGE, LONGEST_REPORT, MOST_MESSAGES,
};
use apex_types::{Discipline, ErrorCode, ProcId};

/// Whether a number is a priority: 1 to 239.
pub(crate) fn is_priority(priority: i64) -> bool
    ensures { result ≡ numbers.is_priority priority }
{
    1 <= priority && priority <= GREATEST_PRIORITY as i64
}

/// Whether a number is a period in ticks: above 0, or -1 for an aperiodic process.
pub(crate) fn is_period(period: i64) -> bool
    ensures { result ≡ numbers.is_period period }
{
    period > 0 || period == -1
}

/// Whether a period suits the partition's, both in ticks: it is a multiple of the partition's, or below 0.
pub(crate) fn suits_period(partition_period: u64, period: i64) -> bool
    requires { 0 < partition_period }
    ensures { result ≡ numbers.suits_period partition_period period }
{
    period < 0 || period as u64 % partition_period == 0
}

/// Whether a number is a time capacity in ticks: above 0, or -1 for a process without deadlines.
pub(crate) fn is_time_capacity(capacity: i64) -> bool
    ensures { result ≡ numbers.is_time_capacity capacity }
{
    is_period(capacity)
}

/// Whether a period and a time capacity are given, both in ticks, and the capacity is the greater.
pub(crate) fn is_above_period(period: i64, capacity: i64) -> bool
    ensures { result ≡ numbers.is_above_period period capacity }
{
    period > 0 && capacity > period
}

/// Whether a number is the length of a message to the maintenance: 0 to 128 bytes.
pub(crate) fn is_report_length(length: i64) -> bool
    ensures { result ≡ numbers.is_report_length length }
{
    0 <= length && length <= LONGEST_REPORT as i64
}

/// Whether a number is that of APPLICATION_ERROR, the only error that a process raises.
pub(crate) fn is_application_error(given: i64) -> bool
    ensures { result ≡ numbers.is_number given (error_number error.ApplicationError) }
{
    given == i64::from(ErrorCode::ApplicationError.number())
}

/// Whether a number says what the other cores do while an error handler is ready: 0 or 1.
pub(crate) fn is_concurrency(given: i64) -> bool
    ensures { result ≡ (numbers.is_number given 0 || numbers.is_number given 1) }
{
    given == 0 || given == 1
}

/// Whether a caller's number is at least this one.
pub(crate) fn is_at_least(least: u64, given: i64) -> bool
    ensures { result ≡ numbers.is_at_least least given }
{
    given >= 0 && least <= given as u64
}

/// Whether a number is below 0.
pub(crate) fn is_negative(number: i64) -> bool
    ensures { result ≡ numbers.is_negative number }
{
    number < 0
}

/// Whether a number is a mode: 0 to 3.
pub(crate) fn is_mode(mode: i64) -> bool
    ensures { result ≡ numbers.is_mode mode }
{
    0 <= mode && mode <= 3
}

/// Whether a mode is NORMAL, which is 3.
pub(crate) fn is_normal_mode(mode: i64) -> bool
    ensures { result ≡ numbers.is_normal_mode mode }
{
    mode == 3
}

/// Whether a mode is WARM_START, which is 2.
pub(crate) fn is_warm_start_mode(mode: i64) -> bool
    ensures { result ≡ numbers.is_warm_start_mode mode }
{
    mode == 2
}

/// Whether a delay or a time-out ends at once: it is 0.
pub(crate) fn is_over(delay: i64) -> bool
    ensures { result ≡ numbers.is_over delay }
{
    delay == 0
}

/// Whether a number is a time-out: -1, which never falls due, or at least 0.
pub(crate) fn is_time_out(time_out: i64) -> bool
    ensures { result ≡ numbers.is_time_out time_out }
{
    time_out >= -1
}

/// Whether a caller's number is this one.
pub(crate) fn is_number(given: i64, number: u64) -> bool
    ensures { result ≡ numbers.is_number given number }
{
    given >= 0 && given as u64 == number
}

/// Whether a caller's number is that of this process.
pub(crate) fn is_process(given: i64, process: ProcId) -> bool
    ensures { result ≡ numbers.is_number given process }
{
    is_number(given, u64::from(process.number()))
}

/// The number of a direction: a source has 0, a destination 1.
pub(crate) fn direction_number(direction: Direction) -> u64
    ensures { result ≡ numbers.direction_number direction }
{
    match direction {
        Direction::Source => 0,
        Direction::Destination => 1,
    }
}

/// The number of a discipline: FIFO has 0, PRIORITY 1.
pub(crate) fn discipline_number(discipline: Discipline) -> u64
    ensures { result ≡ numbers.discipline_number discipline }
{
    match discipline {
        Discipline::Fifo => 0,
        Discipline::Priority => 1,
    }
}

/// Whether a number is a message size: 1 to 8,192 bytes.
pub(crate) fn is_size(size: i64) -> bool
    ensures { result ≡ numbers.is_size size }
{
    1 <= size && size <= LONGEST_MESSAGE as i64
}

/// Whether a number is a capacity: 1 to 1,024 messages.
pub(crate) fn is_capacity(capacity: i64) -> bool
    ensures { result ≡ numbers.is_capacity capacity }
{
    1 <= capacity && capacity <= MOST_MESSAGES as i64
}

/// Whether a number is the maximum of a semaphore: 1 to 32,767.
pub(crate) fn is_maximum(maximum: i64) -> bool
    ensures { result ≡ numbers.is_maximum maximum }
{
    1 <= maximum && maximum <= GREATEST_MAXIMUM as i64
}

/// Whether a value suits a semaphore's maximum: it is from 0 to the maximum.
pub(crate) fn suits_maximum(maximum: i64, value: i64) -> bool
    ensures { result ≡ numbers.suits_maximum maximum value }
{
    0 <= value && value <= maximum
}

/// Whether a number is a discipline: 0 or 1.
pub(crate) fn is_discipline(given: i64) -> bool
    ensures { result ≡ numbers.is_discipline given }
{
    given == 0 || given == 1
}

/// Whether a length is above this size, both in bytes.
pub(crate) fn is_longer(size: u16, length: i64) -> bool
    ensures { result ≡ numbers.is_longer size length }
{
    length > i64::from(size)
}

/// Whether a number is the length of a message: at least 1 byte.
pub(crate) fn is_length(length: i64) -> bool
    ensures { result ≡ numbers.is_length length }
{
    length > 0
}

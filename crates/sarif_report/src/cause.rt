// The causes of a No: their names in a report, and what each demands.

use apex_types::Cause;

/// The name of a cause in the report.
pub fn name_of_cause(cause: Cause) -> &'static str {
    match cause {
        Cause::Names => "Names",
        Cause::Skew => "Skew",
        Cause::Idle => "Idle",
        Cause::Window => "Window",
        Cause::Deadline => "Deadline",
        Cause::Choice => "Choice",
        Cause::Return => "Return",
        Cause::OutsideProfile => "OutsideProfile",
        Cause::Prio => "Prio",
        Cause::Chan => "Chan",
        Cause::Out => "Out",
        Cause::Val => "Val",
        Cause::Data => "Data",
        Cause::Woken => "Woken",
    }
}

/// What a cause demands of a record.
pub fn help_of_cause(cause: Cause) -> &'static str {
    match cause {
        Cause::Names => "A record names only partitions and channels that are configured.",
        Cause::Skew => "A tick leaves its core at most the skew ahead of every other core.",
        Cause::Idle => {
            "Outside every window, a core has no calls, no returns, no dispatches of a process and no ticks while it is occupied."
        }
        Cause::Window => "A call, a return or an error is in a window of its own partition.",
        Cause::Deadline => {
            "A missed deadline is reported before any other record of its core in a window of its partition, and only a missed deadline is reported."
        }
        Cause::Choice => {
            "A dispatch names the choice of its core. At every other record, the occupant is the choice, and a call or a return is the occupant's."
        }
        Cause::Return => {
            "A process returns from its last call before it makes another, and only from that call."
        }
        Cause::OutsideProfile => {
            "The program does not judge this use of the service. That does not mean that the call is unlawful."
        }
        Cause::Prio => "A call gives the current priority of its caller.",
        Cause::Chan => {
            "A call gives the channel of its port; it gives none if an error condition holds or if it uses no port."
        }
        Cause::Out => "The outcome of a call is one that the rules give.",
        Cause::Val => "The values of a call or a return are those that belong to its outcome.",
        Cause::Data => "The message of a call or a return is the one that belongs to its outcome.",
        Cause::Woken => "A record names exactly the processes whose waits it ends.",
    }
}

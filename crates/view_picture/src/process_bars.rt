// What the bars of processes, cores and partitions say.

use crate::look::Look;
use crate::saying::Saying;
use apex_machine::{Mode, Wait};
use apex_types::{PartId, Who};
use run_view::{CoreView, ProcessState, ProcessView};
use std::alloc::{AllocError, Global};
use std::fmt;
use wording::{Numbered, Set};

/// What a ready process has of its core.
#[derive(Clone, Copy, Debug, PartialEq, Eq)]
pub enum Hold {
    /// It is the occupant.
    Runs,
    /// Another process of its partition took its core from it.
    Lost,
    /// It waits until it is chosen.
    Waits,
}

/// What is said of a process, whose name is in quotes after a space, or is empty if it has none.
pub fn process_saying(
    alloc: Global,
    who: &Who,
    name: &str,
    view: &ProcessView,
    hold: Hold,
) -> Result<Saying, AllocError> {
    let look = look_of(view, hold);
    let text = text_of(alloc, view, hold)?;
    let verb = verb_of(look);
    let mut title = format!(in alloc;
        "{}{name} {verb}{text}; its own priority is {}, and its core {}",
        Numbered(*who),
        view.base_priority,
        view.affinity.number()
    )?;
    if let Some(deadline) = view.deadline {
        write!(title, "; its deadline is at time {deadline}")?;
    }
    let short = short_of(alloc, view, hold)?;
    let brief = String::from_str(alloc, brief_of(look))?;
    Ok(Saying {
        look,
        text,
        short,
        brief,
        title,
    })
}

// The state of a process, in words.
fn text_of(alloc: Global, view: &ProcessView, hold: Hold) -> Result<String, AllocError> {
    let (current, base) = (view.current_priority, view.base_priority);
    match view.state {
        ProcessState::Dormant => String::from_str(alloc, "dormant"),
        ProcessState::Ready => match hold {
            Hold::Runs if current > base => format!(in alloc; "runs, raised to {current}"),
            Hold::Runs => format!(in alloc; "runs, priority {current}"),
            Hold::Lost => format!(in alloc; "preempted, priority {current}"),
            Hold::Waits => format!(in alloc; "ready, priority {current}"),
        },
        ProcessState::Waiting(wait) => format!(in alloc; "{}", Waits(wait)),
        ProcessState::Suspended(Wait::Nothing) => String::from_str(alloc, "suspended"),
        ProcessState::Suspended(wait) => format!(in alloc; "suspended, and {}", Waits(wait)),
        ProcessState::Faulted(Wait::Nothing) => String::from_str(alloc, "faulted"),
        ProcessState::Faulted(wait) => format!(in alloc; "faulted, and {}", Waits(wait)),
    }
}

// The state of a process without its priority and without a time, if that is more than its brief text.
fn short_of(alloc: Global, view: &ProcessView, hold: Hold) -> Result<String, AllocError> {
    match view.state {
        ProcessState::Ready if hold == Hold::Lost => String::from_str(alloc, "preempted"),
        ProcessState::Waiting(Wait::At(set, Some(_))) => format!(in alloc; "waits {}", Set(set)),
        ProcessState::Suspended(_) => String::from_str(alloc, "suspended"),
        ProcessState::Ready
        | ProcessState::Waiting(_)
        | ProcessState::Faulted(_)
        | ProcessState::Dormant => Ok(String::new(alloc)),
    }
}

fn look_of(view: &ProcessView, hold: Hold) -> Look {
    match view.state {
        ProcessState::Dormant => Look::Dormant,
        ProcessState::Waiting(_) => Look::Waiting,
        ProcessState::Suspended(_) => Look::Suspended,
        ProcessState::Faulted(_) => Look::Faulted,
        ProcessState::Ready => match hold {
            Hold::Runs if view.current_priority > view.base_priority => Look::Raised,
            Hold::Runs => Look::Running,
            Hold::Lost => Look::Preempted,
            Hold::Waits => Look::Ready,
        },
    }
}

/// What comes between the name of a process and what is said of it.
pub fn verb_of(look: Look) -> &'static str {
    match look {
        Look::Ready | Look::Preempted | Look::Suspended | Look::Faulted | Look::Dormant => "is ",
        Look::Running
        | Look::Raised
        | Look::Waiting
        | Look::Window
        | Look::NoWindow
        | Look::Occupied
        | Look::Idle
        | Look::Normal
        | Look::OtherMode
        | Look::Free
        | Look::Awaited => "",
    }
}

// The text of a look in a bar with little room; empty if the look alone says it.
fn brief_of(look: Look) -> &'static str {
    match look {
        Look::Running => "runs",
        Look::Raised => "raised",
        Look::Ready => "ready",
        Look::Preempted => "ready",
        Look::Waiting => "waits",
        Look::Faulted => "faulted",
        Look::Window
        | Look::NoWindow
        | Look::Occupied
        | Look::Idle
        | Look::Normal
        | Look::OtherMode
        | Look::Suspended
        | Look::Dormant
        | Look::Free
        | Look::Awaited => "",
    }
}

// What a process waits for.
#[derive(Clone, Copy)]
struct Waits(Wait);

impl fmt::Display for Waits {
    fn fmt<W: fmt::Write>(&self, f: &mut fmt::Formatter<W>) -> fmt::Result {
        match self.0 {
            Wait::Nothing => write!(f, "waits for nothing"),
            Wait::NormalMode(_) => write!(f, "waits for NORMAL"),
            Wait::Delay(time) => write!(f, "waits for its delay until time {time}"),
            Wait::FirstRelease(time) => write!(f, "waits for its release at time {time}"),
            Wait::Until(time) => write!(f, "waits until time {time}"),
            Wait::PeriodicRelease(time) => write!(f, "waits for its release at time {time}"),
            Wait::Suspended(None) => write!(f, "suspended itself"),
            Wait::Suspended(Some(time)) => write!(f, "suspended itself until time {time}"),
            Wait::At(set, None) => write!(f, "waits {}", Set(set)),
            Wait::At(set, Some(time)) => write!(f, "waits {} until time {time}", Set(set)),
            Wait::ForLock => write!(f, "waits for the lock"),
        }
    }
}

/// What is said of the occupant of a core.
pub fn occupant_saying(alloc: Global, view: &CoreView) -> Result<Saying, AllocError> {
    let core = view.core.number();
    match &view.occupant {
        None => Ok(Saying {
            look: Look::Idle,
            text: String::from_str(alloc, "idle")?,
            short: String::new(alloc),
            brief: String::new(alloc),
            title: format!(in alloc; "core {core} is idle")?,
        }),
        Some(who) => Ok(Saying {
            look: Look::Occupied,
            text: if view.window == Some(who.part) {
                format!(in alloc; "process {}", who.proc.number())?
            } else {
                format!(in alloc; "{}", Numbered(*who))?
            },
            short: String::new(alloc),
            brief: format!(in alloc; "{}", Short(*who))?,
            title: format!(in alloc; "core {core} runs {}", Numbered(*who))?,
        }),
    }
}

/// A process as partition and process, as a recording names it.
#[derive(Clone, Copy)]
pub struct Short(pub Who);

impl fmt::Display for Short {
    fn fmt<W: fmt::Write>(&self, f: &mut fmt::Formatter<W>) -> fmt::Result {
        write!(f, "{}:{}", self.0.part.number(), self.0.proc.number())
    }
}

/// What is said of the window of a core.
pub fn window_saying(alloc: Global, view: &CoreView) -> Result<Saying, AllocError> {
    let core = view.core.number();
    match &view.window {
        Some(part) => Ok(Saying {
            look: Look::Window,
            text: format!(in alloc; "window of partition {}", part.number())?,
            short: format!(in alloc; "partition {}", part.number())?,
            brief: format!(in alloc; "part {}", part.number())?,
            title: format!(in alloc; "core {core} is in a window of partition {}", part.number())?,
        }),
        None => Ok(Saying {
            look: Look::NoWindow,
            text: String::from_str(alloc, "no window")?,
            short: String::new(alloc),
            brief: String::new(alloc),
            title: format!(in alloc; "core {core} is in no window")?,
        }),
    }
}

/// What is said of the mode of a partition, which may have been restarted in it.
pub fn mode_saying(
    alloc: Global,
    part: PartId,
    mode: Mode,
    is_restart: bool,
) -> Result<Saying, AllocError> {
    let name = mode_name(mode);
    let text = if is_restart {
        format!(in alloc; "restart: {name}")?
    } else {
        String::from_str(alloc, name)?
    };
    Ok(Saying {
        look: match mode {
            Mode::Normal => Look::Normal,
            Mode::Idle | Mode::ColdStart | Mode::WarmStart => Look::OtherMode,
        },
        text,
        short: String::new(alloc),
        brief: String::from_str(alloc, if is_restart { "restart" } else { "" })?,
        title: format!(in alloc; "partition {} is in the mode {name}", part.number())?,
    })
}

/// What is said of a partition that an error restarts. The mode is that of the next look at the partition.
pub fn restart_saying(alloc: Global, part: PartId) -> Result<Saying, AllocError> {
    Ok(Saying {
        look: Look::OtherMode,
        text: String::from_str(alloc, "restart by an error")?,
        short: String::new(alloc),
        brief: String::from_str(alloc, "restart")?,
        title: format!(in alloc; "an error has restarted partition {}", part.number())?,
    })
}

/// The name of a mode.
pub fn mode_name(mode: Mode) -> &'static str {
    match mode {
        Mode::Idle => "IDLE",
        Mode::ColdStart => "COLD_START",
        Mode::WarmStart => "WARM_START",
        Mode::Normal => "NORMAL",
    }
}

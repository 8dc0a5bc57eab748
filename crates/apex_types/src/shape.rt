// What all operations have that may let their caller wait.

ghost use Rattle.std.specs.Prelude.{◌≡◌};
ghost use Rattle.apex_types.specs.Shapes as shapes;

use crate::service::Service;

/// The end of an object or a channel at which processes wait.
#[derive(Clone, Copy, Debug, PartialEq, Eq)]
pub enum End {
    /// Processes wait there to send.
    Senders,
    /// Processes wait there to receive or to read a message, or for a semaphore, an event or a mutex.
    Receivers,
}

/// How the caller of an operation may wait: at which end, and until which time-out in ticks. A time-out of -1 never falls due; with 0 the
/// caller does not wait.
#[derive(Clone, Copy, Debug, PartialEq, Eq)]
pub struct AllowedWait {
    pub end: End,
    pub time_out: i64,
}

/// What an operation is: its service, and how its caller may wait, if it may.
#[derive(Clone, Copy, Debug, PartialEq, Eq)]
pub struct Shape {
    pub service: Service,
    pub wait: Option<AllowedWait>,
}

impl Shape {
    // An operation whose caller may wait.
    pub(crate) fn waiting(service: Service, end: End, time_out: i64) -> Shape
        ensures { result ≡ shapes.waiting service end time_out }
    {
        Shape {
            service,
            wait: Some(AllowedWait { end, time_out }),
        }
    }

    // An operation whose caller never waits.
    pub(crate) fn at_once(service: Service) -> Shape
        ensures { result ≡ shapes.at_once service }
    {
        Shape {
            service,
            wait: None,
        }
    }
}

// The view of a record: the numbers that a user's relation can speak of.

ghost use Rattle.std.specs.Prelude.{◌≡◌};
ghost use Rattle.apex_types.specs.Fields.{field_of};

/// A field of a view.
#[derive(Clone, Copy, Debug, PartialEq, Eq)]
pub enum Field {
    /// The kind of the record: 0 a call, 1 a return, 2 a dispatch, 3 a tick, 4 an arrival, 5 a departure, 6 an error.
    Kind,
    /// The core of the record.
    Core,
    /// The time of that core after the record, in ticks.
    Time,
    /// The partition of the process that calls, returns, is dispatched or has the error.
    Part,
    /// The number of that process in its partition.
    Proc,
    /// The number of the service that is called or returns.
    Service,
    /// The current priority of that process: the claimed one at a call.
    Prio,
    /// The outcome: 0 to 6 for the codes in their order, 7 for a call that waits, 8 for one that does not return and for an error that
    /// restarts its partition.
    Out,
    /// The value that goes with the outcome.
    Val,
    /// At a return: the time since the process's last call, in ticks.
    Elapsed,
    /// How many processes the record names whose waits end.
    Woken,
}

/// The view of a record. A field that the record does not have is -1. `woken` is 0 if the record names no process.
#[derive(Clone, Copy, Debug, PartialEq, Eq)]
pub struct View {
    pub kind: i64,
    pub core: i64,
    pub time: i64,
    pub part: i64,
    pub proc: i64,
    pub service: i64,
    pub prio: i64,
    pub out: i64,
    pub val: i64,
    pub elapsed: i64,
    pub woken: i64,
}

impl View {
    /// The field of this name. Takes no memory.
    pub fn get(&self, field: Field) -> i64
        ensures { result ≡ field_of self.now field }
    {
        match field {
            Field::Kind => self.kind,
            Field::Core => self.core,
            Field::Time => self.time,
            Field::Part => self.part,
            Field::Proc => self.proc,
            Field::Service => self.service,
            Field::Prio => self.prio,
            Field::Out => self.out,
            Field::Val => self.val,
            Field::Elapsed => self.elapsed,
            Field::Woken => self.woken,
        }
    }
}

// The error conditions of the services: one row for each.

ghost use Rattle.std.specs.Prelude.{◌≡◌};
ghost use Rattle.apex_machine.specs.Conditions.{code_of};

use apex_types::Code;

/// An error condition of a service (ARINC 653 Part 1, section 3). Services that have the same condition with the same code share it. If the
/// code differs by service, there are two conditions.
#[derive(Clone, Copy, Debug, PartialEq, Eq)]
pub enum Condition {
    NotCreated,
    TimeOutOutOfRange,
    MayNotWait,
    InNormal,
    NameTaken,
    AllCreated,
    PriorityOutOfRange,
    PeriodOutOfRange,
    PeriodNotMultiple,
    CoreNotOfPartition,
    AlreadyStarted,
    NamesItself,
    AlreadyDormant,
    Dormant,
    Periodic,
    AlreadySuspended,
    NotSuspended,
    InitialisingCaller,
    PeriodicCaller,
    AperiodicCaller,
    DelayOutOfRange,
    ModeOutOfRange,
    AlreadyNormal,
    WarmStartInColdStart,
    SizeOutOfRange,
    CapacityOutOfRange,
    DisciplineOutOfRange,
    MaximumOutOfRange,
    ValueOutOfRange,
    NotAsConfigured,
    EmptyMessage,
    LongerThanObject,
    OwnsAnother,
    AboveCeiling,
    NotOwner,
    LongerThanPort,
    NotSource,
    NotDestination,
    NoSuchName,
    TimeCapacityOutOfRange,
    TimeCapacityAbovePeriod,
    DelayNotBelowPeriod,
    NoSuchProcess,
    ProcessNotOwner,
    LengthOutOfRange,
    HandlerCreated,
    NotNormal,
    NotForInitialising,
    LevelIsGreatest,
    OwnsMutex,
    NotLockOwner,
    OwnsLock,
    ProcessOwnsLock,
    BudgetOutOfRange,
    BudgetAboveRelease,
    ErrorNotOfApplication,
    NotHandler,
    NoErrorListed,
    NoHandler,
    ConcurrencyOutOfRange,
    HandlerCoreNotOfPartition,
}

// What is known about a condition.
#[derive(Clone, Copy)]
struct ConditionRow {
    condition: Condition,
    code: Code,
    text: &'static str,
}

// A row: the condition, its code, and the words for what is true when it holds.
macro_rules! row {
    ($condition:ident => $code:ident, $text:literal) => {
        ConditionRow {
            condition: Condition::$condition,
            code: Code::$code,
            text: $text,
        }
    };
}

// The conditions, in the order of the enum.
const CONDITIONS: [ConditionRow; 61] = [
    row!(NotCreated => InvalidParam, "nothing of this kind has this number"),
    row!(TimeOutOutOfRange => InvalidParam, "the time-out is below -1"),
    row!(MayNotWait => InvalidMode, "the caller is the initialising process or the owner of a mutex or the lock, which may not wait"),
    row!(InNormal => InvalidMode, "the mode is NORMAL"),
    row!(NameTaken => NoAction, "the name is taken"),
    row!(AllCreated => InvalidConfig, "all that are configured have been created"),
    row!(PriorityOutOfRange => InvalidParam, "the priority is not from 1 to 239"),
    row!(PeriodOutOfRange => InvalidParam, "the period is neither -1 nor above 0"),
    row!(PeriodNotMultiple => InvalidConfig, "the period is not a multiple of the partition's period"),
    row!(CoreNotOfPartition => InvalidConfig, "the core is not one of the partition's"),
    row!(AlreadyStarted => NoAction, "the process is not dormant"),
    row!(NamesItself => InvalidParam, "the number is the caller's own"),
    row!(AlreadyDormant => NoAction, "the process is already dormant"),
    row!(Dormant => InvalidMode, "the process is dormant"),
    row!(Periodic => InvalidMode, "the process is periodic"),
    row!(AlreadySuspended => NoAction, "the process is already suspended"),
    row!(NotSuspended => NoAction, "the process is not suspended"),
    row!(InitialisingCaller => InvalidMode, "the caller is the initialising process"),
    row!(PeriodicCaller => InvalidMode, "the caller is periodic"),
    row!(AperiodicCaller => InvalidMode, "the caller is aperiodic"),
    row!(DelayOutOfRange => InvalidParam, "the delay is below 0"),
    row!(ModeOutOfRange => InvalidParam, "the mode is not from 0 to 3"),
    row!(AlreadyNormal => NoAction, "the mode is already NORMAL"),
    row!(WarmStartInColdStart => InvalidMode, "the mode is COLD_START, from which WARM_START cannot be entered"),
    row!(SizeOutOfRange => InvalidParam, "the size is not from 1 to 8,192"),
    row!(CapacityOutOfRange => InvalidParam, "the number of messages is not from 1 to 1,024"),
    row!(DisciplineOutOfRange => InvalidParam, "the discipline is neither 0 nor 1"),
    row!(MaximumOutOfRange => InvalidParam, "the maximum is not from 1 to 32,767"),
    row!(ValueOutOfRange => InvalidParam, "the value is below 0 or above the maximum"),
    row!(NotAsConfigured => InvalidConfig, "no port of this name has such a configuration"),
    row!(EmptyMessage => InvalidParam, "the length is below 1"),
    row!(LongerThanObject => InvalidParam, "the length is above the size of the object"),
    row!(OwnsAnother => InvalidMode, "the caller owns another mutex"),
    row!(AboveCeiling => InvalidMode, "the caller's current priority is above the mutex's"),
    row!(NotOwner => InvalidMode, "the caller is not the owner"),
    row!(LongerThanPort => InvalidConfig, "the length is above the size of the port"),
    row!(NotSource => InvalidMode, "the port is not a source"),
    row!(NotDestination => InvalidMode, "the port is not a destination"),
    row!(NoSuchName => InvalidConfig, "nothing of this kind has this name"),
    row!(TimeCapacityOutOfRange => InvalidParam, "the time capacity is neither -1 nor above 0"),
    row!(TimeCapacityAbovePeriod => InvalidParam, "the time capacity is above the period"),
    row!(DelayNotBelowPeriod => InvalidParam, "the process is periodic, and the delay is not below its period"),
    row!(NoSuchProcess => InvalidParam, "no process has this number"),
    row!(ProcessNotOwner => InvalidMode, "the process is not the owner"),
    row!(LengthOutOfRange => InvalidParam, "the length is not from 0 to 128"),
    row!(HandlerCreated => NoAction, "the error handler is already created"),
    row!(NotNormal => NoAction, "the mode is not NORMAL"),
    row!(NotForInitialising => NoAction, "the caller is the initialising process, for which nothing is done"),
    row!(LevelIsGreatest => InvalidConfig, "the caller owns the lock, and its level is 16"),
    row!(OwnsMutex => InvalidMode, "the caller owns a mutex"),
    row!(NotLockOwner => NoAction, "the caller does not own the lock"),
    row!(OwnsLock => InvalidMode, "the caller owns the lock"),
    row!(ProcessOwnsLock => InvalidMode, "the process owns the lock"),
    row!(BudgetOutOfRange => InvalidParam, "the budget is neither -1 nor above 0"),
    row!(BudgetAboveRelease => InvalidMode, "the caller is periodic, and the budget does not end by its next release"),
    row!(ErrorNotOfApplication => InvalidParam, "the error is not APPLICATION_ERROR, which is 1"),
    row!(NotHandler => InvalidConfig, "the caller is not the error handler"),
    row!(NoErrorListed => NoAction, "no error is left to take"),
    row!(NoHandler => InvalidConfig, "no error handler is created"),
    row!(ConcurrencyOutOfRange => InvalidParam, "the concurrency is neither 0 nor 1"),
    row!(HandlerCoreNotOfPartition => InvalidParam, "the handler's core is not one of the partition's"),
];

impl Condition {
    // The row of the condition in the table.
    fn row(self) -> &'static ConditionRow
        ensures condition { result.now.condition ≡ self }
        ensures code { result.now.code ≡ code_of self }
    {
        &CONDITIONS[self as usize]
    }

    /// The return code of a call that is refused for this condition.
    pub fn code(self) -> Code
        ensures { result ≡ code_of self }
    {
        self.row().code
    }

    /// What is true when the condition holds, in words.
    pub fn text(self) -> &'static str {
        self.row().text
    }
}

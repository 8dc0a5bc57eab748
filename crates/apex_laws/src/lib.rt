//! The laws on the definitions: the pieces that judge a recording side by side make up the machine, and what the machine does is what plain
//! sentences say.
//!
//! Each law is the contract of a function without code.
//!
//! There are three kinds of law: laws that tie the pieces to the machine, laws that state each rule in sentences, and laws about a single
//! partition, for the code that holds it. A law has no code, so it is proved over the definitions alone.
#![tactic(auto)]

ghost use Rattle.apex_laws.specs.Laws.{AtMostOneNextState, ChoiceIsTheSentence, KindsStay, OneFirstRefusal, OneRun, PiecesCompose, PiecesFollow, RunOfEach, StaysInOrder, StaysTied, ViewIsOfTheRun, WhoWaitsHasEntry};
ghost use Rattle.apex_laws.specs.PartLaws.{DueLeave, ForeignCallsLeaveSets, LetsGoAsAnswered, OnlyDoneLetsGo, OtherCallsLeaveLock, OtherSetsStay, PartStaysSound, RefusedLeavesLock, RunningIsInNoSet};
ghost use Rattle.apex_laws.specs.PartBounds.{PartStaysBounded, ReleasesFit};
ghost use Rattle.apex_laws.specs.PartObjects.{EachLeavesItsSet, OneObjectChanges, RefusedLeavesObjects, StoppedLeaves};
ghost use Rattle.apex_laws.specs.PartSets.{EachNamedLeaves, LeavesEverySet, NamedLeave};
ghost use Rattle.apex_laws.specs.JoinLaws.{FindingsJoin, FoundIsRefused, NothingFoundIsARun, RunsJoin};
ghost use Rattle.apex_laws.specs.ObjectLaws.{BlackboardIsTheSentence, ChannelIsTheSentence, CrossingIsTheSentence, EventIsTheSentence, FirstIsTheSentence, LockIsTheSentence, MutexIsTheSentence, ObjectCallIsTheSentence, OrderIsApart, QueueIsTheSentence, SamplingIsTheSentence, SemaphoreIsTheSentence};
ghost use Rattle.apex_laws.specs.RecordLaws.{ArrivalIsTheSentence, CallIsTheSentence, DepartureIsTheSentence, DispatchIsTheSentence, ErrorIsTheSentence, RefusalIsTheSentence, RestartIsTheSentence, ReturnIsTheSentence, SetIsTheSentence, TickIsTheSentence};
ghost use Rattle.apex_laws.specs.ConditionFacts.{ConditionFacts};
ghost use Rattle.apex_laws.specs.ConditionLaws.{CodesAreTheSentences, ConditionsAreTheSentences};
ghost use Rattle.apex_laws.specs.NumberLaws.{NamesAreFound, NewNumberIsTheSentence, ObjectsAreFound, OwnedIsFound, ProcessesAreFound};
ghost use Rattle.apex_laws.specs.ProfileLaws.{ProfileIsTheSentence};
ghost use Rattle.apex_laws.specs.WaitLaws.{EnteringIsTheSentence, EnteringLockIsTheSentence, LockIsAwaitedForever, TimeOutIsTheSentence};
ghost use Rattle.apex_laws.specs.ViewLaws.{ViewsAreOfTheRun};
ghost use Rattle.apex_laws.specs.ViewNumbers.{NumbersTell};
ghost use Rattle.apex_laws.specs.WorkedRun.{WorkedRun};
ghost use Rattle.apex_laws.specs.WorkedFacts.{LawfulFacts, WorkedFacts};
ghost use Rattle.apex_laws.specs.ProcessLaws.{AnswerIsTheSentence, CallerIsTheSentence, CreationIsTheSentence, DeadlineIsTheSentence, DueIsTheSentence, MissedIsTheSentence, ReleaseIsTheSentence, SettingIsTheSentence, StoppingIsTheSentence, WakingIsTheSentence};

/// A record leads from a state to at most one next state.
pub fn at_most_one_next_state()
    ensures { AtMostOneNextState }
{}

/// If each piece that the next record touches makes its local step, the machine has a step to the state with the parts that the pieces
/// reached, and the parts of the other pieces stay.
pub fn pieces_compose()
    ensures { PiecesCompose }
{}

/// If the machine has a step, each piece that the record touches makes its local step.
pub fn pieces_follow()
    ensures { PiecesFollow }
{}

/// The cold state is tied: numbers are distinct, a process with an entry in a waiting set waits in it, ports are at their ends. A step
/// keeps a state tied, and so does a run.
pub fn stays_tied()
    ensures { StaysTied }
{}

/// The waiting sets of the cold state are in order: places rise, no process has two entries in a set, all places are below the next one. A
/// step from a tied state keeps them in order, and so does a run.
pub fn stays_in_order()
    ensures { StaysInOrder }
{}

/// In every state that a run reaches, each process that waits in a set has an entry in it. Together with the tie: exactly the processes
/// that wait in a set have an entry in it.
pub fn who_waits_has_entry()
    ensures { WhoWaitsHasEntry }
{}

/// The channels of the cold state hold what their kinds do: a queuing channel messages for its receivers, a sampling channel the last message
/// for its readers. A step keeps this, and so does a run.
pub fn kinds_stay()
    ensures { KindsStay }
{}

/// A partition's own demands alone keep its waiting sets sound: numbers are distinct, exactly the processes of the partition that wait in a
/// set of one of its objects have an entry in it, and every set is in order.
pub fn part_stays_sound()
    ensures { PartStaysSound }
{}

/// A partition's own demands keep its numbers bounded: before each place no mutex was acquired more often, and no process's last release is
/// later, than there were records; and each period is one that a caller can give.
pub fn part_stays_bounded()
    ensures { PartStaysBounded }
{}

/// The next release of each process of a bounded partition is a number of 64 bits.
pub fn releases_fit()
    ensures { ReleasesFit }
{}

/// A process that runs on a core of a sound partition has no entry in any of the partition's waiting sets, and all places in them are below
/// the next one.
pub fn running_is_in_no_set()
    ensures { RunningIsInNoSet }
{}

/// A call of a sound partition that stops no process leaves unchanged every waiting set of the partition that is not one of the object that
/// it names.
pub fn other_sets_stay()
    ensures { OtherSetsStay }
{}

/// A call of a sound partition that stops no process changes the one object that it names, with its waiting sets, or adds the one that it
/// creates. It leaves all other objects and ports of the partition unchanged.
pub fn one_object_changes()
    ensures { OneObjectChanges }
{}

/// A call of a sound partition that does not answer NO_ERROR and is no restart ends no wait in it: a caller that waits enters its set at
/// the end, and every other set stays.
pub fn only_done_lets_go()
    ensures { OnlyDoneLetsGo }
{}

/// A call of a sound partition that answers NO_ERROR, is no STOP and goes through no channel takes the processes that its service's answer
/// names out of the partition's waiting sets, and no process enters.
pub fn lets_go_as_answered()
    ensures { LetsGoAsAnswered }
{}

/// A call of a sound partition that is not done leaves all objects, waiting sets and ports of the partition unchanged.
pub fn refused_leaves_objects()
    ensures { RefusedLeavesObjects }
{}

/// An own call leaves the lock unchanged, unless it is one of the lock, a stop or a restart.
pub fn other_calls_leave_lock()
    ensures { OtherCallsLeaveLock }
{}

/// An own call that is not done leaves the lock unchanged.
pub fn refused_leaves_lock()
    ensures { RefusedLeavesLock }
{}

/// A STOP that is done takes its target out of the one waiting set that its wait names: no other process leaves, none enters, and all other
/// sets, objects and ports of the partition stay.
pub fn stopped_leaves()
    ensures { StoppedLeaves }
{}

/// A tick leaves a waiting set of a sound partition unchanged if no process that the tick names waits in it.
pub fn due_leave()
    ensures { DueLeave }
{}

/// At a tick each process of a sound partition that is named leaves the waiting set that its wait names, and all other sets,
/// objects and ports stay.
pub fn each_leaves_its_set()
    ensures { EachLeavesItsSet }
{}

/// A call that is no STOP and no restart takes the processes that it names out of a waiting set, and no others; its caller enters at the
/// end, if it waits in that set.
pub fn named_leave()
    ensures { NamedLeave }
{}

/// A process of a sound partition that leaves the waiting set that its wait names has left every set of the partition.
pub fn leaves_every_set()
    ensures { LeavesEverySet }
{}

/// A tick changes the waiting sets of a sound partition as if the processes that it names left one after another, each the set that its
/// wait names.
pub fn each_named_leaves()
    ensures { EachNamedLeaves }
{}

/// Calls of other partitions, arrivals, departures, returns, dispatches and errors that do not restart it leave a partition's objects,
/// waiting sets and ports unchanged.
pub fn foreign_calls_leave_sets()
    ensures { ForeignCallsLeaveSets }
{}

/// Each entry of a waiting set that is in order has a place of its own.
pub fn order_is_apart()
    ensures { OrderIsApart }
{}

/// Runs of all pieces over the records that touch them are one run of the machine, to the parts that the pieces reached.
pub fn one_run()
    ensures { OneRun }
{}

/// A run of the machine is a run of each piece.
pub fn run_of_each()
    ensures { RunOfEach }
{}

/// A run over one list of records followed by another is a run over the first and then, from where that ends, a run over the second.
pub fn runs_join()
    ensures { RunsJoin }
{}

/// What a piece finds in one list of records followed by another is what it finds in the first; if it finds nothing there, it is what the
/// piece finds in the second, from where its run over the first ends.
pub fn findings_join()
    ensures { FindingsJoin }
{}

/// A piece finds nothing exactly if it has a run over all the records.
pub fn nothing_found_is_a_run()
    ensures { NothingFoundIsARun }
{}

/// A piece finds a refusal exactly if it runs up to a record and rejects that one, whatever comes after it.
pub fn found_is_refused()
    ensures { FoundIsRefused }
{}

/// A piece has at most one first refusal.
pub fn one_first_refusal()
    ensures { OneFirstRefusal }
{}

/// The piece that judges a record gives the view that the record has in the machine's run, and no other piece gives one.
pub fn view_is_of_the_run()
    ensures { ViewIsOfTheRun }
{}

/// Over a whole recording, the views that the pieces give from their parts are the views of the machine's run, record by record.
pub fn views_are_of_the_run()
    ensures { ViewsAreOfTheRun }
{}

/// No two services and no two outcomes have the same number in a view: each number is a place in a list. A view's kind is its record's.
pub fn view_numbers_tell()
    ensures { NumbersTell }
{}

/// The choice is the error handler if it is ready; else no process if the cores stand still for it; else the owner of the lock if it is
/// ready; else the ready process that no other goes before, or none if no process is ready.
pub fn choice_is_the_sentence()
    ensures { ChoiceIsTheSentence }
{}

/// The first of a waiting set is the entry that no other precedes, and there is none only in an empty set. The first ones, up to a number, are
/// each the first of those that are left.
pub fn first_is_the_sentence()
    ensures { FirstIsTheSentence }
{}

/// Sending to and receiving from a buffer or a queuing channel, and clearing a channel, is what the sentences say.
pub fn queue_is_the_sentence()
    ensures { QueueIsTheSentence }
{}

/// Displaying, reading and clearing a blackboard is what the sentences say.
pub fn blackboard_is_the_sentence()
    ensures { BlackboardIsTheSentence }
{}

/// Waiting for and signalling a semaphore is what the sentences say.
pub fn semaphore_is_the_sentence()
    ensures { SemaphoreIsTheSentence }
{}

/// Setting, resetting and waiting for an event is what the sentences say.
pub fn event_is_the_sentence()
    ensures { EventIsTheSentence }
{}

/// Acquiring, releasing and resetting a mutex is what the sentences say.
pub fn mutex_is_the_sentence()
    ensures { MutexIsTheSentence }
{}

/// The lock of a partition: its operations, and a stop of its owner.
pub fn lock_is_the_sentence()
    ensures { LockIsTheSentence }
{}

/// Writing and reading a sampling channel is what the sentences say.
pub fn sampling_is_the_sentence()
    ensures { SamplingIsTheSentence }
{}

/// The use of a channel of its kind is what the sentences say.
pub fn channel_is_the_sentence()
    ensures { ChannelIsTheSentence }
{}

/// An arrival at a channel and a departure from one are what the sentences say.
pub fn crossing_is_the_sentence()
    ensures { CrossingIsTheSentence }
{}

/// The services of objects use and change exactly the object that they name, and creations add exactly one, as the sentences
/// say.
pub fn object_call_is_the_sentence()
    ensures { ObjectCallIsTheSentence }
{}

/// What a service sets in the processes of its partition is what the sentences say: affinity, start, suspension, resumption,
/// priority, the entry into NORMAL, the priorities of the owners of mutexes, and who is faulted.
pub fn setting_is_the_sentence()
    ensures { SettingIsTheSentence }
{}

/// A process falls due on a core if the core is its own and the core's time has reached its due time.
pub fn due_is_the_sentence()
    ensures { DueIsTheSentence }
{}

/// A wait that falls due ends as the sentences say.
pub fn release_is_the_sentence()
    ensures { ReleaseIsTheSentence }
{}

/// A wait that a call, an arrival or a departure ends ends as the sentences say.
pub fn waking_is_the_sentence()
    ensures { WakingIsTheSentence }
{}

/// A process that is stopped is dormant, and nothing of its wait, its suspension or its outcome is left.
pub fn stopping_is_the_sentence()
    ensures { StoppingIsTheSentence }
{}

/// A caller waits, is stopped, or has its outcome due, as the sentences say; an error handler that has more errors to take stays ready.
pub fn caller_is_the_sentence()
    ensures { CallerIsTheSentence }
{}

/// A time capacity or a budget sets the deadline that the sentences say.
pub fn deadline_is_the_sentence()
    ensures { DeadlineIsTheSentence }
{}

/// A process has missed its deadline on a core if the core is its own and the core's time has reached the deadline. A core has missed
/// deadlines in a table exactly if one of its processes there has.
pub fn missed_is_the_sentence()
    ensures { MissedIsTheSentence }
{}

/// A created process is dormant, on the partition's first core.
pub fn creation_is_the_sentence()
    ensures { CreationIsTheSentence }
{}

/// What the services of process management, time and health monitoring give their callers is what the sentences say.
pub fn answer_is_the_sentence()
    ensures { AnswerIsTheSentence }
{}

/// A dispatch gives its core to the process that it names, or to none, and changes nothing else.
pub fn dispatch_is_the_sentence()
    ensures { DispatchIsTheSentence }
{}

/// A tick releases exactly the processes that fall due at its core's new time, which leave their waiting sets; it adds one to
/// that time, and changes nothing else.
pub fn tick_is_the_sentence()
    ensures { TickIsTheSentence }
{}

/// A return clears what was due to the returner, and changes nothing else.
pub fn return_is_the_sentence()
    ensures { ReturnIsTheSentence }
{}

/// The report of an error is of a process that can have it. If no handler takes the error and the configuration says so, it restarts the
/// partition. Otherwise it changes that process and lists the error as the sentences say, and it changes nothing else.
pub fn error_is_the_sentence()
    ensures { ErrorIsTheSentence }
{}

/// A call with an error condition makes the code of one of them due to its caller, notes the time of the call, and changes
/// nothing else.
pub fn refusal_is_the_sentence()
    ensures { RefusalIsTheSentence }
{}

/// A call keeps the processes in a waiting set whose waits it does not end, and puts a caller that waits in the set at its end.
pub fn set_is_the_sentence()
    ensures { SetIsTheSentence }
{}

/// A call that restarts no partition changes its caller, the processes of its partition, the processes that it names elsewhere, the objects
/// of its partition, the channel through which it goes and the waiting sets as the sentences say. It changes nothing else.
pub fn call_is_the_sentence()
    ensures { CallIsTheSentence }
{}

/// An arrival wakes the processes that it names with its message, changes its channel as the sentences say, takes those processes out of the
/// channel's waiting sets, and changes nothing else.
pub fn arrival_is_the_sentence()
    ensures { ArrivalIsTheSentence }
{}

/// A departure wakes the processes that it names, takes the oldest message out of its channel as the sentences say, takes those processes out
/// of the channel's waiting sets, and changes nothing else.
pub fn departure_is_the_sentence()
    ensures { DepartureIsTheSentence }
{}

/// A call that restarts its partition starts the partition anew in the given mode, takes its processes out of the waiting sets of all
/// channels, and changes nothing else. SET_PARTITION_MODE to IDLE, COLD_START or WARM_START that does not return is such a call, and so is
/// RAISE_APPLICATION_ERROR that does not return; no other is.
pub fn restart_is_the_sentence()
    ensures { RestartIsTheSentence }
{}

/// What the definitions make of small recordings is what they are known to do.
pub fn worked_facts()
    ensures { WorkedFacts }
{}

/// Calls that hand on a mutex, send, wait for a full channel and read a sampled message are lawful, so steps of them exist.
pub fn lawful_facts()
    ensures { LawfulFacts }
{}

/// For calls of every kind in a small partition, the error conditions that hold, and the calls that are outside the profile, are as the
/// services state.
pub fn condition_facts()
    ensures { ConditionFacts }
{}

/// A condition is among those of a call exactly if it is one of its service and holds.
pub fn conditions_are_the_sentences()
    ensures { ConditionsAreTheSentences }
{}

/// A code is one of a call exactly if an error condition of its service with that code holds.
pub fn codes_are_the_sentences()
    ensures { CodesAreTheSentences }
{}

/// A call is outside the profile exactly if a sentence puts it there.
pub fn profile_is_the_sentence()
    ensures { ProfileIsTheSentence }
{}

/// In a table of distinct numbers, the process found under a number is the one that has it.
pub fn processes_are_found()
    ensures { ProcessesAreFound }
{}

/// An object found under a number has that number, and none is found if no object has it.
pub fn objects_are_found()
    ensures { ObjectsAreFound }
{}

/// An object found under a name has the name, and none is found if no object has it.
pub fn names_are_found()
    ensures { NamesAreFound }
{}

/// The number reported of the mutex that a process owns is that of a mutex that it owns, and -2 exactly if it owns none.
pub fn owned_is_found()
    ensures { OwnedIsFound }
{}

/// A new number is from 1 to 2,147,483,647, and nothing of its kind has it.
pub fn new_number_is_the_sentence()
    ensures { NewNumberIsTheSentence }
{}

/// A call enters a waiting set exactly if it waits, and the set is its service's.
pub fn entering_is_the_sentence()
    ensures { EnteringIsTheSentence }
{}

/// A call enters the waiting set of the lock exactly if it waits, and is one of the lock.
pub fn entering_lock_is_the_sentence()
    ensures { EnteringLockIsTheSentence }
{}

/// A process that waits for the lock never falls due.
pub fn lock_is_awaited_forever()
    ensures { LockIsAwaitedForever }
{}

/// A wait in a set falls due from the end of its time-out on, and then returns TIMED_OUT; with a time-out of -1 it never falls due.
pub fn time_out_is_the_sentence()
    ensures { TimeOutIsTheSentence }
{}

/// A message through a queuing channel: its 23 records are a run from the cold state, and with another message at the return they are not.
pub fn worked_run()
    ensures { WorkedRun }
{}

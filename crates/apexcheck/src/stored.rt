// The run that is stored in the program, which is checked if the command line has no words.

ghost use Rattle.std.specs.Prelude.{[], ◌∷◌, Some, false};
ghost use Rattle.user_rules.specs.Remembered.{required_by};
ghost use Rattle.report.specs.Answers.{Answers, given_by};

use check_request::USUAL_DEPTH;
use report::{CheckFault, Open, Settings, Verdict, check};
use std::alloc::Global;
use std::sync::Wait;
use std::thread::Threads;

// One core, which belongs to one partition all the time.
const CONFIG: &[u8] = b"cores = 1
frame = 10
skew = 1

[[partition]]
number = 0
period = 10
cores = [0]
processes = 4
buffers = 2
blackboards = 1
semaphores = 1
events = 1
mutexes = 2

[[window]]
core = 0
partition = 0
start = 0
length = 10
";

// Process 1 is created and started, waits for two ticks and returns.
const RECORDING: &[u8] = b"0,disp,0,0,,,,,,,,,,,,
1,call,0,0,CREATE_PROCESS,10,-1,,P1,,0,NO_ERROR,1,,,
2,ret,0,0,CREATE_PROCESS,,,,,,,NO_ERROR,1,,,
3,call,0,0,START,1,,,,,0,NO_ERROR,,,,
4,ret,0,0,START,,,,,,,NO_ERROR,,,,
5,call,0,0,SET_PARTITION_MODE,3,,,,,0,none,,,,
6,disp,0,1,,,,,,,,,,,,
7,call,0,1,TIMED_WAIT,2,,,,,10,wait,,,,
8,disp,,,,,,,,,,,,,,
9,tick,,,,,,,,,,,,,,
10,tick,,,,,,,,,,,,,,0:1
11,disp,0,1,,,,,,,,,,,,
12,ret,0,1,TIMED_WAIT,,,,,,,NO_ERROR,,,,
";

// The records of core 0 in their own order.
const ORDER: &[u8] = b"0,0\n0,1\n0,2\n0,3\n0,4\n0,5\n0,6\n0,7\n0,8\n0,9\n0,10\n0,11\n0,12\n";

const SETTINGS: Settings = Settings {
    workers: 1,
    depth: USUAL_DEPTH,
};

/// Checks the stored run, with one worker, as if no `--depth` were given. Memory if memory was refused.
pub fn check_stored<T>(rt: T, alloc: Global) -> Result<Verdict, CheckFault>
where
    T: Threads + Wait + Sync + Copy + Send + 'static,
    ensures { Answers (given_by CONFIG.now (Some RECORDING.now ∷ []) false (Some ORDER.now) false) (required_by [] []) SETTINGS result }
{
    let Ok(readers) = vec![in alloc; RECORDING] else {
        return Err(CheckFault::Memory);
    };
    check(rt, alloc, CONFIG, readers, ORDER, &[], &[], SETTINGS, &Open)
}

// The runs that tests read: a wait of three ticks on one core, a run that requests the time many times, and a message from one
// partition to another.

use std::alloc::{AllocError, Global};

/// One core, which belongs to partition 0 all the time.
pub const CONFIG: &[u8] = b"\
cores = 1
frame = 10
skew = 1
partition = [{ number = 0, period = 10, cores = [0], processes = 4, buffers = 2, blackboards = 1, semaphores = 1, events = 1, mutexes = 2 }]
window = [{ core = 0, partition = 0, start = 0, length = 10 }]
";

// The rows of a core up to the start of process 1 of its own partition, and then these.
macro_rules! started {
    ($core:literal, $($rows:literal),*) => {
        concat!(
            "0,disp,", $core, ",0,,,,,,,,,,,,\n",
            "1,call,", $core, ",0,CREATE_PROCESS,10,-1,,P1,,0,NO_ERROR,1,,,\n",
            "2,ret,", $core, ",0,CREATE_PROCESS,,,,,,,NO_ERROR,1,,,\n",
            "3,call,", $core, ",0,START,1,,,,,0,NO_ERROR,,,,\n",
            "4,ret,", $core, ",0,START,,,,,,,NO_ERROR,,,,\n",
            $($rows),*
        )
    };
}

// Process 1 is created and started, waits for three ticks, the third of which wakes these processes, and returns.
macro_rules! waited {
    ($woken:literal) => {
        started!(
            0,
            "\
5,call,0,0,SET_PARTITION_MODE,3,,,,,0,none,,,,
6,disp,0,1,,,,,,,,,,,,
7,call,0,1,TIMED_WAIT,3,,,,,10,wait,,,,
8,disp,,,,,,,,,,,,,,
9,tick,,,,,,,,,,,,,,
10,tick,,,,,,,,,,,,,,
11,tick,,,,,,,,,,,,,,",
            $woken,
            "
12,disp,0,1,,,,,,,,,,,,
13,ret,0,1,TIMED_WAIT,,,,,,,NO_ERROR,,,,
"
        )
    };
}

/// Process 1 waits for three ticks, and goes on after them.
pub const RECORDING: &str = waited!("0:1");

/// The same, but its third tick wakes no process.
pub const MISSED: &str = waited!("");

/// The records of either in their own order.
pub const ORDER: &[u8] =
    b"0,0\n0,1\n0,2\n0,3\n0,4\n0,5\n0,6\n0,7\n0,8\n0,9\n0,10\n0,11\n0,12\n0,13\n";

/// Two cores, each of a partition of its own, a queuing and a sampling channel: five pieces.
pub const MODULE: &[u8] = b"\
cores = 2
frame = 10
skew = 6
partition = [
    { number = 0, period = 10, cores = [0], processes = 4, buffers = 2, blackboards = 1, semaphores = 1, events = 1, mutexes = 2 },
    { number = 1, period = 10, cores = [1], processes = 4, buffers = 2, blackboards = 1, semaphores = 1, events = 1, mutexes = 2 },
]
window = [
    { core = 0, partition = 0, start = 0, length = 10 },
    { core = 1, partition = 1, start = 0, length = 10 },
]
[[queuing]]
channel = 0
size = 4
capacity = 1
source = { partition = 0, port = \"Q\" }
source_discipline = \"FIFO\"
destination = { partition = 1, port = \"Q\" }
destination_discipline = \"FIFO\"
[[sampling]]
channel = 1
size = 4
refresh = 5
source = { partition = 0, port = \"S\" }
destinations = [{ partition = 1, port = \"S\" }]
";

/// Process 1 of partition 0 sends a message, for which process 1 of partition 1 waits.
pub const SENDER: &str = started!(
    0,
    "\
5,call,0,0,CREATE_QUEUING_PORT,4,1,0,Q,,0,NO_ERROR,1,,,
6,ret,0,0,CREATE_QUEUING_PORT,,,,,,,NO_ERROR,1,,,
7,call,0,0,SET_PARTITION_MODE,3,,,,,0,none,,,,
8,disp,0,1,,,,,,,,,,,,
9,call,0,1,SEND_QUEUING_MESSAGE,1,2,0,,cafe,10,NO_ERROR,,,0,1:1
"
);

/// Process 1 of partition 1 waits for the message, and returns with it.
pub const RECEIVER: &str = started!(
    1,
    "\
5,call,1,0,CREATE_QUEUING_PORT,4,1,1,Q,,0,NO_ERROR,1,,,
6,ret,1,0,CREATE_QUEUING_PORT,,,,,,,NO_ERROR,1,,,
7,call,1,0,SET_PARTITION_MODE,3,,,,,0,none,,,,
8,disp,1,1,,,,,,,,,,,,
9,call,1,1,RECEIVE_QUEUING_MESSAGE,1,3,,,,10,wait,,,0,
10,disp,,,,,,,,,,,,,,
11,disp,1,1,,,,,,,,,,,,
12,ret,1,1,RECEIVE_QUEUING_MESSAGE,,,,,,,NO_ERROR,,cafe,,
"
);

/// The records of both cores, in an order in which they are lawful.
pub const BOTH: &[u8] =
    b"0,0\n0,1\n0,2\n0,3\n0,4\n0,5\n0,6\n0,7\n1,0\n1,1\n1,2\n1,3\n1,4\n1,5\n1,6\n1,7\n1,8\n1,9\n1,10\n0,8\n0,9\n1,11\n1,12\n";

/// The recording of a partition that begins as `RECORDING` does up to its wait, and then requests the time this many times.
pub fn asking(alloc: Global, times: u16) -> Result<Vec<u8>, AllocError> {
    let mut text = Vec::new(alloc);
    for line in RECORDING.lines().take(7) {
        text.extend_from_slice(line.as_bytes())?;
        text.push(b'\n')?;
    }
    for turn in 0..times {
        let call = 7 + 2 * (turn as u32);
        let back = call + 1;
        let rows = format!(in alloc;
            "{call},call,0,1,GET_TIME,,,,,,10,NO_ERROR,0,,,\n{back},ret,0,1,GET_TIME,,,,,,,NO_ERROR,0,,,\n"
        )?;
        text.extend_from_slice(rows.as_bytes())?;
    }
    Ok(text)
}

/// The certificate of this many records of core 0.
pub fn in_turn(alloc: Global, records: u32) -> Result<Vec<u8>, AllocError> {
    let mut text = Vec::new(alloc);
    for seq in 0..records {
        let row = format!(in alloc; "0,{seq}\n")?;
        text.extend_from_slice(row.as_bytes())?;
    }
    Ok(text)
}

// The files of a run that are still being read when the answer is known.

ghost use Rattle.std.specs.Prelude.{◌≡◌};

use crate::explained::tell;
use answer_words::{InputNames, words_of_awaited};
use csv_rows::TextSource;
use std::alloc::{AllocError, Global};
use std::fs::Files;
use std::sync::atomic::{AtomicBool, Ordering};
use std::sync::{Arc, Condvar, Mutex, Wait};
use std::thread::{Builder, JoinHandle, Threads};
use std::time::{Clock, Duration};
use std::{fs, io};
use wording::Look;

/// How many milliseconds a read may continue after the answer is known before it is reported.
const PATIENCE: u64 = 1_000;

/// The stack size, in bytes, of the thread that reports it.
const STACK: usize = 262_144;

// How far a check has come.
#[derive(Clone, Copy, Debug, PartialEq, Eq)]
enum Stage {
    Judging,
    Known,
    Over,
}

/// The certificate and the recordings of a run, with those that are being read, and how far the check has come.
#[derive(Drop)]
pub struct Awaited {
    alloc: Global,
    names: Vec<String>,
    reading: Vec<AtomicBool>,
    stage: Mutex<Stage>,
    changed: Condvar,
}

impl Awaited {
    /// These files, none of which is being read yet. None if all are regular files, whose reads end by themselves, or if memory is refused.
    pub fn new<R: Files>(rt: &R, alloc: Global, names: &InputNames) -> Option<Arc<Awaited>> {
        let is_pipe = |name: &String| !is_regular(rt, name.as_str());
        if !is_pipe(&names.order) && !names.cores.iter().any(is_pipe) {
            return None;
        }
        Awaited::of(alloc, names).ok()
    }

    // These files.
    fn of(alloc: Global, names: &InputNames) -> Result<Arc<Awaited>, AllocError> {
        let mut copies = Vec::new(alloc);
        let mut reading = Vec::new(alloc);
        copies.push(names.order.clone()?)?;
        reading.push(AtomicBool::new(false))?;
        for name in &names.cores {
            copies.push(name.clone()?)?;
            reading.push(AtomicBool::new(false))?;
        }
        let files = Awaited {
            alloc,
            names: copies,
            reading,
            stage: Mutex::new(Stage::Judging),
            changed: Condvar::new(),
        };
        Ok(Arc::new(alloc, files)?)
    }

    // Sets whether the file of this number is being read.
    fn set_reading(&self, index: usize, is_reading: bool) {
        if let Some(reading) = self.reading.get(index) {
            reading.store(is_reading, Ordering::SeqCst);
        }
    }

    /// The answer is known.
    pub fn know(&self, rt: &impl Wait) {
        self.set_stage(rt, Stage::Known);
    }

    // Sets how far the check has come.
    fn set_stage(&self, rt: &impl Wait, stage: Stage) {
        *self.stage.lock(rt) = stage;
        self.changed.notify_all();
    }

    // Waits until the answer is known, and reports which files are still being read a second later, if the check is not over by then.
    fn tell_awaited<R: Clock + Eprint + Wait>(&self, rt: &R) {
        let patience = Duration::from_millis(PATIENCE);
        let stage = self.changed.wait_while(rt, self.stage.lock(rt), |stage| {
            *stage == Stage::Judging
        });
        let (stage, waited) = self
            .changed
            .wait_timeout_while(rt, stage, patience, |stage| { *stage == Stage::Known });
        drop(stage);
        if !waited.timed_out() {
            return;
        }
        for (name, reading) in self.names.iter().zip(self.reading.iter()) {
            if reading.load(Ordering::SeqCst) {
                tell(rt, &words_of_awaited(self.alloc, name), Look::plain());
            }
        }
    }
}

// Whether reads of the file of this name end by themselves, as those of a missing file do.
fn is_regular<R: Files>(rt: &R, name: &str) -> bool {
    match fs::metadata(rt, name) {
        Ok(metadata) => metadata.is_file(),
        Err(_) => true,
    }
}

/// The thread that reports which of these files are awaited. None if there are no files, or if no thread can be started.
pub fn watch<R>(rt: &R, files: &Option<Arc<Awaited>>) -> Option<JoinHandle<()>>
where
    R: Clock + Eprint + Threads + Wait + Copy + Send + 'static,
{
    let theirs = copy_of(files)?;
    let rt = *rt;
    Builder::new()
        .stack_size(STACK)
        .spawn(&rt, move || theirs.tell_awaited(&rt))
        .ok()
}

/// Ends the thread that reports which of these files are awaited: the check is over.
pub fn end_watch<R: Threads + Wait>(
    rt: &R,
    files: &Option<Arc<Awaited>>,
    watch: Option<JoinHandle<()>>,
) {
    if let Some(files) = files {
        files.set_stage(rt, Stage::Over);
    }
    if let Some(watch) = watch {
        watch.join(rt);
    }
}

/// Another handle of these files, if there are any.
pub fn copy_of(files: &Option<Arc<Awaited>>) -> Option<Arc<Awaited>> {
    match files {
        Some(files) => Arc::try_clone(files).ok(),
        None => None,
    }
}

/// A source whose file is marked while it is being read.
#[derive(Drop)]
pub struct Observed<S> {
    inner: S,
    files: Option<Arc<Awaited>>,
    index: usize,
}

impl<S> Observed<S> {
    /// The source of the file of this number, among these files.
    pub fn new(inner: S, files: Option<Arc<Awaited>>, index: usize) -> Observed<S>
        ensures { result.inner ≡ inner }
    {
        Observed {
            inner,
            files,
            index,
        }
    }

    // Sets whether the file is being read.
    fn mark(&self, is_reading: bool) {
        if let Some(files) = &self.files {
            files.set_reading(self.index, is_reading);
        }
    }
}

impl<S: TextSource> TextSource for Observed<S> {
    ghost remaining = { λ observed. S.remaining observed.inner };

    ghost failed = { λ observed. S.failed observed.inner };

    ghost can_fail = { S.can_fail };

    ghost fails_where_it_can = { λ observed failed. S.fails_where_it_can observed.inner failed };

    /// Reads from the inner source.
    fn read_some(&mut self, buf: &mut [u8]) -> io::Result<usize> {
        self.mark(true);
        let outcome = self.inner.read_some(buf);
        self.mark(false);
        outcome
    }

    fn has_failed(&self) -> bool {
        self.inner.has_failed()
    }
}

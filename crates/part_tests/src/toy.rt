// A machine with one queue of numbers.

ghost use Rattle.std.specs.Prelude.{◌≡◌, ◌≤◌, [], IfOk, length};

use order_search::{Answer, Rivals, Tip};
use std::alloc::{AllocError, Global};

/// What a record of the toy says.
#[derive(Clone, Copy, Debug, PartialEq, Eq)]
pub enum Act {
    /// A number is put into the queue.
    Put(u8),
    /// This number is taken from the front of the queue.
    Get(u8),
    /// The core's time rises, which nobody sees.
    Pause,
}

/// The toy: what each core does, how far it has come, and the cores of all records taken.
#[derive(Drop)]
pub struct Toy<'a> {
    alloc: Global,
    lanes: &'a [&'a [Act]],
    next: Vec<usize>,
    lengths: Vec<usize>,
    history: Vec<usize>,
    decided: usize,
    last: Option<usize>,
    ghost within: { decided ≤ length history.items },
}

impl<'a> Toy<'a> {
    /// The toy at its start.
    pub fn new(alloc: Global, lanes: &'a [&'a [Act]]) -> Result<Toy<'a>, AllocError>
        ensures none { IfOk result (λ toy. toy.history.items ≡ []) }
        ensures none_decided { IfOk result (λ toy. toy.decided ≡ 0) }
    {
        let mut lengths: Vec<usize> = Vec::new(alloc);
        for lane in lanes {
            lengths.push(lane.len())?;
        }
        Ok(Toy {
            alloc,
            lanes,
            next: vec![in alloc; 0usize; lanes.len()]?,
            lengths,
            history: Vec::new(alloc),
            decided: 0,
            last: None,
        })
    }

    // What a core does next.
    fn act(&self, core: usize) -> Option<Act> {
        let lane = self.lanes.get(core)?;
        let next = self.next.get(core)?;
        lane.get(*next).copied()
    }

    // The number at the front of the queue.
    fn front(&self) -> Result<Option<u8>, AllocError> {
        let mut places = vec![in self.alloc; 0usize; self.lanes.len()]?;
        let mut puts: Vec<u8> = Vec::new(self.alloc);
        let mut gets = 0usize;
        for core in self.history.iter() {
            let place = places.get(*core).copied().unwrap_or(0);
            match self.lanes.get(*core).and_then(|lane| lane.get(place)) {
                Some(Act::Put(number)) => puts.push(*number)?,
                Some(Act::Get(_)) => gets = gets.saturating_add(1),
                _ => {}
            }
            if *core < places.len() {
                places[*core] = place.saturating_add(1);
            }
        }
        Ok(puts.get(gets).copied())
    }

    // How many records of each core are among those taken.
    fn count_again(&mut self)
        ensures history { self.new.history ≡ self.old.history }
        ensures decided { self.new.decided ≡ self.old.decided }
    {
        for next in self.next.iter_mut() {
            *next = 0;
        }
        for index in 0..self.history.len() {
            if let Some(core) = self.history.get(index).copied() {
                self.go_on(core);
            }
        }
    }

    fn go_on(&mut self, core: usize)
        ensures history { self.new.history ≡ self.old.history }
        ensures decided { self.new.decided ≡ self.old.decided }
    {
        if core < self.next.len() {
            self.next[core] = self.next[core].saturating_add(1);
        }
    }
}

/// The one thing of the toy, which every record but a pause touches.
#[derive(Clone, Copy, Debug, PartialEq, Eq)]
pub struct Queue;

impl<'a> Tip for Toy<'a> {
    type Thing = Queue;

    ghost use Rattle.std.specs.Prelude.{drop};

    ghost undecided = { λ toy. drop toy.decided toy.history.items };

    ghost decided = { λ toy. toy.decided };

    ghost last_decided = { λ toy. toy.last };

    ghost Input = { Unit {0} };

    ghost input = { λ toy. tt };

    fn judge(&mut self, core: usize) -> Result<Answer, AllocError> {
        let length = self.lengths.get(core).copied().unwrap_or(0);
        if length <= self.next.get(core).copied().unwrap_or(0) {
            return Ok(Answer::Ended);
        }
        let time = self.next.get(core).copied().unwrap_or(0) as u64;
        let is_tick = false;
        match self.act(core) {
            Some(Act::Pause) | None => Ok(Answer::Free),
            Some(Act::Put(_)) => Ok(Answer::Shared { is_tick, time }),
            Some(Act::Get(number)) => {
                if self.front()? == Some(number) {
                    Ok(Answer::Shared { is_tick, time })
                } else {
                    Ok(Answer::Refused)
                }
            }
        }
    }

    #[tactic(auto, using(crate::proofs::History::taken_last))]
    fn take(&mut self, core: usize) -> Result<bool, AllocError> {
        self.history.push(core)?;
        self.go_on(core);
        Ok(true)
    }

    fn back(&mut self, kept: usize) -> Result<u64, AllocError> {
        self.history.truncate(self.decided + kept);
        self.count_again();
        Ok(0)
    }

    #[tactic(auto, using(crate::proofs::History::decided_first, crate::proofs::History::one_left))]
    fn decide(&mut self, core: usize) {
        self.decided += 1;
        self.last = Some(core);
    }

    fn touched(&mut self, _core: usize, things: &mut Vec<Queue>) -> Result<(), AllocError> {
        things.push(Queue)?;
        Ok(())
    }

    fn blamed(&mut self, _core: usize, things: &mut Vec<Queue>) -> Result<(), AllocError> {
        things.push(Queue)?;
        Ok(())
    }

    fn rivals(&mut self, _core: usize) -> Result<Option<Rivals>, AllocError> {
        Ok(None)
    }
}

// How a channel is cut into batches.

ghost use Rattle.std.specs.Prelude.{◌≤◌, ◌<◌, ◌+◌, ◌*◌};

// The most records of a batch: with more, a send would cost no less for each of them.
const LONGEST: usize = 256;

/// How a channel is cut into batches: `slots` batches of at most `length` records each.
#[derive(Clone, Copy)]
pub struct Cut {
    pub length: usize,
    pub slots: usize,
}

/// The cut of a depth: batches as long as it allows, since each send has its cost. The thread makes the next batch while one waits.
pub fn cut_of(depth: usize) -> Cut
    requires some { 0 < depth }
    ensures slots { 0 < result.slots }
    ensures bound { result.length * result.slots ≤ depth }
    ensures most { depth < result.length * result.slots + result.length }
{
    let length = depth.min(LONGEST);
    Cut {
        length,
        slots: depth / length,
    }
}

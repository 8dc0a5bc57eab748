// The line of a report, in memory.

ghost use Rattle.std.specs.Prelude.{◌≡◌, [], IfOk, Some};
ghost use Rattle.report.specs.Text.{report_of};

use report::{CheckFault, Verdict, write_report};
use sink::{FailureCount, Sink, SinkFault};
use std::alloc::{AllocError, Global};

/// The line that reports an outcome, with its line feed.
///
/// `AllocError` if memory is refused.
pub fn line_of(alloc: Global, outcome: &Result<Verdict, CheckFault>) -> Result<Vec<u8>, AllocError>
    ensures { IfOk result (λ line. line.items ≡ report_of outcome.now) }
{
    let mut report = Kept::new(alloc);
    match write_report(&mut report, outcome) {
        Ok(()) => Ok(report.taken),
        Err(_) => Err(AllocError),
    }
}

// A sink that keeps what it takes.
#[derive(Drop)]
struct Kept {
    taken: Vec<u8>,
    failures: FailureCount,
}

impl Kept {
    fn new(alloc: Global) -> Kept
        ensures { result.taken.items ≡ [] }
    {
        Kept {
            taken: Vec::new(alloc),
            failures: FailureCount::new(),
        }
    }
}

impl Sink for Kept {
    ghost bytes = { λ s. Some s.taken.items };

    ghost failures = { λ s. s.failures.count };

    fn put(&mut self, piece: &[u8]) -> Result<usize, SinkFault> {
        if self.taken.extend_from_slice(piece).is_err() {
            self.failures = self.failures.raised();
            return Err(SinkFault);
        }
        Ok(piece.len())
    }
}

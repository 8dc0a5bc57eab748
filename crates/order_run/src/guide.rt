// Who says which core's record is put next.

ghost use Rattle.std.specs.Prelude.{◌≡◌, ◌<◌, IfOk, OnOk, length};
ghost use Rattle.order_run.specs.Left.{IsTaken, Lefts};

use apex_types::Record;
use placement::PlacingFault;

/// Says which core's record is put next, and hands the records out.
pub trait Guide {
    // What each core's recording has left, where that is known.
    ghost left: { Self → Lefts };

    /// The core whose next record is put next, or None where the guide knows none.
    fn next(&mut self) -> Result<Option<usize>, PlacingFault>
        ensures { OnOk result (left self.new ≡ left self.old) };

    /// Takes the next record of a core, or None where its recording has ended.
    fn take(&mut self, core: usize) -> Result<Option<Record>, PlacingFault>
        requires { core < length (left self.old) }
        ensures { IfOk result (λ made. IsTaken core (left self.old) made (left self.new)) };
}

// What keeps the mark of a call.

ghost use Rattle.std.specs.Prelude.{◌≡◌};

/// What keeps the mark of a call that is judged elsewhere, as a port does for a call through its channel.
pub trait Marked {
    ghost use Rattle.std.specs.Prelude.{Option, ℤ};

    // What it is after a call that claims this value.
    ghost marked: { Option ℤ → Self → Self };

    /// Keeps the mark of a call that claims this value. Takes no memory.
    fn mark(&mut self, claimed: Option<i64>)
        ensures { self.new ≡ marked claimed self.old };
}

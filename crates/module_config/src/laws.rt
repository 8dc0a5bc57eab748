// The law on what a configuration says.

ghost use Rattle.module_config.specs.WindowLaw.{WindowAtIsTheSentence};

/// If no two windows overlap, the partition at a time is exactly the one for which a window of the core holds the time within the major
/// frame, and there is none exactly if no window of the core holds it. The order of the windows does not matter.
pub fn window_at_is_the_sentence()
    ensures { WindowAtIsTheSentence }
{}

// Recordings that may be named for the wrong cores.

use crate::refusal::Refusal;
use apex_types::limits::MOST_WINDOWS;
use apex_types::{CoreId, PartId};
use module_config::Config;
use wording::Words;

/// Reports that the partition of the process that a record names has windows, but none on the record's core: the recordings may be named in
/// the wrong order.
pub fn tell_other_core(words: &mut Words, refusal: &Refusal<'_>) {
    let Some(who) = refusal.runner() else {
        return;
    };
    let (config, core) = (refusal.config, refusal.core());
    if has_window(config, core, who.part) {
        return;
    }
    if let Some(other) = first_core_with_window(config, who.part) {
        words.next_line();
        words.say(format_args!(
            "partition {} has no window on core {}, but has one on core {other}",
            who.part.number(),
            core.number()
        ));
        words.say(": are the recordings named in the order of the cores, core 0 first?");
    }
}

// The number of the first core on which a partition has a window, if there is one.
fn first_core_with_window(config: &Config, part: PartId) -> Option<u8> {
    for number in 0..config.cores() {
        if has_window(config, CoreId::new(number), part) {
            return Some(number);
        }
    }
    None
}

// Whether a partition has a window on a core.
//
// A configuration says which partition has a core at a time, and how many windows have begun by a time. A core's windows begin at the times
// at which that number rises, or at the beginning of the major frame.
fn has_window(config: &Config, core: CoreId, part: PartId) -> bool {
    let last = config.frame().saturating_sub(1);
    let all = config.windows_begun(0, core, last);
    let mut time = 0;
    for _ in 0..=MOST_WINDOWS {
        if config.window_at(core, time) == Some(part) {
            return true;
        }
        let begun = config.windows_begun(0, core, time);
        if begun >= all {
            return false;
        }
        time = next_start(config, core, begun, time, last);
    }
    false
}

// The first time at which more windows of a core have begun than this number. At the first of two times no more have begun, and at the second
// more have.
fn next_start(config: &Config, core: CoreId, begun: usize, first: u64, second: u64) -> u64 {
    let (mut before, mut by) = (first, second);
    for _ in 0..u64::BITS {
        let middle = before.midpoint(by);
        if middle == before {
            break;
        }
        if config.windows_begun(begun, core, middle) > begun {
            by = middle;
        } else {
            before = middle;
        }
    }
    by
}

// Files that are opened to be read.

ghost use Rattle.std.specs.Prelude.{◌≡◌, ◌+◌, IfOk, IfSome, take};
ghost use Rattle.apex_types.specs.declared.limits.TheConstants.{LONGEST_CONFIGURATION};
ghost use Rattle.module_config.specs.Reading.{configuration_of};
ghost use Rattle.asked_rules.specs.Reading.{rules_of};

use apex_types::limits::LONGEST_CONFIGURATION;
use std::alloc::Global;
use std::fs::{Files, OpenOptions};
use std::io;
use std::io::Read;

/// The text in the file of this name, as `read_text` reads it.
pub fn open_text<R: Files<File = F>, F: Read + Drop>(
    rt: &R,
    alloc: Global,
    name: &str,
) -> io::Result<Vec<u8>> {
    read_text(alloc, open(rt, name)?)
}

/// The file of this name, opened to be read.
pub fn open<R: Files<File = F>, F: Read + Drop>(rt: &R, name: &str) -> io::Result<F> {
    OpenOptions::new().read(true).open(rt, name)
}

// The text that a reader gives, or only its first bytes if it is longer than a configuration or a rules file may be. These bytes configure
// the same as the whole text, and give the same rules. Of a longer text, one byte above the limit is enough to show that it is longer:
// `check` and `asked_rules::read` refuse it as `TooMany`. Both have the same limit.
fn read_text<R: Read + Drop>(alloc: Global, reader: R) -> io::Result<Vec<u8>>
    ensures first { IfOk result (λ read. IfSome (R.remaining reader) (λ text. read.items ≡ take (LONGEST_CONFIGURATION + 1) text)) }
    ensures configures { IfOk result (λ read. IfSome (R.remaining reader) (λ text. configuration_of read.items ≡ configuration_of text)) }
    ensures rules { IfOk result (λ read. IfSome (R.remaining reader) (λ text. rules_of read.items ≡ rules_of text)) }
{
    let longest = LONGEST_CONFIGURATION as u64;
    let mut text = Vec::new(alloc);
    reader.take(longest + 1).read_to_end(&mut text)?;
    Ok(text)
}

// What the program prints of itself on standard output.

ghost use Rattle.std.specs.Prelude.{◌≡◌, ◌⊎◌};
ghost use Rattle.apexmake.specs.declared.ending.Ending.TheVariants.{Help, Memory, Unwritten, Version};

use crate::ending::Ending;
use sink::{Sink, put_all};
use std::alloc::Global;
use std::fs::Files;
use wording::{Documents, Program, help};

/// Prints the version.
pub fn print_version<W: Sink>(output: &mut W) -> Ending
    ensures { (result ≡ Version) ⊎ (result ≡ Unwritten) }
{
    match put_all(output, b"apexmake 1.0.0\n") {
        Ok(()) => Ending::Version,
        Err(_) => Ending::Unwritten,
    }
}

/// Prints the short help.
pub fn print_help<R: Files + AllocGlobal, W: Sink>(rt: &R, alloc: Global, output: &mut W) -> Ending
    ensures { (result ≡ Help) ⊎ (result ≡ Unwritten) ⊎ (result ≡ Memory) }
{
    let documents = Documents::find(rt, alloc);
    if documents.lacks_memory() {
        return Ending::Memory;
    }
    let shown = help(Program::Make, documents.folder());
    let Ok(text) = format!(in alloc; "{shown}\n") else {
        return Ending::Memory;
    };
    match put_all(output, text.as_bytes()) {
        Ok(()) => Ending::Help,
        Err(_) => Ending::Unwritten,
    }
}

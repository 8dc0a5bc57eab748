// What the program prints of itself on standard output.

ghost use Rattle.std.specs.Prelude.{◌≡◌, ◌⊎◌};
ghost use Rattle.program_ends.specs.declared.ending.Ending.TheVariants.{Own};
ghost use Rattle.program_ends.specs.Endings.{out_of_memory};
ghost use Rattle.shown_run.specs.declared.ending.ViewEnd.TheVariants.{Help, Unwritten, Version};
ghost use Rattle.shown_run.specs.Endings.{refusing};

use program_ends::{Ending, out_of_memory};
use shown_run::ViewEnd;
use sink::{Sink, put_all};
use std::alloc::Global;
use std::fs::Files;
use wording::{Documents, Program, help};

/// Prints the version.
pub fn print_version<W: Sink>(output: &mut W) -> Ending<ViewEnd>
    ensures { (result ≡ Own Version) ⊎ (result ≡ Own Unwritten) }
{
    match put_all(output, b"apexview 1.0.0\n") {
        Ok(()) => Ending::Own(ViewEnd::Version),
        Err(_) => Ending::Own(ViewEnd::Unwritten),
    }
}

/// Prints the short help.
pub fn print_help<R: Files + AllocGlobal, W: Sink>(
    rt: &R,
    alloc: Global,
    output: &mut W,
) -> Ending<ViewEnd>
    ensures { (result ≡ Own Help) ⊎ (result ≡ Own Unwritten) ⊎ (result ≡ out_of_memory refusing) }
{
    let documents = Documents::find(rt, alloc);
    if documents.lacks_memory() {
        return out_of_memory();
    }
    let text = help(Program::View, documents.folder());
    let Ok(text) = format!(in alloc; "{text}\n") else {
        return out_of_memory();
    };
    match put_all(output, text.as_bytes()) {
        Ok(()) => Ending::Own(ViewEnd::Help),
        Err(_) => Ending::Own(ViewEnd::Unwritten),
    }
}

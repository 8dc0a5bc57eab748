// What the program prints of itself on standard output.

ghost use Rattle.std.specs.Prelude.{◌≡◌, ◌⊎◌};
ghost use Rattle.program_ends.specs.declared.ending.Ending.TheVariants.{Own};
ghost use Rattle.apexorder.specs.declared.ending.OrderEnd.TheVariants.{Help, Unwritten, Version};

use crate::ending::OrderEnd;
use program_ends::Ending;
use std::alloc::Global;
use std::fs::Files;
use wording::{Documents, Program, help};

/// Prints the version.
pub fn print_version(rt: &impl Print) -> Ending<OrderEnd>
    ensures { (result ≡ Own Version) ⊎ (result ≡ Own Unwritten) }
{
    match rt.println("apexorder 1.0.0") {
        Ok(()) => Ending::Own(OrderEnd::Version),
        Err(_) => Ending::Own(OrderEnd::Unwritten),
    }
}

/// Prints the short help.
pub fn print_help<R: Files + Print + AllocGlobal>(rt: &R, alloc: Global) -> Ending<OrderEnd>
    ensures { (result ≡ Own Help) ⊎ (result ≡ Own Unwritten) }
{
    let documents = Documents::find(rt, alloc);
    match rt.println(help(Program::Order, documents.folder())) {
        Ok(()) => Ending::Own(OrderEnd::Help),
        Err(_) => Ending::Own(OrderEnd::Unwritten),
    }
}

// Markup that grows, and the two calls by which it does.

ghost use Rattle.std.specs.Prelude.{◌≡◌, ◌↔◌, ◌<◌, ◌++◌, Err, OnOk, OnErr, false, true};
ghost use Rattle.sink.specs.Escapes.{AddsEscaped};
ghost use Rattle.sink.specs.Own.{is_own};
ghost use Rattle.sink.specs.Markup.{IsMarkup, no_markup};
ghost use Rattle.sink.specs.Written.{IsWritten, IsCut};

use crate::escape::escaped;
use crate::output::Sink;
use crate::written::{WriteFault, put_all};
use std::alloc::{AllocError, Global};
use std::fmt::Display;
use std::marker::Model;

/// Why markup is not sent.
#[derive(Clone, Copy, Debug, PartialEq, Eq)]
pub enum SendFault {
    /// Memory was refused to what was added.
    Memory,
    /// The sink failed before it had taken the whole markup.
    Unwritten,
}

/// Markup that grows: the program's own markup, and text, which is escaped. Once memory is refused to it, it lacks memory: nothing more is
/// added to it, and it is not sent.
#[derive(Drop)]
pub struct Markup {
    alloc: Global,
    text: String,
    lacks_memory: bool,
}

impl Model for Markup {
    ghost use Rattle.std.specs.Prelude.{string_bytes};
    ghost use Rattle.sink.specs.Markup.{IsMarkup, Marked};

    ghost Value = { Marked };

    ghost view = { λ markup. record { text = string_bytes markup.text; lacks_memory = markup.lacks_memory } };

    ghost invariant = { λ markup. IsMarkup (string_bytes markup.text) };
}

impl Markup {
    /// No markup. Takes no memory.
    pub fn new(alloc: Global) -> Markup
        ensures { result ≡ no_markup }
    {
        Markup {
            alloc,
            text: String::new(alloc),
            lacks_memory: false,
        }
    }

    /// Adds the program's own markup.
    ///
    /// If memory is refused, now or before, the markup lacks memory and its text is as it was.
    pub fn mark(&mut self, markup: &'static str)
        requires { is_own markup.now ≡ true }
        ensures added { self.new.lacks_memory ≡ false → self.new.text ≡ self.old.text ++ markup.now }
        ensures unchanged { self.new.lacks_memory ≡ true → self.new.text ≡ self.old.text }
        ensures stays { self.old.lacks_memory ≡ true → self.new.lacks_memory ≡ true }
    {
        if !self.lacks_memory {
            self.lacks_memory = self.text.push_str(markup).is_err();
        }
    }

    /// Adds text, escaped: what would begin or end markup becomes an entity, and a control character is shown as its number.
    ///
    /// If memory is refused, now or before, the markup lacks memory and its text is as it was.
    pub fn say<D: Display + Drop>(&mut self, words: D)
        ensures said { self.new.lacks_memory ≡ false → AddsEscaped (D.output words) self.old.text self.new.text }
        ensures unchanged { self.new.lacks_memory ≡ true → self.new.text ≡ self.old.text }
        ensures stays { self.old.lacks_memory ≡ true → self.new.lacks_memory ≡ true }
    {
        if !self.lacks_memory {
            self.lacks_memory = self.add(words).is_err();
        }
    }

    // Adds text, escaped.
    fn add<D: Display + Drop>(&mut self, words: D) -> Result<(), AllocError>
        ensures said { OnOk result (AddsEscaped (D.output words) self.old.text self.new.text) }
        ensures unchanged { OnErr result (self.new.text ≡ self.old.text) }
        ensures same { self.new.lacks_memory ≡ self.old.lacks_memory }
    {
        let said = format!(in self.alloc; "{words}")?;
        let markup = escaped(self.alloc, said.as_str())?;
        self.text.push_str(markup.as_str())
    }

    /// Writes the markup so far, and forgets it.
    ///
    /// # Errors
    ///
    /// `Memory` if the markup lacks memory. Then nothing went out. `Unwritten` if the sink failed. Then the first bytes of the markup went out
    /// and no others. The markup is then as it was.
    pub fn send<W: Sink>(&mut self, output: &mut W) -> Result<(), SendFault>
        ensures markup { IsMarkup self.old.text }
        ensures lacking { (result ≡ Err SendFault.Memory) ↔ (self.old.lacks_memory ≡ true) }
        ensures untouched { result ≡ Err SendFault.Memory → output.new ≡ output.old }
        ensures whole { OnOk result (IsWritten (W.bytes output.old) self.old.text (W.bytes output.new)) }
        ensures emptied { OnOk result (self.new ≡ no_markup) }
        ensures same { OnOk result (W.failures output.new ≡ W.failures output.old) }
        ensures cut { result ≡ Err SendFault.Unwritten → IsCut (W.bytes output.old) self.old.text (W.bytes output.new) }
        ensures kept { OnErr result (self.new ≡ self.old) }
        ensures failed { result ≡ Err SendFault.Unwritten → W.failures output.old < W.failures output.new }
    {
        if self.lacks_memory {
            return Err(SendFault::Memory);
        }
        match put_all(output, self.text.as_bytes()) {
            Ok(()) => {
                self.text.clear();
                Ok(())
            }
            Err(WriteFault) => Err(SendFault::Unwritten),
        }
    }
}

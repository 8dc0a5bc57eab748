// What standard error is, for a person who reads it.

use std::env;
use std::env::VarError;
use std::rt::Env;

/// What standard error is.
#[derive(Clone, Copy, Debug)]
pub struct Terminal {
    /// Whether it is a terminal.
    pub is_terminal: bool,
    /// Whether parts of a text are shown in colours.
    pub in_colour: bool,
}

impl Terminal {
    /// A terminal, or none. It has colours if it is one, unless the variable `NO_COLOR` has a text.
    pub fn new(rt: &(impl Env + AllocGlobal), is_terminal: bool) -> Terminal {
        Terminal {
            is_terminal,
            in_colour: is_terminal && !refuses_colours(rt),
        }
    }
}

// Whether the environment requests no colours. A text that cannot be read does so too.
fn refuses_colours(rt: &(impl Env + AllocGlobal)) -> bool {
    match env::var(rt, "NO_COLOR") {
        Ok(text) => !text.is_empty(),
        Err(VarError::NotPresent) => false,
        Err(_) => true,
    }
}

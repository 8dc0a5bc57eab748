// The programs.

use crate::options::{CHECK_OPTIONS, MAKE_OPTIONS, ORDER_OPTIONS, ProgramOption, VIEW_OPTIONS};

/// A program.
#[derive(Clone, Copy, Debug, PartialEq, Eq)]
pub enum Program {
    /// `apexcheck`.
    Check,
    /// `apexorder`.
    Order,
    /// `apexview`.
    View,
    /// `apexmake`.
    Make,
}

impl Program {
    /// Its name.
    pub fn name(self) -> &'static str {
        match self {
            Program::Check => "apexcheck",
            Program::Order => "apexorder",
            Program::View => "apexview",
            Program::Make => "apexmake",
        }
    }

    /// Its options, except `--version` and `--help`. Those that are required come first.
    pub fn options(self) -> &'static [ProgramOption] {
        match self {
            Program::Check => &CHECK_OPTIONS,
            Program::Order => &ORDER_OPTIONS,
            Program::View => &VIEW_OPTIONS,
            Program::Make => &MAKE_OPTIONS,
        }
    }

    /// Whether its command line names recordings.
    pub fn takes_recordings(self) -> bool {
        match self {
            Program::Check | Program::Order | Program::View => true,
            Program::Make => false,
        }
    }
}

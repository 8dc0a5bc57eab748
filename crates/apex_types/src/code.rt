// The return codes of the APEX services.

ghost use Rattle.std.specs.Prelude.{◌≡◌};
ghost use Rattle.apex_types.specs.CodeName.{name_of};
ghost use Rattle.apex_types.specs.Numbers.{code_number};

/// A return code of an APEX service.
#[derive(Clone, Copy, Debug, PartialEq, Eq)]
pub enum Code {
    NoError,
    NoAction,
    NotAvailable,
    InvalidParam,
    InvalidConfig,
    InvalidMode,
    TimedOut,
}

impl Code {
    /// The name that records give the code, in ASCII.
    pub fn name(self) -> &'static [u8]
        ensures { result.now ≡ name_of self }
    {
        match self {
            Code::NoError => b"NO_ERROR",
            Code::NoAction => b"NO_ACTION",
            Code::NotAvailable => b"NOT_AVAILABLE",
            Code::InvalidParam => b"INVALID_PARAM",
            Code::InvalidConfig => b"INVALID_CONFIG",
            Code::InvalidMode => b"INVALID_MODE",
            Code::TimedOut => b"TIMED_OUT",
        }
    }

    /// The number by which views give the code, from 0 on.
    pub fn number(self) -> u8
        ensures { result ≡ code_number self }
    {
        match self {
            Code::NoError => 0,
            Code::NoAction => 1,
            Code::NotAvailable => 2,
            Code::InvalidParam => 3,
            Code::InvalidConfig => 4,
            Code::InvalidMode => 5,
            Code::TimedOut => 6,
        }
    }
}

// The errors that the health monitor knows.

ghost use Rattle.std.specs.Prelude.{◌≡◌};
ghost use Rattle.apex_types.specs.ErrorName.{name_of};
ghost use Rattle.apex_types.specs.Numbers.{error_number};

/// An error of a process.
#[derive(Clone, Copy, Debug, PartialEq, Eq)]
pub enum ErrorCode {
    /// The process has missed its deadline.
    DeadlineMissed,
    /// The process raised it by RAISE_APPLICATION_ERROR.
    ApplicationError,
    NumericError,
    IllegalRequest,
    StackOverflow,
    MemoryViolation,
    HardwareFault,
    PowerFail,
}

impl ErrorCode {
    /// The name that records give the error, in ASCII.
    pub fn name(self) -> &'static [u8]
        ensures { result.now ≡ name_of self }
    {
        match self {
            ErrorCode::DeadlineMissed => b"DEADLINE_MISSED",
            ErrorCode::ApplicationError => b"APPLICATION_ERROR",
            ErrorCode::NumericError => b"NUMERIC_ERROR",
            ErrorCode::IllegalRequest => b"ILLEGAL_REQUEST",
            ErrorCode::StackOverflow => b"STACK_OVERFLOW",
            ErrorCode::MemoryViolation => b"MEMORY_VIOLATION",
            ErrorCode::HardwareFault => b"HARDWARE_FAULT",
            ErrorCode::PowerFail => b"POWER_FAIL",
        }
    }

    /// The number by which GET_ERROR_STATUS reports the error, from 0 on.
    pub fn number(self) -> u8
        ensures { result ≡ error_number self }
    {
        match self {
            ErrorCode::DeadlineMissed => 0,
            ErrorCode::ApplicationError => 1,
            ErrorCode::NumericError => 2,
            ErrorCode::IllegalRequest => 3,
            ErrorCode::StackOverflow => 4,
            ErrorCode::MemoryViolation => 5,
            ErrorCode::HardwareFault => 6,
            ErrorCode::PowerFail => 7,
        }
    }
}

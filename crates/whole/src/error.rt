// What `to_vec` answers where it has no bytes.
ghost use Rattle.std.specs.Prelude.{◌≡◌};
ghost use Rattle.whole.specs.declared.error.ToVecError.TheVariants.{OutOfMemory, TooLong};

use sink::Full;
use std::alloc::AllocError;
use std::error::Error;
use std::fmt;

#[derive(Clone, Copy, PartialEq, Eq, Debug)]
pub enum ToVecError {
    // The bytes are more than a number of the machine can say.
    TooLong,
    // No memory was left for them.
    OutOfMemory,
}

impl fmt::Display for ToVecError {
    fn fmt<W: fmt::Write>(&self, f: &mut fmt::Formatter<W>) -> fmt::Result {
        match self {
            ToVecError::TooLong => write!(f, "more bytes than can be counted"),
            ToVecError::OutOfMemory => write!(f, "no memory is left"),
        }
    }
}

impl Error for ToVecError {}

// What refuses in `length_of` is a count that has reached its limit.
impl From<Full> for ToVecError {
    ghost from_gives = { λ _ e. e ≡ TooLong };

    fn from(_e: Full) -> ToVecError {
        ToVecError::TooLong
    }
}

impl From<AllocError> for ToVecError {
    ghost from_gives = { λ _ e. e ≡ OutOfMemory };

    fn from(_e: AllocError) -> ToVecError {
        ToVecError::OutOfMemory
    }
}

// So that `?` answers as it did where a caller knows of no other error.
impl From<ToVecError> for AllocError {
    fn from(_e: ToVecError) -> AllocError {
        AllocError
    }
}

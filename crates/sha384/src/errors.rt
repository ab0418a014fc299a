// Why there is no digest, each with its number.
ghost use Rattle.std.specs.Prelude.{◌≡◌};
ghost use Rattle.sha384.specs.Errors.{error_number};

use std::error::Error;
use std::fmt;

#[derive(Clone, Copy, Debug, PartialEq, Eq)]
pub enum DigestError {
    // Of a message, or of a slice of one.
    TooLong,
    // The slice would make the total too large.
    TotalTooLong,
    // The counts of a running digest disagree, or its total is too large.
    Damaged,
}

impl fmt::Display for DigestError {
    fn fmt<W: fmt::Write>(&self, f: &mut fmt::Formatter<W>) -> fmt::Result {
        match self {
            DigestError::TooLong => write!(f, "the message is too long"),
            DigestError::TotalTooLong => write!(f, "the total would be too long"),
            DigestError::Damaged => write!(f, "the running digest is damaged"),
        }
    }
}

impl Error for DigestError {}

impl From<DigestError> for u32 {
    ghost from_gives = { λ e n. n ≡ error_number e };

    fn from(error: DigestError) -> u32 {
        match error {
            DigestError::TooLong => 10,
            DigestError::TotalTooLong => 16,
            DigestError::Damaged => 27,
        }
    }
}

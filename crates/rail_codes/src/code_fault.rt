//! Why a text or a number is no code.
ghost use Rattle.std.specs.Prelude.{◌≡◌};

use thiserror::Error;

/// Why a text or a number is no code. The message is the fault's name.
#[derive(Clone, Copy, Debug, PartialEq, Eq, Error)]
pub enum CodeFault {
    /// Without spaces and hyphens the text is not twelve digits.
    #[error("NotTwelveDigits")]
    NotTwelveDigits,
    /// The check digit of a wagon number is not that of its first eleven digits.
    #[error("CheckDigit")]
    CheckDigit,
    /// The text is not two letters A-Z and five digits.
    #[error("BadPlace")]
    BadPlace,
    /// The text is not 1 to 12 ASCII letters.
    #[error("BadClass")]
    BadClass,
    /// The text is not four characters 0-9 or A-Z.
    #[error("BadCompany")]
    BadCompany,
    /// The text is not 1 to 16 characters A-Z, 0-9 or hyphen.
    #[error("BadOrderId")]
    BadOrderId,
    /// The text is read as no instant.
    #[error("BadMoment")]
    BadMoment,
    /// The instant lies before 2000 or after 2099, in UTC.
    #[error("MomentOutOfRange")]
    MomentOutOfRange,
}

impl CodeFault {
    ghost use Rattle.rail_codes.specs.CodeFault.{fault_number};

    /// The number that stands for the fault in a reply, from 11 to 18.
    pub fn number(self) -> u32
        ensures { result ≡ fault_number self }
    {
        match self {
            CodeFault::NotTwelveDigits => 11,
            CodeFault::CheckDigit => 12,
            CodeFault::BadPlace => 13,
            CodeFault::BadClass => 14,
            CodeFault::BadCompany => 15,
            CodeFault::BadOrderId => 16,
            CodeFault::BadMoment => 17,
            CodeFault::MomentOutOfRange => 18,
        }
    }
}

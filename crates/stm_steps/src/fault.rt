//! The faults that end a program.
ghost use Rattle.std.specs.Prelude.{◌≡◌};

use std::error::Error;
use std::fmt;

/// Why a program was ended by one of its own nodes.
///
/// The names that `Display` gives are those of the program formats.
#[derive(Clone, Copy, Debug, PartialEq, Eq)]
pub enum Fault {
    /// A text where a number is expected, or the reverse, or a comparison of both kinds.
    Kind,
    /// A result outside -9223372036854775808 to 9223372036854775807.
    Overflow,
    /// A division by 0, or its remainder.
    ZeroDivisor,
    /// `num_of` of a text that is no whole number, or one out of range.
    NotANumber,
    /// A count above the limit of its loop.
    LoopTooLong,
    /// Turn 10001 of one run.
    TurnLimit,
    /// A result of `cat` above 65536 bytes.
    TextTooLong,
    /// An empty key.
    EmptyKey,
}

impl Fault {
    ghost use Rattle.stm_steps.specs.Faults.{fault_name};

    /// The name of the fault in the formats.
    pub fn name(&self) -> &'static str
        ensures { result.now ≡ fault_name self.now }
    {
        match self {
            Fault::Kind => "Kind",
            Fault::Overflow => "Overflow",
            Fault::ZeroDivisor => "ZeroDivisor",
            Fault::NotANumber => "NotANumber",
            Fault::LoopTooLong => "LoopTooLong",
            Fault::TurnLimit => "TurnLimit",
            Fault::TextTooLong => "TextTooLong",
            Fault::EmptyKey => "EmptyKey",
        }
    }
}

impl fmt::Display for Fault {
    ghost use Rattle.std.specs.Prelude.{Some};
    ghost use Rattle.stm_steps.specs.Faults.{fault_name};

    ghost output = { λ fault. Some (fault_name fault) };

    fn fmt<W: fmt::Write>(&self, f: &mut fmt::Formatter<W>) -> fmt::Result {
        fmt::Display::fmt(&self.name(), f)
    }
}

impl Error for Fault {}

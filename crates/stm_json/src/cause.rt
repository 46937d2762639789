//! What can be wrong with an input.
ghost use Rattle.std.specs.Prelude.{◌≡◌};
ghost use Rattle.stm_json.specs.CauseNames.{cause_name};

use std::fmt;

/// What is wrong with an input.
#[derive(Clone, Copy, Debug, PartialEq, Eq)]
pub enum Cause {
    /// It is not JSON in UTF-8, nests too deep for JSON's reader, or has a number or an escape that this refuses.
    NotJson,
    /// A value is not of the expected kind, is an array of a wrong length, or has an unknown word.
    Shape,
    /// A whole number is out of range.
    Range,
    /// A node is nested deeper than allowed.
    TooDeep,
    /// There are more nodes than allowed: this is the first one too many.
    TooManyNodes,
    /// A text has more bytes than allowed.
    TooLong,
    /// There are more elements than allowed: this is the first one too many.
    TooMany,
}

impl Cause {
    /// The name of the cause in the formats.
    pub fn name(self) -> &'static str
        ensures { result.now ≡ cause_name self }
    {
        match self {
            Cause::NotJson => "NotJson",
            Cause::Shape => "Shape",
            Cause::Range => "Range",
            Cause::TooDeep => "TooDeep",
            Cause::TooManyNodes => "TooManyNodes",
            Cause::TooLong => "TooLong",
            Cause::TooMany => "TooMany",
        }
    }
}

impl fmt::Display for Cause {
    ghost use Rattle.std.specs.Prelude.{Some};
    ghost use Rattle.stm_json.specs.CauseNames.{cause_name};

    ghost output = { λ cause. Some (cause_name cause) };

    fn fmt<W: fmt::Write>(&self, f: &mut fmt::Formatter<W>) -> fmt::Result {
        f.write_str(self.name())
    }
}

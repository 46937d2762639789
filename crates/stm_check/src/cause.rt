//! Why a line of a report is wrong.
ghost use Rattle.std.specs.Prelude.{◌≡◌};
ghost use Rattle.stm_check.specs.CauseNames.{cause_name};

use std::fmt;

/// Why a line of a report is the first wrong one.
#[derive(Clone, Copy, Debug, PartialEq, Eq)]
pub enum WrongCause {
    /// It is missing, or stands after the end line.
    Count,
    /// It stands in an event's place and is no line that this event can have there.
    Event,
    /// It reports another change or refusal than the replay gives.
    Replay,
    /// It stands after the events' lines and is not the line that the replay's last state has there.
    Final,
}

impl WrongCause {
    /// The name of the cause.
    pub fn name(self) -> &'static str
        ensures { result.now ≡ cause_name self }
    {
        match self {
            WrongCause::Count => "Count",
            WrongCause::Event => "Event",
            WrongCause::Replay => "Replay",
            WrongCause::Final => "Final",
        }
    }
}

impl fmt::Display for WrongCause {
    ghost use Rattle.std.specs.Prelude.{Some};
    ghost use Rattle.stm_check.specs.CauseNames.{cause_name};

    ghost output = { λ cause. Some (cause_name cause) };

    fn fmt<W: fmt::Write>(&self, f: &mut fmt::Formatter<W>) -> fmt::Result {
        f.write_str(self.name())
    }
}

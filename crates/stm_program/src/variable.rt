//! The variables of a program.
ghost use Rattle.std.specs.Prelude.{◌≡◌, ◌≤◌};
ghost use Rattle.stm_program.specs.declared.limits.TheConstants.{MAX_VARIABLE};

use std::marker::Model;

/// One of the sixteen variables of a program, by its number, from 0 to `MAX_VARIABLE`.
#[derive(Clone, Copy, Debug, PartialEq, Eq)]
pub struct Variable {
    number: u8,
}

impl Model for Variable {
    ghost use Rattle.std.specs.Prelude.{ℕ, ◌≤◌};
    ghost use Rattle.stm_program.specs.declared.limits.TheConstants.{MAX_VARIABLE};

    ghost Value = { ℕ };

    ghost view = { λ v. v.number };

    ghost invariant = { λ v. v.number ≤ MAX_VARIABLE };

    ghost inverse = { λ n. record { number = n } };
}

impl Variable {
    /// The variable of this number.
    pub fn new(number: u8) -> Variable
        requires { number ≤ MAX_VARIABLE }
        ensures { result ≡ number }
    {
        Variable { number }
    }

    /// The number of this variable.
    pub fn number(self) -> u8
        ensures same { result ≡ self }
        ensures in_range { result ≤ MAX_VARIABLE }
    {
        self.number
    }
}

//! The variables of a run.
ghost use Rattle.std.specs.Prelude.{◌≡◌, IfOk, pos, replicate, slice_index_or, slice_set};
ghost use Rattle.stm_steps.specs.declared.value.Value.TheVariants.{Number};
ghost use Rattle.stm_steps.specs.declared.variables.TheConstants.{VARIABLE_COUNT};

use crate::value::Value;
use std::alloc::{AllocError, Global};
use std::marker::Model;
use stm_program::Variable;

/// How many variables a program has.
pub const VARIABLE_COUNT: usize = 16;

/// The values of the sixteen variables. Contracts see them as a list.
#[derive(Debug)]
pub(crate) struct Variables {
    values: Vec<Value>,
}

impl Drop for Variables {
    fn drop(self) {
        let Variables { values: _ } = self;
    }
}

impl Model for Variables {
    ghost use Rattle.std.specs.Prelude.{List, length, ◌≡◌};
    ghost use Rattle.stm_steps.specs.declared.value.Value.{Value as VariableValue};
    ghost use Rattle.stm_steps.specs.declared.variables.TheConstants.{VARIABLE_COUNT};

    ghost Value = { List VariableValue };

    ghost view = { λ s. s.values.items };

    ghost invariant = { λ s. length s.values.items ≡ VARIABLE_COUNT };
}

impl Variables {
    /// Each variable is the number 0.
    pub fn new(alloc: Global) -> Result<Variables, AllocError>
        ensures { IfOk result (λ s. s ≡ replicate VARIABLE_COUNT (Number (pos 0))) }
    {
        let mut values = Vec::with_capacity(alloc, VARIABLE_COUNT)?;
        for _ in 0..VARIABLE_COUNT {
            values.push(Value::Number(0))?;
        }
        Ok(Variables { values })
    }

    /// The value of a variable.
    pub fn get(&self, variable: Variable) -> &Value
        ensures { result.now ≡ slice_index_or self.now variable (Number (pos 0)) }
    {
        &self.values[usize::from(variable.number())]
    }

    /// Gives a variable a value.
    pub fn set(&mut self, variable: Variable, value: Value)
        ensures { self.new ≡ slice_set self.old variable value }
    {
        self.values[usize::from(variable.number())] = value;
    }
}

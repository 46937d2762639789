//! Where a machine stands after what was computed.
ghost use Rattle.std.specs.Prelude.{◌≡◌};
ghost use Rattle.stm_machine.specs.Moves.{nothing, at_fault, at_value, at_truth};

use crate::focus::{Focus, Item};
use stm_steps::{End, Fault, Value};

/// After a part that gave nothing.
pub(crate) fn nothing() -> Focus
    ensures { result ≡ nothing }
{
    Focus::Give(Item::Nothing)
}

/// At the end that a fault makes.
pub(crate) fn at_fault(fault: Fault) -> Focus
    ensures { result ≡ at_fault fault }
{
    Focus::Ended(End::Faulted(fault))
}

/// After a computed value, or at the end that its fault makes.
pub(crate) fn at_value(computed: Result<Value, Fault>) -> Focus
    ensures { result ≡ at_value computed }
{
    match computed {
        Ok(value) => Focus::Give(Item::Value(value)),
        Err(fault) => at_fault(fault),
    }
}

/// After a computed truth, or at the end that its fault makes.
pub(crate) fn at_truth(computed: Result<bool, Fault>) -> Focus
    ensures { result ≡ at_truth computed }
{
    match computed {
        Ok(truth) => Focus::Give(Item::Truth(truth)),
        Err(fault) => at_fault(fault),
    }
}

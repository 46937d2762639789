//! Places of faults.
ghost use Rattle.std.specs.Prelude.{◌≡◌, [], ◌++◌, IfOk};
ghost use Rattle.stm_json.specs.Outcome.{step};
ghost use Rattle.stm_json.specs.Returns.{Wraps};
ghost use Rattle.stm_json.specs.declared.read_error.ReadError.TheVariants.{Bad};

use crate::cause::Cause;
use crate::read_error::{BadInput, ReadError};
use std::alloc::{AllocError, Global};
use stm_history::Text;

/// The place, seen from the array in which its value is the element at an index.
fn place_within(alloc: Global, index: usize, place: &Text) -> Result<Text, AllocError>
    ensures { IfOk result (λ t. t ≡ step index ++ place.now) }
{
    let rest = place.as_str();
    let string = format!(in alloc; "/{index}{rest}")?;
    Ok(Text::new(string))
}

/// The outcome at an element, as an outcome of its array: the index is put in front of a fault's place.
///
/// A value stays as it is, and so does `OutOfMemory`. The new place is allocated; where that fails,
/// the result is `OutOfMemory` instead of the fault.
pub fn within<T>(alloc: Global, index: usize, outcome: Result<T, ReadError>) -> Result<T, ReadError>
    ensures { Wraps index outcome result }
{
    match outcome {
        Err(ReadError::Bad(fault)) => {
            let BadInput { place, cause } = fault;
            let place = place_within(alloc, index, &place)?;
            Err(ReadError::Bad(BadInput { place, cause }))
        }
        Err(ReadError::OutOfMemory) => Err(ReadError::OutOfMemory),
        Ok(value) => Ok(value),
    }
}

/// A fault of the value at hand. It allocates nothing.
pub fn fault(alloc: Global, cause: Cause) -> ReadError
    ensures { result ≡ Bad (record { place = []; cause = cause }) }
{
    ReadError::Bad(BadInput {
        place: Text::new(String::new(alloc)),
        cause,
    })
}

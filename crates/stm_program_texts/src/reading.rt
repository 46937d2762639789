//! Reading programs.
ghost use Rattle.stm_json.specs.Returns.{Returns};
ghost use Rattle.stm_program_texts.specs.Reading.{program_in};

use serde_json::Value;
use std::alloc::Global;
use stm_json::{Cause, MOST_BYTES, ReadError, fault};
use stm_program::Program;
use stm_program_json::read_program;

/// The program that bytes spell, as JSON in UTF-8.
#[tactic(auto, unfolding(crate::specs::Reading::program_in))]
fn program_of_bytes(alloc: Global, bytes: &[u8]) -> Result<Program, ReadError>
    ensures { Returns (λ p. p) result (program_in bytes.now) }
{
    if bytes.len() > MOST_BYTES {
        return Err(fault(alloc, Cause::TooLong));
    }
    match Value::from_slice(alloc, bytes) {
        Ok(value) => read_program(alloc, &value),
        Err(error) => {
            if error.is_memory() {
                Err(ReadError::OutOfMemory)
            } else {
                Err(fault(alloc, Cause::NotJson))
            }
        }
    }
}

/// The program that bytes spell, as JSON in UTF-8.
///
/// It fails by the first fault of the text, with its place and cause: more than 16777216 bytes are too long, whatever they are; then bytes that
/// are not JSON; then the first fault of the program in reading order. Or it fails as `OutOfMemory`, where an allocation failed.
pub fn read_program_text(alloc: Global, bytes: &[u8]) -> Result<Program, ReadError>
    ensures { Returns (λ p. p) result (program_in bytes.now) }
{
    program_of_bytes(alloc, bytes)
}

//! The words that the system gave this process.
ghost use Rattle.std.specs.Prelude.{◌≡◌, ◌⊎◌, take, Err as ErrOf, IfErr, IfOk, IsErrAnd, IsOk};
ghost use Rattle.std.specs.Vec.Iter.{into_iter_items, into_iter_len};
ghost use Rattle.std.specs.IoError.{error_kind};
ghost use Rattle.std.specs.declared.io.ErrorKind.TheVariants.{InvalidData};
ghost use Rattle.stm_arguments.specs.declared.given.WordsFault.TheVariants.{NotText, OutOfMemory};

use crate::arguments::fail;
use std::alloc::{AllocError, Global};
use std::rt::Env;
use std::{env, io};

/// Why the words of the command line could not be read.
enum WordsFault {
    /// An allocation failed.
    OutOfMemory,
    /// One of them is not UTF-8.
    NotText,
}

/// What is said of words that are not UTF-8, in the manner of the other usage faults.
const NOT_TEXT: &str = "error: the command line is not UTF-8

Usage: stmrun <COMMAND>

For more information, try '--help'.";

/// The words that these arguments are still to give, in their order.
fn words_left(alloc: Global, arguments: env::Args) -> Result<Vec<String>, AllocError>
    ensures { IfOk result (λ words. words.items ≡ take (into_iter_len arguments) (into_iter_items arguments)) }
{
    let mut words = Vec::new(alloc);
    for word in arguments {
        words.push(word)?;
    }
    Ok(words)
}

/// All words that the system gave, or why there are none: one is no text, or an allocation failed.
fn words_given(alloc: Global, given: io::Result<env::Args>) -> Result<Vec<String>, WordsFault>
    ensures words { IfOk result (λ words. IfOk given (λ arguments. words.items ≡ take (into_iter_len arguments) (into_iter_items arguments))) }
    ensures given { IfOk result (λ words. IsOk given) }
    ensures no_text { IfErr given (λ error. error_kind error ≡ InvalidData → result ≡ ErrOf NotText) }
    ensures fault { IfErr result (λ fault. (fault ≡ OutOfMemory) ⊎ IsErrAnd given (λ error. error_kind error ≡ InvalidData)) }
{
    match given {
        Ok(arguments) => match words_left(alloc, arguments) {
            Ok(words) => Ok(words),
            Err(_) => Err(WordsFault::OutOfMemory),
        },
        Err(error) if error.kind() == io::ErrorKind::InvalidData => Err(WordsFault::NotText),
        Err(_) => Err(WordsFault::OutOfMemory),
    }
}

/// The words of this process's command line, or the status where they cannot be read, which was printed: 2 where one of
/// them is not UTF-8, and 3 where an allocation failed.
pub fn read_words<R: Eprint + Env + AllocGlobal>(rt: &R) -> Result<Vec<String>, u8>
    ensures { IfErr result (λ status. (status ≡ 2) ⊎ (status ≡ 3)) }
{
    match words_given(rt.alloc(), env::args(rt)) {
        Ok(words) => Ok(words),
        Err(WordsFault::NotText) => Err(fail(rt, NOT_TEXT, 2)),
        Err(WordsFault::OutOfMemory) => Err(fail(rt, "stmrun: out of memory", 3)),
    }
}

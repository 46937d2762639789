//! What `clap` has found in the places of arguments.
ghost use Rattle.std.specs.Prelude.{◌≡◌, IfOk, IfErr, None, map, option_map};
ghost use Rattle.clap.specs.Words.{first_of, found_of, rows_of};
ghost use Rattle.stm_arguments.specs.Asking.{is_set, words_at};

use clap::ArgMatches;
use std::alloc::{AllocError, Global};

/// Why nothing is asked for by what was found.
#[derive(Clone, Copy)]
pub(crate) enum Unasked {
    /// An allocation failed.
    OutOfMemory,
    /// A word is missing or is none of those that stand there, which `clap` has refused before.
    Refused,
}

impl From<AllocError> for Unasked {
    fn from(_: AllocError) -> Unasked {
        Unasked::OutOfMemory
    }
}

/// The word in the place of an argument.
pub(crate) fn word_of<'a>(found: &ArgMatches<'a>, name: &str) -> Option<&'a str>
    ensures { option_map (λ word. word.now) result ≡ first_of name.now (rows_of (found_of found.now)) }
{
    found.get_str(name)
}

/// The word in the place of an argument that has to be there.
pub(crate) fn required_word<'a>(found: &ArgMatches<'a>, name: &str) -> Result<&'a str, Unasked>
    ensures word { IfOk result (λ word. option_map (λ w. w.now) (Some word) ≡ first_of name.now (rows_of (found_of found.now))) }
    ensures missing { IfErr result (λ _. first_of name.now (rows_of (found_of found.now)) ≡ None) }
{
    match word_of(found, name) {
        Some(word) => Ok(word),
        None => Err(Unasked::Refused),
    }
}

/// The words of an argument that may have several, in their order.
pub(crate) fn words_of<'a>(
    alloc: Global,
    found: &ArgMatches<'a>,
    name: &str,
) -> Result<Vec<&'a str>, AllocError>
    ensures { IfOk result (λ words. map (λ word. word.now) words.items ≡ words_at name.now (rows_of (found_of found.now))) }
{
    match found.get_strs(name) {
        Some(words) => Vec::from_slice(alloc, words),
        None => Ok(Vec::new(alloc)),
    }
}

/// Whether a flag is set.
pub(crate) fn flag_of(found: &ArgMatches<'_>, name: &str) -> bool
    ensures { result ≡ is_set (first_of name.now (rows_of (found_of found.now))) }
{
    match word_of(found, name) {
        Some(word) => word == "true" || word == "always",
        None => false,
    }
}

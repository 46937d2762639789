//! The names of runners, by their numbers.

use crate::items::names_of;
use crate::wanted::allowed;
use crate::whole::Beside;
use std::alloc::{AllocError, Global};
use stm_explain::Said;
use stm_history::Text;
use stm_tokens::tokens_of;

/// A runner that a source names.
#[derive(Debug, Drop)]
pub struct NamedRunner {
    /// Its number.
    pub number: u64,
    /// Its name.
    pub name: Text,
}

/// The number of the runner of a name.
fn number_of(beside: &Beside, name: &str) -> Option<u64> {
    let place = beside.names.place(name)?;
    match beside.numbers.as_slice().get(place) {
        Some(number) => *number,
        None => None,
    }
}

/// The runners that a source names, in the order of their starts. It fails only when out of memory.
pub fn named_runners(
    alloc: Global,
    source: &[u8],
    beside: &Beside,
) -> Result<Vec<NamedRunner>, AllocError> {
    let tokens = tokens_of(alloc, source)?;
    let names = names_of(alloc, tokens.as_slice())?;
    let mut runners = Vec::new(alloc);
    for name in names.as_slice() {
        if let Some(number) = number_of(beside, name) {
            let name = Text::copy_of(alloc, name)?;
            runners.push(NamedRunner { number, name })?;
        }
    }
    Ok(runners)
}

/// The name of a runner, where it has one.
pub fn name_of_runner(runners: &[NamedRunner], number: u64) -> Option<&str> {
    match runners.iter().find(|runner| runner.number == number) {
        Some(runner) => Some(runner.name.as_str()),
        None => None,
    }
}

/// Which names these runners have, and which of them is nearest to a name that is none of them. It fails only when out of memory.
pub fn runners_named(alloc: Global, runners: &[NamedRunner], name: &str) -> Said {
    let mut names = Vec::new(alloc);
    for runner in runners {
        names.push(runner.name.as_str())?;
    }
    allowed(alloc, names.as_slice(), "", name)
}

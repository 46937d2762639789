//! Which argument of a start is of another kind than its program wants.

use crate::calls::takes_list;
use crate::other_kinds::is_number;
use crate::second_uses::line_of_second_use;
use crate::spots::{Spot, behind, spelled};
use std::alloc::{AllocError, Global};
use stm_explain::Said;
use stm_source::{Kind, kinds_wanted};
use stm_tokens::Token;

/// An argument of another kind than is wanted.
#[derive(Clone, Copy)]
struct Misfit {
    /// Its number, from 1.
    number: usize,
    /// Whether a number is wanted there, and not a text.
    wants_number: bool,
}

/// Whether a number is wanted in a place, and not a text; nothing where either may stand there.
fn wants_number(kinds: &[Kind], place: usize) -> Option<bool> {
    match kinds.get(place) {
        Some(Kind::Number) => Some(true),
        Some(Kind::Text) => Some(false),
        Some(Kind::Either) | None => None,
    }
}

/// The arguments among these tokens, behind their bracket, that are of another kind than is wanted.
fn misfits_in(alloc: Global, tokens: &[Token], kinds: &[Kind]) -> Result<Vec<Misfit>, AllocError> {
    let mut misfits = Vec::new(alloc);
    let mut number = 1usize;
    for token in tokens {
        match spelled(token) {
            ")" => return Ok(misfits),
            "," => number = number.saturating_add(1),
            _ => {}
        }
        if let Some(wants_number) = wants_number(kinds, number.saturating_sub(1)) {
            if is_number(Some(token)) == Some(!wants_number) {
                misfits.push(Misfit {
                    number,
                    wants_number,
                })?;
            }
        }
    }
    Ok(misfits)
}

/// What is said of an argument that is of another kind than is wanted, and in which line, where that is known.
fn misfit_words(alloc: Global, name: &str, misfit: Misfit, line: Option<usize>) -> Said {
    let number = misfit.number;
    let words = if misfit.wants_number {
        "a text, where the program needs a number"
    } else {
        "a number, where the program needs a text"
    };
    match line {
        Some(line) => format!(in alloc; "argument {number} of {name} is {words}, in line {line}"),
        None => format!(in alloc; "argument {number} of {name} is {words}"),
    }
}

/// What is said of a program that cannot be started with these arguments, none of which is of another kind than the first place that it stands in wants.
fn both_words(alloc: Global, spot: Spot<'_>, name: &str) -> Said {
    if takes_list(spot.before, name) {
        return format!(in alloc;
            "{name} cannot be started with these arguments: the last ones are of two kinds, or one of them is wanted as a text and as a number"
        );
    }
    match line_of_second_use(alloc, spot, name)? {
        Some(line) => format!(in alloc;
            "{name} cannot be started with these arguments: one is wanted as a text, and in line {line} as a number: num_of(TEXT) makes a number of it there"
        ),
        None => format!(in alloc;
            "{name} cannot be started with these arguments: one is wanted as a text and as a number: text_of(NUMBER) makes a text of it there"
        ),
    }
}

/// What is said of the name of a program that is started, with which argument it cannot be. The line in which the program wants another kind is said of one
/// that is the only such argument.
fn said_of_name(alloc: Global, spot: Spot<'_>, name: &str) -> Said {
    let start = match spot.before.last() {
        Some(start) => start.at,
        None => 0,
    };
    let kinds = kinds_wanted(alloc, spot.between(0, start).as_bytes(), name)?.into_vec();
    let misfits = misfits_in(alloc, behind(spot.from, 1), kinds.as_slice())?;
    match misfits.as_slice() {
        [] => both_words(alloc, spot, name),
        [misfit] => {
            let line = line_of_second_use(alloc, spot, name)?;
            misfit_words(alloc, name, *misfit, line)
        }
        [misfit, ..] => misfit_words(alloc, name, *misfit, None),
    }
}

/// What is said of a start whose argument is of another kind than its program wants, at the name of the program or at the argument; nothing elsewhere.
pub(crate) fn said_of_start(alloc: Global, spot: Spot<'_>) -> Result<Option<String>, AllocError> {
    if spot.call.before == "start" {
        let misfit = Misfit {
            number: spot.call.values.saturating_add(1),
            wants_number: is_number(spot.from.first()) == Some(false),
        };
        return Ok(Some(misfit_words(alloc, spot.call.word, misfit, None)?));
    }
    if spot.back(0) == "start" && !spot.name().is_empty() {
        return Ok(Some(said_of_name(alloc, spot, spot.name())?));
    }
    Ok(None)
}

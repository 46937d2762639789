//! The names that a source gives to its programs, rules and runners.

use crate::calls::is_asked;
use crate::items::{items_of, names_of};
use crate::naming::is_awaited;
use crate::spots::{Place, Spot, behind, is_one_of, last_from, name_of, spelled, spelled_at};
use crate::wanted::{allowed, nearest};
use std::alloc::{AllocError, Global};
use stm_explain::Said;
use stm_tokens::{Token, tokens_of};

/// The words behind which a program, a rule or a final has its name.
const TITLED: [&str; 3] = ["program", "rule", "finally"];

/// The names that stand among tokens directly behind one of these words, in their order.
fn names_behind<'a>(
    alloc: Global,
    tokens: &'a [Token],
    words: &[&str],
) -> Result<Vec<&'a str>, AllocError> {
    let mut names = Vec::new(alloc);
    let mut before = "";
    for token in tokens {
        let name = name_of(token);
        if !name.is_empty() && is_one_of(before, words) {
            names.push(name)?;
        }
        before = spelled(token);
    }
    Ok(names)
}

/// Adds the names that the head of an item gives to parameters, and its statements to variables.
fn push_inner<'a>(names: &mut Vec<&'a str>, item: &'a [Token]) -> Result<(), AllocError> {
    let mut is_head = matches!(spelled_at(item, 0), "let" | "program");
    let mut gives = false;
    for token in behind(item, 2) {
        let word = spelled(token);
        is_head = is_head && !matches!(word, "{" | "=");
        let name = name_of(token);
        if (is_head || gives) && !name.is_empty() {
            names.push(name)?;
        }
        gives = matches!(word, "let" | "for");
    }
    Ok(())
}

/// The names that are given before a token in the item to which it belongs, and outside of programs in those before that.
fn given_names<'a>(alloc: Global, spot: Spot<'a>) -> Result<Vec<&'a str>, AllocError> {
    let items = items_of(alloc, spot.before)?;
    let mut names = Vec::new(alloc);
    let mut inner: &[Token] = &[];
    for item in items.as_slice() {
        if spelled_at(inner, 0) == "let" {
            names.push(spelled_at(inner, 1))?;
        }
        inner = item.tokens;
    }
    push_inner(&mut names, inner)?;
    Ok(names)
}

/// The name given before it that is nearest to one that stands there, if it has at least three characters; an empty one where none is near.
pub(crate) fn near_name<'a>(alloc: Global, spot: Spot<'a>) -> Result<&'a str, AllocError> {
    let name = spot.name();
    if name.len() < 3 {
        return Ok("");
    }
    let names = given_names(alloc, spot)?;
    if is_one_of(name, names.as_slice()) {
        return Ok("");
    }
    nearest(alloc, names.as_slice(), name)
}

/// The byte at which a `let` behind a place gives the name there, in its block or outside of all; none, where none does.
pub(crate) fn let_below(alloc: Global, spot: Spot<'_>) -> Result<Option<usize>, AllocError> {
    let items = items_of(alloc, spot.from)?;
    for item in items.as_slice() {
        if spelled_at(item.tokens, 0) == "let" && spelled_at(item.tokens, 1) == spot.name() {
            return Ok(Some(item.at));
        }
    }
    Ok(None)
}

/// Which these names are; nothing, where there are none, or a name is one of them.
fn others_of(alloc: Global, names: &[&str], name: &str) -> Result<Option<String>, AllocError> {
    if names.is_empty() || is_one_of(name, names) {
        return Ok(None);
    }
    let words = allowed(alloc, names, "", name)?;
    Ok(Some(words))
}

/// Which names the programs, rules and finals among tokens have, of which this is none.
pub(crate) fn titles_but(alloc: Global, tokens: &[Token], name: &str) -> Said {
    let titles = names_behind(alloc, tokens, &TITLED)?;
    match others_of(alloc, titles.as_slice(), name)? {
        Some(words) => Ok(words),
        None => String::from_str(alloc, "there are none"),
    }
}

/// What is said of a name that is none of a source's programs, rules and finals: which those are; nothing, where it is one of them. It fails only when out
/// of memory.
pub fn unknown_in(alloc: Global, source: &[u8], name: &str) -> Result<Option<String>, AllocError> {
    let tokens = tokens_of(alloc, source)?;
    let titles = names_behind(alloc, tokens.as_slice(), &TITLED)?;
    let words = others_of(alloc, titles.as_slice(), name)?;
    Ok(words)
}

/// What is said of a name that is no program or runner, as these are: which those are; nothing where there are none.
fn said_of_others(
    alloc: Global,
    found: &str,
    name: &str,
    what: &str,
    names: &[&str],
) -> Result<Option<String>, AllocError> {
    if names.is_empty() {
        return Ok(None);
    }
    let words = allowed(alloc, names, "", name)?;
    let said = format!(in alloc; "{found} is no {what} above: {words}")?;
    Ok(Some(said))
}

/// The tokens of the start that waits in a place, from its word on.
fn waiting(spot: Spot<'_>) -> &[Token] {
    last_from(spot.before, &["start"])
}

/// What is said of a name that is none of the runners above a place outside of programs, and is given elsewhere, or is a word of waiting; nothing of others.
fn said_of_other_place(
    alloc: Global,
    spot: Spot<'_>,
    waits: bool,
) -> Result<&'static str, AllocError> {
    let name = spot.name();
    let own = names_of(alloc, waiting(spot))?;
    let below = names_of(alloc, spot.from)?;
    Ok(match name {
        "committed" => "stands behind the runner that a start waits for: after RUNNER committed",
        "after" => "stands in a start alone: start NAME(ARGUMENT, ..) after RUNNER",
        _ if waits && is_one_of(name, own.as_slice()) => {
            "is started here, and no runner waits for itself"
        }
        _ if is_one_of(name, below.as_slice()) => {
            "is started below, and a runner is named below its start"
        }
        _ => "",
    })
}

/// What is said of a name in the place of a runner, which there are above it, where there are any.
fn said_of_runner(
    alloc: Global,
    found: &str,
    spot: Spot<'_>,
) -> Result<Option<String>, AllocError> {
    let waits = spot.event == "start" && is_awaited(spot);
    let own = if waits { waiting(spot).len() } else { 0 };
    let above = spot
        .before
        .get(..spot.before.len().saturating_sub(own))
        .unwrap_or(&[]);
    let names = names_of(alloc, above)?;
    let why = match spot.place {
        _ if is_one_of(spot.name(), names.as_slice()) => {
            "makes no steps: a start with limit 0 is refused, and no runner waits for itself"
        }
        Place::Events => said_of_other_place(alloc, spot, waits)?,
        _ if names.is_empty() => {
            "is no runner above: a finally stands behind the starts of the runners that it asks for"
        }
        _ => "",
    };
    if why.is_empty() {
        return said_of_others(alloc, found, spot.name(), "runner", names.as_slice());
    }
    let said = format!(in alloc; "{found} {why}")?;
    Ok(Some(said))
}

/// What is said of a name in the place of a program or a runner: which there are above it; nothing elsewhere, or where there are none.
pub(crate) fn said_of_names(
    alloc: Global,
    found: &str,
    spot: Spot<'_>,
) -> Result<Option<String>, AllocError> {
    match (spot.place, spot.back(0)) {
        (Place::Events, "start") => {
            let names = names_behind(alloc, spot.before, &["program"])?;
            said_of_others(alloc, found, spot.name(), "program", names.as_slice())
        }
        (Place::Events, "watch") => Ok(None),
        (Place::Events, _) if spot.event == "step" || is_awaited(spot) => {
            said_of_runner(alloc, found, spot)
        }
        (Place::Events, _) => Ok(None),
        _ if is_asked(spot) => said_of_runner(alloc, found, spot),
        _ => Ok(None),
    }
}

//! Which brace is open where a `}` is missing.

use crate::spots::{Spot, behind, first_open, spelled};
use std::alloc::{AllocError, Global};
use stm_explain::Said;
use stm_tokens::Position;

/// How many blanks the line of a byte begins with, up to that byte.
fn indentation(spot: Spot<'_>, at: usize) -> usize {
    let mut blanks = 0usize;
    for byte in spot.between(0, at).as_bytes().iter().rev() {
        match *byte {
            b'\n' => return blanks,
            b' ' | b'\t' => blanks = blanks.saturating_add(1),
            _ => blanks = 0,
        }
    }
    blanks
}

/// The bytes at which the first brace is opened and closed, of those behind the first bracket that is open before a place, which is closed in a line that
/// begins further left or right than its own: the one that closes it may be meant for another.
fn misfit(alloc: Global, spot: Spot<'_>) -> Result<Option<(usize, usize)>, AllocError> {
    let mut open = Vec::new(alloc);
    let first = first_open(spot.before).unwrap_or(spot.before.len());
    for token in behind(spot.before, first) {
        match spelled(token) {
            "{" => open.push(token.at)?,
            "}" => if let Some(opened) = open.pop() {
                if indentation(spot, opened) != indentation(spot, token.at) {
                    return Ok(Some((opened, token.at)));
                }
            },
            _ => {}
        }
    }
    Ok(None)
}

/// What is said of a brace that is closed by one which may be meant for another.
fn misfit_words(alloc: Global, spot: Spot<'_>) -> Said {
    let Some((opened, closed)) = misfit(alloc, spot)? else {
        return Ok(String::new(alloc));
    };
    let opened = spot.position(opened);
    let closed = spot.position(closed);
    let (from, from_column) = (opened.line, opened.column);
    let (to, to_column) = (closed.line, closed.column);
    let (left, right) = ("{", "}");
    format!(in alloc;
        ", since the {right} at {to}:{to_column} closes the {left} at {from}:{from_column}"
    )
}

/// Which brace is open before a place, and whether one is closed in it by one that may be meant for it; nothing, where none is open outside of parentheses.
pub(crate) fn said_of_open(alloc: Global, spot: Spot<'_>) -> Said {
    let Some(at) = spot.open_brace() else {
        return Ok(String::new(alloc));
    };
    let misfit = misfit_words(alloc, spot)?;
    let Position { line, column } = spot.position(at);
    let left = "{";
    format!(in alloc; "; the {left} at {line}:{column} is open{misfit}")
}

//! What is said of a value that is of another kind than is wanted.

use crate::calls::given_from;
use crate::forms::{form_in, form_of};
use crate::spots::{Spot, is_comparison, is_literal, spelled};
use std::alloc::Global;
use stm_explain::Said;
use stm_tokens::{Token, TokenKind};

/// A line of more bytes than this is not shown.
const MOST_SHOWN: usize = 100;

/// Whether a value that begins with this token is a number, and not a text; nothing where the token does not tell.
pub(crate) fn is_number(token: Option<&Token>) -> Option<bool> {
    let token = token?;
    match &token.kind {
        TokenKind::Number(_) => Some(true),
        TokenKind::Text(_) => Some(false),
        _ if spelled(token) == "-" => Some(true),
        _ => form_of(spelled(token))?.gives_number,
    }
}

/// Whether a number is wanted beside this word, and not a text; nothing where the word does not tell.
fn wants_number_beside(word: &str) -> Option<bool> {
    match word {
        "+" | "-" | "*" | "/" | "%" | "+=" | "-=" | ".." => Some(true),
        "++" | "++=" => Some(false),
        _ => None,
    }
}

/// Whether a number is wanted in a place where the other kind stands, and not a text; nothing where what stands there does not tell.
fn wants_number(spot: Spot<'_>) -> Option<bool> {
    if let Some(is) = is_number(spot.from.first()) {
        return Some(!is);
    }
    let beside = wants_number_beside(spot.ahead(1)).or(wants_number_beside(spot.back(0)));
    match beside {
        Some(wants) => Some(wants),
        None => form_in(spot)?.takes_number,
    }
}

/// Whether a name, or parentheses, with an operator of numbers behind it begins what a call wants as a text.
fn begins_text_of_numbers(spot: Spot<'_>) -> bool {
    let takes_text = match form_in(spot) {
        Some(form) => form.takes_number == Some(false),
        None => false,
    };
    takes_text
        && matches!(spot.back(0), "(" | ",")
        && is_number(spot.from.first()).is_none()
        && wants_number_beside(spot.ahead(1)) == Some(true)
}

/// What is said of a value that is compared with one of the other kind, and is a number or a text, where its first token tells.
fn said_of_compared(alloc: Global, found: &str, is_number: Option<bool>) -> Said {
    match is_number {
        Some(false) => format!(in alloc;
            "found {found}, where a number is wanted as on the left: a number stands without quotes, and text_of(NUMBER) makes a text of one"
        ),
        Some(true) => format!(in alloc;
            "found {found}, where a text is wanted as on the left: a text stands in quotes, and num_of(TEXT) makes a number of one"
        ),
        None => format!(in alloc;
            "{found} is of another kind than the left side: num_of(TEXT) makes a number of a text, text_of(NUMBER) a text of a number"
        ),
    }
}

/// The line in which a value with parameters is defined that is named there; nothing where none is, or the line is long.
fn definition_of(spot: Spot<'_>) -> &str {
    let Some(given) = given_from(spot.before, spot.name()).first() else {
        return "";
    };
    match spot.between(given.at, spot.source.len()).lines().next() {
        Some(line) if line.len() <= MOST_SHOWN => line.trim(),
        _ => "",
    }
}

/// What is said of a value in whose place the other kind is wanted, by what stands beside it.
fn said_of_wanted(alloc: Global, found: &str, spot: Spot<'_>) -> Said {
    let is_added = spot.ahead(1) == "+" || spot.back(0) == "+";
    let words = match (wants_number(spot), is_literal(spot.from.first())) {
        (Some(true), _) if is_added => {
            "a number is wanted: texts are joined by ++, and num_of(TEXT) makes a number of one"
        }
        (Some(true), true) => {
            "a number is wanted: a number stands without quotes, and num_of(TEXT) makes one of a text"
        }
        (Some(true), false) => "a number is wanted: num_of(TEXT) makes one of a text",
        (Some(false), true) => {
            "a text is wanted: a text stands in quotes, and text_of(NUMBER) makes one of a number"
        }
        (Some(false), false) => "a text is wanted: text_of(NUMBER) makes one of a number",
        (None, _) => {
            return format!(in alloc;
                "{found} is of the other kind: a text where a number is wanted, or a number where a text is"
            );
        }
    };
    format!(in alloc; "found {found}, where {words}")
}

/// What is said of a value that is of another kind than is wanted.
pub(crate) fn said_of_value(alloc: Global, found: &str, spot: Spot<'_>) -> Said {
    let definition = definition_of(spot);
    if !definition.is_empty() {
        return format!(in alloc;
            "{found} is of another kind than is wanted here, or an argument of another than it takes: {definition}"
        );
    }
    if is_comparison(spot.back(0)) {
        return said_of_compared(alloc, found, is_number(spot.from.first()));
    }
    if begins_text_of_numbers(spot) {
        return format!(in alloc;
            "{found} begins a number, where a text is wanted: text_of(NUMBER) makes one of it, and ++ joins texts"
        );
    }
    if spot.ahead(1) == "+=" {
        return format!(in alloc;
            "{found} is a text, where a number is wanted: a text is added to one by NAME ++= TEXT"
        );
    }
    said_of_wanted(alloc, found, spot)
}

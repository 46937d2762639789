//! What stands, and what is wanted, in the parentheses of a call.

use crate::forms::{ANY_END, form_in};
use crate::spots::{Spot, behind, first_from, open_behind, spelled, spelled_at};
use stm_tokens::Token;

/// Whether a place is among the parameters of a program.
pub(crate) fn is_parameter(spot: Spot<'_>) -> bool {
    spot.call.before == "program"
}

/// Whether a place is among the arguments of a start.
pub(crate) fn is_argument(spot: Spot<'_>) -> bool {
    spot.call.before == "start"
}

/// Whether a place is in the parentheses of what a final asks of a runner.
pub(crate) fn is_asked(spot: Spot<'_>) -> bool {
    matches!(spot.call.word, "end" | "why" | "out")
}

/// How many names or values stand in the parentheses behind the first of these tokens, with commas between them; none where there are no parentheses.
pub(crate) fn listed_behind(tokens: &[Token]) -> usize {
    if spelled_at(tokens, 1) != "(" {
        return 0;
    }
    let mut count = 0usize;
    let mut open = 1usize;
    for token in behind(tokens, 2) {
        open = open_behind(open, token);
        match spelled(token) {
            "{" => return count,
            _ if open == 0 => return count,
            "," if open == 1 => count = count.max(1).saturating_add(1),
            _ => count = count.max(1),
        }
    }
    count
}

/// The tokens from the word on behind which a name is given to a program, or to a value with parameters; none where neither has the name.
pub(crate) fn given_from<'a>(tokens: &'a [Token], name: &str) -> &'a [Token] {
    for (index, token) in tokens.iter().enumerate() {
        let from = behind(tokens, index);
        let gives = match spelled(token) {
            "program" => true,
            "let" => spelled_at(from, 2) == "(",
            _ => false,
        };
        if gives && !name.is_empty() && spelled_at(from, 1) == name {
            return from;
        }
    }
    &[]
}

/// How many parameters the program or the value of a name has that is defined among these tokens.
pub(crate) fn parameters_of(tokens: &[Token], name: &str) -> usize {
    listed_behind(behind(given_from(tokens, name), 1))
}

/// Whether the last parameter of the program of a name, which is defined among these tokens, stands for all arguments that are left.
pub(crate) fn takes_list(tokens: &[Token], name: &str) -> bool {
    spelled_at(first_from(given_from(tokens, name), &["..", ")"]), 0) == ".."
}

/// What is wanted behind a runner of whom a final asks something.
pub(crate) fn behind_asked(spot: Spot<'_>) -> &'static str {
    match (spot.call.word, spot.call.values) {
        ("out", 0) => "a comma and the place of an output, from 0 on, out(RUNNER, PLACE),",
        ("out", _) => "the ) of out(RUNNER, PLACE)",
        ("why", _) => "the ) of why(RUNNER)",
        _ => "the ) of end(RUNNER)",
    }
}

/// What is wanted in a place where a value of a call begins.
pub(crate) fn value_in(spot: Spot<'_>) -> &'static str {
    match (spot.call.word, spot.call.values, form_in(spot)) {
        ("put", 1, _) => "the value of put(KEY, VALUE)",
        ("put", values, _) if values > 1 => "the lease of put(KEY, VALUE, LEASE), a number",
        (_, _, Some(form)) => form.value,
        _ => "a value",
    }
}

/// What is wanted behind a value in parentheses, beside an operator.
pub(crate) fn behind_value(spot: Spot<'_>) -> &'static str {
    match (spot.call.word, spot.call.values, form_in(spot)) {
        ("put", 1, _) => {
            "the ) of put(KEY, VALUE), or a comma and the lease of put(KEY, VALUE, LEASE)"
        }
        ("put", values, _) if values > 1 => "the ) of put(KEY, VALUE, LEASE)",
        ("get", _, _) if spot.event == "txn" => "the ) of get(KEY), or a comma and a revision",
        (_, _, Some(form)) => form.behind,
        _ => ANY_END,
    }
}

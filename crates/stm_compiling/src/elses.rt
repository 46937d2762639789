//! What is said of an `else` of a look-up, or of a definition that has one, where there may be none.

use crate::spots::{Spot, behind, is_literal, spelled_at};
use crate::wanted::{is_behind_condition_word, is_behind_operator, is_behind_sign};
use stm_tokens::Token;

/// Whether a `&&` or `||` stands before a token in its condition.
fn is_behind_connective(spot: Spot<'_>) -> bool {
    matches!(spot.last_of(&["&&", "||", "{", "}", "if"]), "&&" | "||")
}

/// What is said of the `else` of a look-up.
fn said_of_look_up(spot: Spot<'_>) -> &'static str {
    if is_behind_connective(spot) {
        return "what stands behind && or || is not always looked up: let NAME = get(KEY) else VALUE stands before the if, and NAME in it";
    }
    "an else of a look-up stands behind the ) of its get, and not beside v0 to v15"
}

/// What is said of the name of a definition that has an `else`.
fn said_of_definition(spot: Spot<'_>) -> &'static str {
    if is_behind_connective(spot) {
        return "it is defined with an else, and what stands behind && or || is not always looked up: let NAME = its value stands before the if, and NAME in it";
    }
    "it is defined with an else, which stands neither beside v0 to v15 nor within another one"
}

/// Whether a text or a number as it stands is given to a name, by the tokens from its `let` on: then it is a constant, and has no `else`.
fn is_constant(tokens: &[Token]) -> bool {
    spelled_at(tokens, 2) == "=" && is_literal(tokens.get(3))
}

/// Whether a `let` before a token gives this name to what is no constant.
fn is_given(spot: Spot<'_>, name: &str) -> bool {
    for index in 0..spot.before.len() {
        let from = behind(spot.before, index);
        if spelled_at(from, 0) == "let" && spelled_at(from, 1) == name {
            return !is_constant(from);
        }
    }
    false
}

/// What is said of an `else` of a look-up, or of the name of a definition that has one, where there may be none; nothing of other tokens, and of a name
/// behind the sign of a number.
pub(crate) fn said_of_else(spot: Spot<'_>) -> &'static str {
    let name = spot.name();
    let begins_value = is_behind_operator(spot) || is_behind_condition_word(spot);
    match spot.ahead(0) {
        _ if is_behind_sign(spot) => "",
        "else" if spot.back(0) == ")" => said_of_look_up(spot),
        _ if !name.is_empty() && begins_value && is_given(spot, name) => said_of_definition(spot),
        _ => "",
    }
}

//! What is said of signs and words that stand where other languages have them, and this one does not.

use crate::calls::is_parameter;
use crate::forms::form_in;
use crate::habits::first_said;
use crate::spots::{Place, Spot, is_comparison, name_of};
use crate::wanted::is_behind_operator;

/// What a condition is that stands in the place of a value.
pub(crate) const CONDITION: &str =
    "a condition stands in an if alone: let NAME = 0 if CONDITION { NAME = 1 }";

/// How one of two values is chosen.
pub(crate) const CHOICE: &str =
    "an if chooses between values: let NAME = VALUE if CONDITION { NAME = OTHER }";

/// What stands for the value of a key that is absent.
pub(crate) const OTHER_TEXT: &str =
    "what the value \"\" counts as stands behind an else: get(KEY) else TEXT";

/// What is said of a sign that goes on after another one, as no sign does here; nothing of others.
fn said_of_joined(spot: Spot<'_>) -> &'static str {
    match (spot.back(0), spot.ahead(0)) {
        ("..", "=") => "a loop that counts has its end excluded: for NAME in 0..COUNT",
        ("==" | "!=", "=") => "values are compared by == and !=",
        ("<", ">") => "values that differ are compared by !=",
        _ => "",
    }
}

/// What is said of a comparison in the parentheses of a word that takes values.
fn said_of_comparison(spot: Spot<'_>) -> &'static str {
    if spot.is_before_a_block() {
        "the ) before it is missing, as in get(KEY) == TEXT"
    } else {
        CONDITION
    }
}

/// What is said of a symbol in parentheses; nothing of others.
fn said_in_parentheses(spot: Spot<'_>) -> &'static str {
    match (spot.call.word, spot.ahead(0)) {
        _ if spot.place != Place::Parentheses || spot.event == "txn" => "",
        (word, sign) if is_comparison(sign) && word != "prefetch" && form_in(spot).is_some() => {
            said_of_comparison(spot)
        }
        ("get", ",") => {
            "a get has one key, and behind it may stand what the value \"\" counts as: get(KEY) else TEXT"
        }
        (_, "..") if is_parameter(spot) => {
            "the dots of all arguments that are left stand behind the name: NAME.."
        }
        _ => "",
    }
}

/// What is said of a token by those before it, in a loop, a definition or behind an `else`; nothing of others.
fn said_of_head(spot: Spot<'_>) -> &'static str {
    match (spot.back(1), spot.back(0), spot.ahead(0)) {
        ("for", _, ",") => {
            "a loop has one name: for NAME in ITEM, ITEM { .. }, or for NAME in 0..COUNT { .. }, which counts"
        }
        (_, "(", ")") if spot.back(2) == "let" => {
            "a definition without parameters has no parentheses: let NAME = VALUE"
        }
        ("}", "else", _) => {
            "behind an else stands its block, or another if: else if CONDITION { .. }"
        }
        _ => "",
    }
}

/// What is said of a symbol or a word that has no place in its line, whether a block follows or not; nothing of others.
pub(crate) fn said_anywhere(spot: Spot<'_>) -> &'static str {
    first_said(&[
        said_of_joined(spot),
        said_of_head(spot),
        said_in_parentheses(spot),
    ])
}

/// Whether a place is in a rule or a final.
fn is_in_rule(spot: Spot<'_>) -> bool {
    matches!(
        spot.last_of(&["rule", "finally", "program", "start"]),
        "rule" | "finally"
    )
}

/// Whether a name stands behind a token, and `=` behind that.
fn is_before_let(spot: Spot<'_>) -> bool {
    let is_name = match spot.from.get(1) {
        Some(token) => !name_of(token).is_empty(),
        None => false,
    };
    is_name && spot.ahead(2) == "="
}

/// What is said of a comma behind the value of a `let`, which is one token, and of a name behind a `let` that has no value; nothing of others.
fn said_behind_let(spot: Spot<'_>) -> &'static str {
    let name = spot.name();
    if !name.is_empty() && spot.back(0) == name && spot.back(1) == "let" {
        return "the let before it has no value: let NAME = VALUE";
    }
    match (spot.back(3), spot.back(1), spot.ahead(0)) {
        ("let", "=", ",") if is_before_let(spot) => "each variable has a let of its own",
        ("let", "=", ",") => {
            "a list has its let outside of programs, and stands in a for alone: for NAME in LIST { .. }"
        }
        _ => "",
    }
}

/// What is said of a symbol, a word or a name in a program, outside of parentheses; nothing of others.
pub(crate) fn said_in_program(spot: Spot<'_>) -> &'static str {
    let said = said_behind_let(spot);
    match spot.ahead(0) {
        _ if !said.is_empty() => said,
        sign if is_comparison(sign) => CONDITION,
        "&&" | "||" => {
            "a condition stands in an if alone, and get(KEY) else TEXT has another text for \"\""
        }
        "if" if is_behind_operator(spot) => CHOICE,
        "get" | "rev" | "num_of" if is_in_rule(spot) => {
            "a rule says what is not to be: if CONDITION { abort(TEXT) }; and what is looked up is given a name: let NAME = get(KEY)"
        }
        _ if !spot.name().is_empty() && spot.back(1) == "let" => {
            "a variable has no type: let NAME = VALUE"
        }
        _ => "",
    }
}

/// What is said of a name by the two signs behind it, which set it in other languages; nothing of others.
pub(crate) fn said_of_setting(spot: Spot<'_>) -> &'static str {
    match (spot.ahead(1), spot.ahead(2)) {
        ("-", "-") => "one is taken away by NAME -= 1",
        ("+" | "-" | "*" | "/" | "%", "=") => {
            "only +=, -= and ++= stand so: NAME = NAME * VALUE"
        }
        _ => "",
    }
}

/// What is said of a colon, behind which `=` stands where it sets something.
pub(crate) fn said_of_colon(spot: Spot<'_>, sets: bool) -> &'static str {
    match spot.back(1) {
        "for" => "a loop is for NAME in 0..COUNT { .. }, or for NAME in ITEM, ITEM { .. }",
        _ if is_parameter(spot) => "parameters have names and no types",
        "rule" | "finally" => {
            "a rule stands in braces: rule NAME { if CONDITION { abort(TEXT) } }"
        }
        _ if spot.is_before_a_block() => "a block stands in braces, { .. }",
        "let" if !sets => "a variable has no type: let NAME = VALUE",
        _ => "a new variable is let NAME = VALUE",
    }
}

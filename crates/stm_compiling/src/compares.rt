//! What is said of comparisons: those of transactions, and those of conditions that are none.

use crate::spots::{Spot, first_from, is_comparison, spelled_at};

/// What is wanted among the compares of a transaction, behind the sign of one and behind the whole; nothing in other places.
pub(crate) fn wanted_of_compares(spot: Spot<'_>) -> &'static str {
    // WORD ( KEY ) stands before the sign.
    match (spot.event, spot.ahead(0), spot.back(4)) {
        ("txn", "||", _) => "&&, by which alone compares are joined,",
        ("txn", _, _) if !is_comparison(spot.back(0)) => "",
        ("txn", _, "value") => "a text, in quotes, as in value(\"a\") == \"1\",",
        ("txn", _, _) => "a number, without quotes, as in mod(\"a\") == 0,",
        _ => "",
    }
}

/// Whether a comparison stands in a place behind another one of the same values.
pub(crate) fn is_chained(spot: Spot<'_>) -> bool {
    let last = spot.last_of(&["==", "!=", "<", "<=", ">", ">=", "if", "!", "&&", "||", "{"]);
    is_comparison(spot.ahead(0)) && is_comparison(last)
}

/// Whether `=` stands in a condition from a place on, before all that compares or joins.
pub(crate) fn is_set_in_condition(spot: Spot<'_>) -> bool {
    let words = [
        "=", "==", "!=", "<", "<=", ">", ">=", "if", "!", "&&", "||", "{",
    ];
    spelled_at(first_from(spot.from, &words), 0) == "="
}

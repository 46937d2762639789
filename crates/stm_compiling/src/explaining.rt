//! What explains the fault of a source to people: what was found, and what is wanted there.
ghost use Rattle.std.specs.Prelude.{◌≡◌, ℕ, List, Some, IfOk, option_map, string_bytes};
ghost use Rattle.stm_explain.specs.Explaining.{explanation};
ghost use Rattle.stm_compiling.specs.Faults.{IsExplanation, place_of};

use crate::calls::{listed_behind, parameters_of, takes_list};
use crate::compares::is_set_in_condition;
use crate::elses::said_of_else;
use crate::fault::position_in;
use crate::habits::{
    closes_all, first_said, said_of_digits, said_of_ending, said_of_event, said_of_lease,
    said_of_no_event, said_of_operation, said_of_outer, said_of_waiting, said_of_word,
};
use crate::items::{end_of, items_of};
use crate::misfits::said_of_start;
use crate::more_faults::words_with_more;
use crate::naming::{ANY_FUNCTION, is_called, said_of_call, said_of_function, said_of_place};
use crate::open_braces::said_of_open;
use crate::other_kinds::{is_number, said_of_value};
use crate::signs::{
    CHOICE, CONDITION, OTHER_TEXT, said_anywhere, said_in_program, said_of_colon, said_of_setting,
};
use crate::spots::{Place, Spot, first_from, is_one_of, spelled};
use crate::titles::{let_below, near_name, said_of_names};
use crate::wanted::{
    EVENT_NOUN, EVENTS, FUNCTIONS, OPTION_NOUN, STATEMENT, Wanted, allowed,
    is_behind_condition_word, nearest, numbers_at, wanted_at,
};
use serde_json::Value as Json;
use std::alloc::{AllocError, Global};
use stm_explain::{Said, shown};
use stm_source::{BadSource, SourceCause};
use stm_tokens::{Position, TokenKind};

/// At most this many bytes of a token are shown.
const MOST_SHOWN: usize = 60;

/// A line of explanation.
fn line_at(alloc: Global, name: &str, position: Position, words: &str) -> Said
    ensures { IfOk result (λ line. string_bytes line ≡ explanation name.now position.line position.column words.now) }
{
    let line = position.line;
    let column = position.column;
    format!(in alloc; "{name}:{line}:{column}: {words}\n")
}

/// A text in quotes, with an escape in the place of each character that does something to a terminal.
fn quoted(alloc: Global, text: &str) -> Said {
    let text = String::from_str(alloc, text)?;
    shown(alloc, &Json::String(text))
}

/// Whether a character stands between tokens.
fn is_blank(character: char) -> bool {
    matches!(character, ' ' | '\t' | '\n' | '\r')
}

/// The first word of what stands in a place.
fn word_at(spot: Spot<'_>) -> &str {
    let to = match spot.from.get(1) {
        Some(next) => next.at,
        None => spot.source.len(),
    };
    let text = spot.between(spot.at, to.min(spot.at.saturating_add(MOST_SHOWN)));
    match text.split_once(is_blank) {
        Some((word, _)) => word,
        None => text,
    }
}

/// What was found in a place.
fn found_at(alloc: Global, spot: Spot<'_>) -> Said {
    match spot.kind() {
        Some(TokenKind::End) | None => String::from_str(alloc, "the end"),
        Some(TokenKind::Text(text)) => {
            let text = quoted(alloc, text.as_str())?;
            format!(in alloc; "the text {text}")
        }
        Some(_) => quoted(alloc, word_at(spot)),
    }
}

/// Whether a character cannot stand in a name.
fn is_sign(character: char) -> bool {
    !character.is_alphanumeric() && character != '_'
}

/// The name behind the dot that stands behind a name; nothing where there is no name, or no dot.
fn behind_dot(spot: Spot<'_>) -> Option<&str> {
    let next = spot.from.get(1)?;
    let to = next.at.saturating_add(MOST_SHOWN).min(spot.source.len());
    let text = spot.between(next.at, to).strip_prefix('.')?;
    if spot.name().is_empty() || text.starts_with('.') {
        return None;
    }
    match text.split_once(is_sign) {
        Some((name, _)) => Some(name),
        None => Some(text),
    }
}

/// Whether `:=` stands behind a token.
fn is_set_behind(spot: Spot<'_>) -> bool {
    match spot.from.get(1) {
        Some(next) => spot.between(next.at, next.at.saturating_add(2)) == ":=",
        None => false,
    }
}

/// What is said of a name behind which `.`, `++`, `:=` or another sign stands that sets it; nothing of others.
fn said_of_sign(spot: Spot<'_>) -> &'static str {
    let is_statement = spot.place == Place::Statements;
    match (behind_dot(spot), spot.ahead(1)) {
        _ if spot.name().is_empty() => "",
        (Some(function), _) => said_of_function(function),
        (None, "++") => "one is added by NAME += 1",
        (None, ",") if is_statement => {
            "each variable is set by itself: NAME = VALUE, or let NAME = VALUE"
        }
        _ if is_set_behind(spot) => "a new variable is let NAME = VALUE",
        _ if is_statement => said_of_setting(spot),
        _ => "",
    }
}

/// Whether a name is to be given in the condition of an `if`: it stands behind the word, and a comma or `:=` behind it.
fn is_given_in_condition(spot: Spot<'_>) -> bool {
    spot.back(0) == "if" && (spot.ahead(1) == "," || is_set_behind(spot))
}

/// What is said of a token behind a statement that leaves its block, where only a `}` may stand; nothing of others.
fn said_behind_a_way_out(spot: Spot<'_>) -> &'static str {
    let word = match spot.back(0) {
        ";" => spot.back(1),
        word => word,
    };
    let begins_a_statement = matches!(spot.kind(), Some(TokenKind::Word(_)))
        && is_number(spot.from.first()).is_none();
    match (word, begins_a_statement) {
        ("return", true) => "nothing comes to it, since a return stands before it",
        ("return", false) => {
            "a return has no value, and a run that is to commit nothing ends by abort(TEXT)"
        }
        ("break" | "continue", true) => {
            "nothing comes to it, since a break or a continue stands before it"
        }
        ("break" | "continue", false) => {
            "a break and a continue have no label, and are of the innermost for"
        }
        _ => "",
    }
}

/// What is said of a symbol, a word or a name in a program that has its place elsewhere; nothing of others.
fn said_in_statements(spot: Spot<'_>) -> &'static str {
    let said = said_in_program(spot);
    match spot.ahead(0) {
        _ if !said.is_empty() => said,
        "," if spot.back(1) == "let" => "each variable has a let of its own",
        "get" | "rev" => "what is looked up is given a name: let NAME = get(KEY)",
        "else" => "it stands behind the block of an if",
        "prefetch" => "the list of keys stands before all statements",
        "break" | "continue" => "it stands in the block of a for",
        _ => said_of_lease(spot),
    }
}

/// What is said of a symbol or a word that has its place elsewhere, by the brackets around it; nothing of others, and before a block.
fn said_in_brackets(spot: Spot<'_>) -> &'static str {
    match spot.place {
        _ if spot.is_before_a_block() => "",
        Place::Events => said_of_event(spot),
        Place::Operations => said_of_operation(spot),
        Place::Statements => said_in_statements(spot),
        Place::Parentheses => "",
    }
}

/// What is said of the `..` of a loop behind a number; nothing of others.
fn said_of_count(spot: Spot<'_>) -> &'static str {
    match (spot.back(1), spot.ahead(0)) {
        ("in", "..") => "a loop that counts begins at 0: for NAME in 0..COUNT",
        _ => "",
    }
}

/// What is said of a token that people know from elsewhere, or that has its place elsewhere; nothing of others.
fn said_of(spot: Spot<'_>) -> &'static str {
    first_said(&[
        said_of_waiting(spot),
        said_of_word(spot.name()),
        said_of_else(spot),
        said_of_count(spot),
        said_anywhere(spot),
        said_in_brackets(spot),
    ])
}

/// Whether a token is a word with which a program, a rule or an event begins.
pub(crate) fn begins_at_the_top(spot: Spot<'_>) -> bool {
    let word = spot.ahead(0);
    word != "let" && is_one_of(word, &EVENTS)
}

/// What is said of a token in whose place one of these words is wanted, which begin such a thing, or one of others beside them.
fn no_such_word(
    alloc: Global,
    found: &str,
    spot: Spot<'_>,
    noun: &str,
    words: &[&str],
    beside: &str,
) -> Said {
    let name = spot.name();
    if is_called(spot) && nearest(alloc, words, name)?.is_empty() {
        let said = said_of_call(name);
        return format!(in alloc; "{found} is no {noun}: {said}");
    }
    if noun == STATEMENT && begins_at_the_top(spot) {
        let said = said_of_outer(spot);
        return format!(in alloc;
            "{found} is no statement, and stands outside of blocks alone{said}"
        );
    }
    let said = said_of_no_event(spot);
    if (noun == EVENT_NOUN || noun == OPTION_NOUN) && !said.is_empty() {
        return format!(in alloc; "{found} is no event: {said}");
    }
    let list = allowed(alloc, words, beside, name)?;
    format!(in alloc; "{found} is no {noun}: {list}")
}

/// Which line ends before a token that begins the next one, in parentheses that are still open, or where it ends in an event without what is missing; nothing
/// elsewhere.
fn line_without(alloc: Global, spot: Spot<'_>) -> Said {
    let (Some(before), Some(token)) = (spot.before.last(), spot.from.first()) else {
        return Ok(String::new(alloc));
    };
    let line = spot.position(before.at).line;
    if line >= spot.position(token.at).line {
        return Ok(String::new(alloc));
    }
    match (spot.place, &before.kind) {
        (Place::Parentheses, _) => format!(in alloc; "; line {line} ends without it"),
        (Place::Events, TokenKind::Name(_) | TokenKind::Number(_)) => {
            let Position { line, column } = spot.position(end_of(spot.source, before));
            format!(in alloc; "; it is missing at {line}:{column}")
        }
        _ => Ok(String::new(alloc)),
    }
}

/// Whether a token stands directly behind the digits of a number.
fn is_glued(spot: Spot<'_>) -> bool {
    let (Some(number), Some(token)) = (spot.before.last(), spot.from.first()) else {
        return false;
    };
    match (
        &number.kind,
        spot.between(token.at.saturating_sub(1), token.at)
            .as_bytes(),
    ) {
        (TokenKind::Number(_), [byte]) => byte.is_ascii_digit(),
        _ => false,
    }
}

/// What begins in a place.
fn noun_at(spot: Spot<'_>) -> &'static str {
    match spot.place {
        Place::Events => EVENT_NOUN,
        _ => STATEMENT,
    }
}

/// What is said of a token that has no meaning in its place; nothing of others.
fn said_of_meaning(spot: Spot<'_>) -> &'static str {
    if is_glued(spot) && !spot.name().is_empty() {
        return said_of_digits(spot);
    }
    let said = said_behind_a_way_out(spot);
    if said.is_empty() && (said_of_sign(spot).is_empty() || !said_of_else(spot).is_empty()) {
        return said_of(spot);
    }
    said
}

/// What is said of a token in whose place another one is wanted.
fn syntax_words(alloc: Global, found: &str, spot: Spot<'_>) -> Said {
    let said = said_of_meaning(spot);
    if !said.is_empty() {
        return format!(in alloc; "{found} has no meaning here: {said}");
    }
    let said = said_of_sign(spot);
    if !said.is_empty() {
        let noun = noun_at(spot);
        return format!(in alloc; "{found} is no {noun}: {said}");
    }
    match wanted_at(spot) {
        Wanted::Words(noun, words, beside) => {
            no_such_word(alloc, found, spot, noun, words, beside)
        }
        Wanted::Said(wanted) => {
            let line = match spot.place {
                Place::Events => line_without(alloc, spot)?,
                _ => String::new(alloc),
            };
            format!(in alloc; "found {found}, where {wanted} is wanted{line}")
        }
        Wanted::OperatorOr(wanted) => {
            let line = line_without(alloc, spot)?;
            format!(in alloc; "found {found}, where an operator, or {wanted} is wanted{line}")
        }
    }
}

/// The same, and behind it which brace is open, where a `}` is missing before the token.
fn syntax_words_with_open(alloc: Global, found: &str, spot: Spot<'_>) -> Said {
    let mut words = syntax_words(alloc, found, spot)?;
    let is_end = matches!(spot.kind(), Some(TokenKind::End) | None);
    if (is_end || begins_at_the_top(spot)) && !closes_all(spot) {
        let open = said_of_open(alloc, spot)?;
        words.push_str(open.as_str())?;
    }
    Ok(words)
}

/// What is said of a value in the place of a condition, or the reverse.
fn sort_words(alloc: Global, found: &str, spot: Spot<'_>) -> Said {
    if is_given_in_condition(spot) {
        return format!(in alloc;
            "{found} cannot be set here: a variable is set in front of the if"
        );
    }
    if let Some(function) = behind_dot(spot) {
        let said = said_of_function(function);
        return format!(in alloc; "{found} has no parts: {said}");
    }
    if !is_behind_condition_word(spot) {
        return format!(in alloc;
            "{found} begins a condition, where a value is wanted: {CONDITION}"
        );
    }
    let said = if is_set_in_condition(spot) {
        "values are compared by ==, and = compares nothing"
    } else {
        "two values with ==, !=, <, <=, > or >= between them"
    };
    format!(in alloc; "{found} begins a value, where a condition is wanted: {said}")
}

/// What is said of a name that people know from elsewhere, or that is used as a function; nothing of others.
fn said_of_name(spot: Spot<'_>) -> &'static str {
    let name = spot.name();
    let said = said_of_word(name);
    match behind_dot(spot) {
        _ if !said.is_empty() => said,
        Some(function) => said_of_function(function),
        None if is_given_in_condition(spot) => {
            "a new variable stands in front of the if: let NAME = VALUE"
        }
        None if is_called(spot) => said_of_function(name),
        None => said_of_ending(name),
    }
}

/// Where below a name is given that is none yet, or which one given above, or which function, is nearest to it, in words; nothing where neither is.
fn near_words(alloc: Global, spot: Spot<'_>) -> Said {
    if let Some(at) = let_below(alloc, spot)? {
        let line = spot.position(at).line;
        return format!(in alloc; "; its let stands below, in line {line}");
    }
    let near = near_name(alloc, spot)?;
    if !near.is_empty() {
        return format!(in alloc; "; the nearest above is {near}");
    }
    if is_called(spot) && said_of_name(spot) == ANY_FUNCTION {
        let near = nearest(alloc, &FUNCTIONS, spot.name())?;
        if !near.is_empty() {
            return format!(in alloc; "; the nearest is {near}");
        }
    }
    Ok(String::new(alloc))
}

/// What is said of a name that cannot stand in its place.
fn name_words(alloc: Global, found: &str, spot: Spot<'_>) -> Said {
    if let Some(said) = said_of_names(alloc, found, spot)? {
        return Ok(said);
    }
    let near = near_words(alloc, spot)?;
    let said = said_of_name(spot);
    if !said.is_empty() {
        return format!(in alloc; "{found} is no name of anything here: {said}{near}");
    }
    let said = said_of_place(spot);
    format!(in alloc; "{found} {said}{near}")
}

/// What is said of a program that is started with another number of arguments than it has parameters.
fn argument_words(alloc: Global, found: &str, spot: Spot<'_>) -> Said {
    let wanted = parameters_of(spot.before, spot.name());
    let given = listed_behind(spot.from);
    if takes_list(spot.before, spot.name()) {
        let least = wanted.saturating_sub(1);
        return format!(in alloc;
            "{found} has another number of parameters: {least} or more wanted, {given} found"
        );
    }
    format!(in alloc; "{found} has another number of parameters: {wanted} wanted, {given} found")
}

/// What is said of a dot with which no token begins.
fn said_of_dot(spot: Spot<'_>) -> &'static str {
    match spot.back(0) {
        _ if is_glued(spot) => "numbers are whole",
        ".." => "there are two dots in a row alone: 0..COUNT, or a last parameter NAME..",
        _ if spot.event == "start" && spot.back(1) == "after" => {
            "a runner that waits for a commit has after RUNNER committed"
        }
        _ => ANY_PART,
    }
}

/// What is said of the parts of a value.
const ANY_PART: &str =
    "values have no parts, and the functions are get(KEY), rev(KEY), num_of(TEXT) and text_of(NUMBER)";

/// What is said of a character with which no token begins; nothing of most.
fn said_of_character(spot: Spot<'_>, character: &str) -> &'static str {
    let next = spot.between(spot.at, spot.at.saturating_add(2));
    match character {
        ":" => said_of_colon(spot, next == ":="),
        "'" | "`" | "\u{201c}" | "\u{201d}" | "\u{2018}" | "\u{2019}" => {
            "texts stand in double quotes"
        }
        "\u{feff}" => "a source has no mark of a byte order",
        "[" if spot.place == Place::Events => {
            "there are no arrays, and a scenario that is JSON needs no compile"
        }
        "[" => "there are no arrays: items stand in a for, and an element is a key of its own",
        "#" => "a comment begins with //",
        "?" if next == "??" => OTHER_TEXT,
        "?" => CHOICE,
        "&" | "|" => "conditions are joined by && and ||",
        "." => said_of_dot(spot),
        _ => "",
    }
}

/// What is said where no token begins, but this character stands.
fn token_words(alloc: Global, spot: Spot<'_>, character: &str) -> Said {
    if character == "\"" {
        return String::from_str(
            alloc,
            "a text that is not closed in its line, or with an escape that JSON does not have",
        );
    }
    let found = quoted(alloc, character)?;
    let said = said_of_character(spot, character);
    if said.is_empty() {
        return format!(in alloc; "{found} begins nothing that a source has");
    }
    format!(in alloc; "{found} begins nothing: {said}")
}

/// What is said of a value of another kind than is wanted.
fn kind_words(alloc: Global, found: &str, spot: Spot<'_>) -> Said {
    match said_of_start(alloc, spot)? {
        Some(said) => Ok(said),
        None => said_of_value(alloc, found, spot),
    }
}

/// The first character of a text.
fn first_character(text: &str) -> &str {
    match text.chars().next() {
        Some(character) => match text.get(..character.len_utf8()) {
            Some(front) => front,
            None => text,
        },
        None => text,
    }
}

/// What the first of these ways out of a turn or a run makes of what follows it, in the program whose name or brace stands in a place, and what does without it;
/// nothing where there is none.
fn said_of_way_out(alloc: Global, spot: Spot<'_>, words: &[&str], made: &str) -> Said {
    let items = items_of(alloc, spot.from)?;
    let end = match items.as_slice().first() {
        Some(next) => next.at,
        None => spot.source.len(),
    };
    let found = first_from(spot.from, words).first();
    let Some(token) = found.filter(|token| token.at < end) else {
        return Ok(String::new(alloc));
    };
    let word = spelled(token);
    let line = spot.position(token.at).line;
    let other = match word {
        "continue" => "an if round the rest of the block, in its place,",
        _ => "a variable that is set in its place, and asked by an if round what else is done,",
    };
    format!(in alloc; ": the {word} in line {line} {made}; {other} does not")
}

/// What has a name or a brace in a place.
fn noun_of(spot: Spot<'_>) -> &'static str {
    match spot.back(0) {
        "let" => "value",
        _ => "program",
    }
}

/// What is said of a program, or of the value of a definition, that is too deep.
fn depth_words(alloc: Global, spot: Spot<'_>) -> Said {
    let noun = noun_of(spot);
    let made = "puts what follows one level deeper, in a for with each item";
    let said = said_of_way_out(alloc, spot, &["continue", "break", "return"], made)?;
    format!(in alloc; "the {noun} is nested deeper than 32{said}")
}

/// What is said where too many nodes come to stand: at the word of an event, or at the name or the brace of a program, or the name of a definition.
fn node_words(alloc: Global, spot: Spot<'_>) -> Said {
    if matches!(spot.ahead(0), "start" | "txn" | "watch") {
        return String::from_str(
            alloc,
            "with what names stand for the source has more than 16777215 nodes and bytes of text",
        );
    }
    let noun = noun_of(spot);
    let made =
        "can make two ways on, each with a copy of what follows, and so double the program with each item of the for";
    let said = said_of_way_out(alloc, spot, &["continue", "break"], made)?;
    format!(in alloc; "the {noun} has more than 4096 nodes{said}")
}

/// What is said of a token that is wrong.
pub(crate) fn words_at(alloc: Global, spot: Spot<'_>, cause: SourceCause) -> Said {
    let found = found_at(alloc, spot)?;
    let found = found.as_str();
    match cause {
        SourceCause::NotUtf8 => String::from_str(alloc, "what begins here is not UTF-8"),
        SourceCause::TooLong => String::from_str(
            alloc,
            "a source has at most 16777216 bytes, and a text of a program at most 65536",
        ),
        SourceCause::Token => token_words(alloc, spot, first_character(word_at(spot))),
        SourceCause::Syntax => syntax_words_with_open(alloc, found, spot),
        SourceCause::Return => String::from_str(
            alloc,
            "a counted loop, for .. in 0.., has no return and no break: for .. in 0, 1, 2 has both; or let found = 0 before it, and if found == 0 && .. in it",
        ),
        SourceCause::Sort => sort_words(alloc, found, spot),
        SourceCause::Name => name_words(alloc, found, spot),
        SourceCause::Range => {
            let numbers = numbers_at(spot);
            format!(in alloc; "the number {found} is out of range here: {numbers}")
        }
        SourceCause::Key => format!(in alloc;
            "{found} is an empty key, or one that stands in the list already"
        ),
        SourceCause::Arguments => argument_words(alloc, found, spot),
        SourceCause::Kind => kind_words(alloc, found, spot),
        SourceCause::TooMany => format!(in alloc;
            "{found} is one too many: a program has 16 variables, a list 128 keys, a scenario 100000 events"
        ),
        SourceCause::TooDeep => depth_words(alloc, spot),
        SourceCause::TooManyNodes => node_words(alloc, spot),
    }
}

/// The explanation of the first fault of a source, as a line, and behind it lines for others.
fn explained(alloc: Global, name: &str, source: &[u8], bad: BadSource) -> Said
    ensures { IfOk result (λ line. (words : List ℕ) × (string_bytes line ≡ explanation name.now (place_of source.now bad.at).0 (place_of source.now bad.at).1 words)) }
{
    let words = words_with_more(alloc, name, source, bad)?;
    line_at(alloc, name, position_in(source, bad.at), words.as_str())
}

/// The explanation of the first fault of a source, as a line under its name; nothing where an allocation failed.
fn explanation_of(alloc: Global, name: &str, source: &[u8], bad: BadSource) -> String
    ensures { IsExplanation (Some name.now) (place_of source.now bad.at) (string_bytes result) }
{
    match explained(alloc, name, source, bad) {
        Ok(line) => line,
        Err(_) => String::new(alloc),
    }
}

/// The explanation of the first fault of a source, where that has a name; nothing where it has none, or where an allocation failed.
pub(crate) fn explanation_under(
    alloc: Global,
    name: Option<&str>,
    source: &[u8],
    bad: BadSource,
) -> String
    ensures { IsExplanation (option_map (λ n. n.now) name.entry) (place_of source.now bad.at) (string_bytes result) }
{
    match name {
        Some(name) => explanation_of(alloc, name, source, bad),
        None => String::new(alloc),
    }
}

//! Where in a source a token stands: between which brackets, and behind which words. Tokens are told by how they are spelled.

use crate::fault::position_in;
use stm_program::Operator;
use stm_tokens::{Position, Symbol, Token, TokenKind, Word};

/// The signs that compare two values.
const COMPARISONS: [&str; 6] = ["==", "!=", "<", "<=", ">", ">="];

/// What the brackets that are open before a token belong to.
#[derive(Clone, Copy, PartialEq, Eq)]
pub(crate) enum Place {
    /// None is open: it stands in an event, or begins one.
    Events,
    /// The braces of a program: it stands in a statement, or begins one.
    Statements,
    /// The braces of a transaction.
    Operations,
    /// Parentheses.
    Parentheses,
}

/// The parentheses that are open before a token; of none, empty words.
#[derive(Clone, Copy)]
pub(crate) struct Call<'a> {
    /// What stands before them.
    pub(crate) word: &'a str,
    /// What stands before that.
    pub(crate) before: &'a str,
    /// How many values stand in them already, each with a comma behind it.
    pub(crate) values: usize,
}

/// A token of a source, and those before it.
#[derive(Clone, Copy)]
pub(crate) struct Spot<'a> {
    /// The source.
    pub(crate) source: &'a str,
    /// The byte of it that is looked at: the first one of the token, or one before that.
    pub(crate) at: usize,
    /// The tokens before it.
    pub(crate) before: &'a [Token],
    /// It and those behind it.
    pub(crate) from: &'a [Token],
    /// What the brackets that are open there belong to.
    pub(crate) place: Place,
    /// The parentheses that it stands in.
    pub(crate) call: Call<'a>,
    /// The word of the event that it stands in or behind, of those that have several parts; an empty one where there is none.
    pub(crate) event: &'a str,
}

/// How a sign is spelled.
fn sign_of(symbol: Symbol) -> &'static str {
    match symbol {
        Symbol::LeftParenthesis => "(",
        Symbol::RightParenthesis => ")",
        Symbol::LeftBrace => "{",
        Symbol::RightBrace => "}",
        Symbol::Comma => ",",
        Symbol::Semicolon => ";",
        Symbol::Dots => "..",
        Symbol::Assign => "=",
        Symbol::AddAssign => "+=",
        Symbol::SubtractAssign => "-=",
        Symbol::ConcatenateAssign => "++=",
        Symbol::Equal => "==",
        Symbol::NotEqual => "!=",
        Symbol::Less => "<",
        Symbol::LessOrEqual => "<=",
        Symbol::Greater => ">",
        Symbol::GreaterOrEqual => ">=",
        Symbol::Concatenate => "++",
        Symbol::And => "&&",
        Symbol::Or => "||",
        Symbol::Not => "!",
        Symbol::Arithmetic(Operator::Add) => "+",
        Symbol::Arithmetic(Operator::Sub) => "-",
        Symbol::Arithmetic(Operator::Mul) => "*",
        Symbol::Arithmetic(Operator::Div) => "/",
        Symbol::Arithmetic(Operator::Rem) => "%",
    }
}

/// How a word is spelled that is no name.
fn word_of(word: Word) -> &'static str {
    match word {
        Word::Program => "program",
        Word::Rule => "rule",
        Word::Finally => "finally",
        Word::Let => "let",
        Word::If => "if",
        Word::Else => "else",
        Word::For => "for",
        Word::In => "in",
        Word::Return => "return",
        Word::Break => "break",
        Word::Continue => "continue",
        Word::Put => "put",
        Word::Del => "del",
        Word::Emit => "emit",
        Word::Abort => "abort",
        Word::Prefetch => "prefetch",
        Word::Get => "get",
        Word::Rev => "rev",
        Word::NumOf => "num_of",
        Word::TextOf => "text_of",
    }
}

/// How a token is spelled that is a name, a word or a sign; an empty text for others.
pub(crate) fn spelled(token: &Token) -> &str {
    match &token.kind {
        TokenKind::Name(name) => name.as_str(),
        TokenKind::Word(word) => word_of(*word),
        TokenKind::Symbol(symbol) => sign_of(*symbol),
        TokenKind::Number(_) | TokenKind::Text(_) | TokenKind::Wrong | TokenKind::End => "",
    }
}

/// The same of the token at an index of these; an empty text where there is none.
pub(crate) fn spelled_at(tokens: &[Token], index: usize) -> &str {
    match tokens.get(index) {
        Some(token) => spelled(token),
        None => "",
    }
}

/// The name that a token is; an empty one where it is none.
pub(crate) fn name_of(token: &Token) -> &str {
    match &token.kind {
        TokenKind::Name(name) => name.as_str(),
        _ => "",
    }
}

/// These tokens without so many first ones.
pub(crate) fn behind(tokens: &[Token], count: usize) -> &[Token] {
    tokens.get(count..).unwrap_or(&[])
}

/// Whether a word is one of these.
pub(crate) fn is_one_of(word: &str, words: &[&str]) -> bool {
    for known in words {
        if *known == word {
            return true;
        }
    }
    false
}

/// The tokens from the first one on that is spelled as one of these words; none where none is.
pub(crate) fn first_from<'a>(tokens: &'a [Token], words: &[&str]) -> &'a [Token] {
    for (index, token) in tokens.iter().enumerate() {
        if is_one_of(spelled(token), words) {
            return behind(tokens, index);
        }
    }
    &[]
}

/// The tokens from the last one on that is spelled as one of these words; none where none is.
pub(crate) fn last_from<'a>(tokens: &'a [Token], words: &[&str]) -> &'a [Token] {
    for (index, token) in tokens.iter().enumerate().rev() {
        if is_one_of(spelled(token), words) {
            return behind(tokens, index);
        }
    }
    &[]
}

/// Whether a word compares two values.
pub(crate) fn is_comparison(word: &str) -> bool {
    is_one_of(word, &COMPARISONS)
}

/// Whether a token is a text or a number as it stands.
pub(crate) fn is_literal(token: Option<&Token>) -> bool {
    match token {
        Some(token) => matches!(token.kind, TokenKind::Text(_) | TokenKind::Number(_)),
        None => false,
    }
}

/// How many brackets are open behind a token, of which so many are open before it.
pub(crate) fn open_behind(open: usize, token: &Token) -> usize {
    match spelled(token) {
        "(" | "{" => open.saturating_add(1),
        ")" | "}" => open.saturating_sub(1),
        _ => open,
    }
}

/// The place of the first bracket among these tokens that is open behind them.
pub(crate) fn first_open(tokens: &[Token]) -> Option<usize> {
    let mut first = None;
    let mut open = 0;
    for (index, token) in tokens.iter().enumerate() {
        if open == 0 {
            first = Some(index);
        }
        open = open_behind(open, token);
    }
    if open == 0 { None } else { first }
}

/// The place of the last bracket among these tokens that is open behind them, and how many commas stand behind it, outside of other brackets.
fn last_open(tokens: &[Token]) -> Option<(usize, usize)> {
    let mut closed = 0usize;
    let mut commas = 0usize;
    for (index, token) in tokens.iter().enumerate().rev() {
        match spelled(token) {
            "(" | "{" if closed == 0 => return Some((index, commas)),
            "(" | "{" => closed = closed.saturating_sub(1),
            ")" | "}" => closed = closed.saturating_add(1),
            "," if closed == 0 => commas = commas.saturating_add(1),
            _ => {}
        }
    }
    None
}

/// What the brackets that are open behind these tokens belong to, of which the last one has this place.
fn place_behind(tokens: &[Token], last: usize) -> Place {
    if spelled_at(tokens, last) == "(" {
        return Place::Parentheses;
    }
    let front = tokens.get(..first_open(tokens).unwrap_or(0)).unwrap_or(&[]);
    let beginning = last_from(front, &["txn", "start", "program", "rule", "finally"]);
    match spelled_at(beginning, 0) {
        "txn" => Place::Operations,
        _ => Place::Statements,
    }
}

/// The parentheses that are open behind these tokens, of which the last bracket that is open has this place, with so many commas behind it.
fn call_behind(tokens: &[Token], last: usize, values: usize) -> Call<'_> {
    if spelled_at(tokens, last) != "(" || last == 0 {
        return NO_CALL;
    }
    let before = if last > 1 {
        spelled_at(tokens, last - 2)
    } else {
        ""
    };
    Call {
        word: spelled_at(tokens, last - 1),
        before,
        values,
    }
}

const NO_CALL: Call<'static> = Call {
    word: "",
    before: "",
    values: 0,
};

/// The token that begins at a byte of a source which has these tokens, or the first one behind that.
pub(crate) fn spot_at<'a>(source: &'a str, tokens: &'a [Token], at: usize) -> Spot<'a> {
    let count = tokens.iter().take_while(|token| token.at < at).count();
    let before = tokens.get(..count).unwrap_or(tokens);
    let (place, call) = match last_open(before) {
        Some((last, values)) => (
            place_behind(before, last),
            call_behind(before, last, values),
        ),
        None => (Place::Events, NO_CALL),
    };
    Spot {
        source,
        at,
        before,
        from: behind(tokens, count),
        place,
        call,
        event: spelled_at(last_from(before, &["txn", "start", "step", "begin"]), 0),
    }
}

impl<'a> Spot<'a> {
    /// What the token is.
    pub(crate) fn kind(self) -> Option<&'a TokenKind> {
        match self.from.first() {
            Some(token) => Some(&token.kind),
            None => None,
        }
    }

    /// The name that it is; an empty one where it is none.
    pub(crate) fn name(self) -> &'a str {
        match self.from.first() {
            Some(token) => name_of(token),
            None => "",
        }
    }

    /// How what stands so many tokens behind it is spelled, itself at 0.
    pub(crate) fn ahead(self, count: usize) -> &'a str {
        spelled_at(self.from, count)
    }

    /// How what stands before it is spelled: the last token at 0, that before it at 1.
    pub(crate) fn back(self, count: usize) -> &'a str {
        match self.before.iter().rev().nth(count) {
            Some(token) => spelled(token),
            None => "",
        }
    }

    /// The last of these words that stands before it.
    pub(crate) fn last_of(self, words: &[&str]) -> &'a str {
        spelled_at(last_from(self.before, words), 0)
    }

    /// Where a byte of the source stands.
    pub(crate) fn position(self, at: usize) -> Position {
        position_in(self.source.as_bytes(), at)
    }

    /// The text of the source from one byte to another; nothing where it has no such text.
    pub(crate) fn between(self, from: usize, to: usize) -> &'a str {
        self.source.get(from..to).unwrap_or("")
    }

    /// The byte at which a brace stands that is open there, unless parentheses are open in it.
    pub(crate) fn open_brace(self) -> Option<usize> {
        let (open, _) = last_open(self.before)?;
        match self.before.get(open) {
            Some(token) if spelled(token) == "{" => Some(token.at),
            _ => None,
        }
    }

    /// Whether it stands between an `if` or a `for` and the brace that opens the block of that.
    pub(crate) fn is_before_a_block(self) -> bool {
        matches!(self.last_of(&["if", "for", "{", "}", ";"]), "if" | "for")
    }

    /// Whether it stands behind the `..` of a loop, and no block or statement has begun since.
    pub(crate) fn is_in_count(self) -> bool {
        self.last_of(&["..", "{", "}", ";"]) == ".."
    }

    /// The word before the texts, numbers and names, with commas or a sign between them, behind which it stands.
    fn word_of_list(self) -> &'a str {
        match self.before.iter().rev().find(|token| !is_of_list(token)) {
            Some(token) => spelled(token),
            None => "",
        }
    }

    /// Whether it stands behind a comma of a list that is given a name outside of programs.
    pub(crate) fn is_in_list(self) -> bool {
        self.back(0) == "," && self.word_of_list() == "let"
    }

    /// Whether it stands among the items of a `for`.
    pub(crate) fn is_item(self) -> bool {
        self.word_of_list() == "in"
    }
}

/// Whether a token can stand in a list of texts, numbers and names.
fn is_of_list(token: &Token) -> bool {
    is_literal(Some(token))
        || !name_of(token).is_empty()
        || matches!(spelled(token), "," | "=" | "-")
}

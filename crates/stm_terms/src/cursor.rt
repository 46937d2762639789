//! Looking at the next token.
ghost use Rattle.std.specs.Prelude.{◌≡◌, ◌<◌, option_map, OnOk};
ghost use Rattle.stm_terms.specs.Cursor as spec;
ghost use Rattle.stm_terms.specs.Outcome.{Returns};
ghost use Rattle.stm_terms.specs.declared.faults.SourceError.TheVariants.{Bad};

use crate::faults::{SourceCause, SourceError, fault};
use stm_history::Text;
use stm_tokens::{Symbol, Token, TokenKind, Word};

/// Where the next token begins.
pub fn place(tokens: &[Token]) -> usize
    ensures { result ≡ spec.place tokens.now }
{
    match tokens.first() {
        Some(token) => token.at,
        None => 0,
    }
}

/// What is wrong with a token where another one is wanted.
fn unwanted(kind: &TokenKind) -> SourceCause
    ensures { result ≡ spec.unwanted kind.now }
{
    match kind {
        TokenKind::Wrong => SourceCause::Token,
        _ => SourceCause::Syntax,
    }
}

/// The fault of the next token, where another one is wanted.
pub fn unexpected(tokens: &[Token]) -> SourceError
    ensures { result ≡ Bad (spec.unexpected tokens.now) }
{
    match tokens.first() {
        Some(token) => fault(token.at, unwanted(&token.kind)),
        None => fault(0, SourceCause::Syntax),
    }
}

/// The tokens behind this symbol, if it is the next token.
pub fn after_symbol(tokens: &[Token], symbol: Symbol) -> Option<&[Token]>
    ensures { option_map (λ rest. rest.now) result ≡ spec.after_symbol symbol tokens.now }
{
    let (first, rest) = tokens.split_first()?;
    if first.kind.is_symbol(symbol) {
        Some(rest)
    } else {
        None
    }
}

/// The tokens behind this word, if it is the next token.
pub fn after_word(tokens: &[Token], word: Word) -> Option<&[Token]>
    ensures { option_map (λ rest. rest.now) result ≡ spec.after_word word tokens.now }
{
    let (first, rest) = tokens.split_first()?;
    if first.kind.is_word(word) {
        Some(rest)
    } else {
        None
    }
}

/// The tokens behind this name, if it is the next token.
pub fn after_name<'a>(tokens: &'a [Token], name: &str) -> Option<&'a [Token]>
    ensures { option_map (λ rest. rest.now) result ≡ spec.after_name name.now tokens.now }
{
    let (first, rest) = tokens.split_first()?;
    if first.kind.is_named(name) {
        Some(rest)
    } else {
        None
    }
}

/// The tokens behind this symbol, which has to be the next token.
pub fn expect_symbol(tokens: &[Token], symbol: Symbol) -> Result<&[Token], SourceError>
    ensures { Returns (λ rest. rest.now) result (spec.expect_symbol symbol tokens.now) }
{
    match after_symbol(tokens, symbol) {
        Some(rest) => Ok(rest),
        None => Err(unexpected(tokens)),
    }
}

/// The tokens behind this word, which has to be the next token.
pub fn expect_word(tokens: &[Token], word: Word) -> Result<&[Token], SourceError>
    ensures { Returns (λ rest. rest.now) result (spec.expect_word word tokens.now) }
{
    match after_word(tokens, word) {
        Some(rest) => Ok(rest),
        None => Err(unexpected(tokens)),
    }
}

/// The tokens behind this name, which has to be the next token.
pub fn expect_name<'a>(tokens: &'a [Token], name: &str) -> Result<&'a [Token], SourceError>
    ensures { Returns (λ rest. rest.now) result (spec.expect_name name.now tokens.now) }
{
    match after_name(tokens, name) {
        Some(rest) => Ok(rest),
        None => Err(unexpected(tokens)),
    }
}

/// The tokens behind a semicolon, where one is the next token, else all.
pub fn skip_semicolon(tokens: &[Token]) -> &[Token]
    ensures { result.now ≡ spec.skip_semicolon tokens.now }
{
    match after_symbol(tokens, Symbol::Semicolon) {
        Some(rest) => rest,
        None => tokens,
    }
}

/// The number that is the next token, and what is behind it.
pub fn next_number(tokens: &[Token]) -> Option<(u64, &[Token])>
    ensures { option_map (λ p. (p.0, p.1.now)) result ≡ spec.next_number tokens.now }
{
    let (first, rest) = tokens.split_first()?;
    match &first.kind {
        TokenKind::Number(number) => Some((*number, rest)),
        _ => None,
    }
}

/// The name that is the next token, and what is behind it.
pub fn next_name(tokens: &[Token]) -> Option<(&str, &[Token])>
    ensures { option_map (λ p. (p.0.now, p.1.now)) result ≡ spec.next_name tokens.now }
{
    let (first, rest) = tokens.split_first()?;
    match &first.kind {
        TokenKind::Name(name) => Some((name.as_str(), rest)),
        _ => None,
    }
}

/// The text that is the next token, and what is behind it.
pub fn next_text(tokens: &[Token]) -> Option<(&Text, &[Token])>
    ensures { option_map (λ p. (p.0.now, p.1.now)) result ≡ spec.next_text tokens.now }
{
    let (first, rest) = tokens.split_first()?;
    match &first.kind {
        TokenKind::Text(text) => Some((text, rest)),
        _ => None,
    }
}

/// The tokens behind an opened bracket, where so many may still be opened.
pub fn open_bracket(levels: usize, tokens: &[Token]) -> Result<&[Token], SourceError>
    ensures is { Returns (λ rest. rest.now) result (spec.open_bracket levels tokens.now) }
    ensures opens { OnOk result (0 < levels) }
{
    if levels == 0 {
        return Err(unexpected(tokens));
    }
    expect_symbol(tokens, Symbol::LeftParenthesis)
}

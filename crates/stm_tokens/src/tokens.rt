//! The tokens of a source.
ghost use Rattle.std.specs.Prelude.{◌≡◌, ◌≤◌, ◌++◌, length, IfOk, IfSome, OnOk};
ghost use Rattle.stm_tokens.specs.Tokens.{skipped as skipped_of, name_piece, number_piece, text_piece, symbol_piece, piece_at, after_blanks, next_at, length_of, added, advanced};
ghost use Rattle.stm_tokens.specs.Tokens.{tokens_in};

use crate::names::name_token;
use crate::numbers::{number_length, number_of};
use crate::quoted::{closing_quote, plain_text, quoted_text};
use crate::runs::{Run, begins_name, is_digit, run_length};
use crate::symbols::symbol_of;
use crate::token::{Token, TokenKind};
use std::alloc::{AllocError, Global};
use stm_history::Text;

/// What stands next in a source.
#[derive(Debug, Drop)]
pub(crate) enum Ahead {
    /// So many bytes between tokens.
    Blank(usize),
    /// A token of so many bytes.
    Token(Token, usize),
    /// The last token that is read.
    Last(Token),
}

/// How many blank bytes, or bytes of one comment, there are at the start.
fn skipped(bytes: &[u8]) -> usize
    ensures is { result ≡ skipped_of bytes.now }
    ensures within { result ≤ length bytes.now }
{
    match bytes {
        [b'/', b'/', ..] => run_length(Run::Comment, bytes),
        _ => run_length(Run::Blank, bytes),
    }
}

/// The name or the word at the start, and its length.
fn name_at(alloc: Global, bytes: &[u8]) -> Result<Option<(TokenKind, usize)>, AllocError>
    ensures is { IfOk result (λ piece. piece ≡ name_piece bytes.now) }
    ensures within { IfOk result (λ piece. IfSome piece (λ p. p.1 ≤ length bytes.now)) }
{
    let length = run_length(Run::Name, bytes);
    match str::from_utf8(&bytes[..length]) {
        Ok(word) => {
            let kind = name_token(alloc, word)?;
            Ok(Some((kind, length)))
        }
        Err(_) => Ok(None),
    }
}

/// The number at the start, and its length.
fn number_at(bytes: &[u8]) -> Option<(TokenKind, usize)>
    ensures is { result ≡ number_piece bytes.now }
    ensures within { IfSome result (λ p. p.1 ≤ length bytes.now) }
{
    let length = number_length(bytes);
    let value = number_of(&bytes[..length]);
    Some((TokenKind::Number(value), length))
}

/// The text at the start, which may have escapes, and its length with its quotes.
fn escaped_text(alloc: Global, bytes: &[u8]) -> Result<Option<(TokenKind, usize)>, AllocError>
    ensures is { IfOk result (λ piece. piece ≡ text_piece bytes.now) }
    ensures within { IfOk result (λ piece. IfSome piece (λ p. p.1 ≤ length bytes.now)) }
{
    let Some((_, inner)) = bytes.split_first() else {
        return Ok(None);
    };
    let Some(closed) = closing_quote(inner) else {
        return Ok(None);
    };
    let length = closed + 1;
    match quoted_text(alloc, &bytes[..length])? {
        Some(text) => Ok(Some((TokenKind::Text(text), length))),
        None => Ok(None),
    }
}

/// The text at the start, and its length with its quotes.
fn text_at(alloc: Global, bytes: &[u8]) -> Result<Option<(TokenKind, usize)>, AllocError>
    ensures is { IfOk result (λ piece. piece ≡ text_piece bytes.now) }
    ensures within { IfOk result (λ piece. IfSome piece (λ p. p.1 ≤ length bytes.now)) }
{
    let Some(text) = plain_text(bytes) else {
        return escaped_text(alloc, bytes);
    };
    let length = text.len() + 2;
    let text = Text::copy_of(alloc, text)?;
    Ok(Some((TokenKind::Text(text), length)))
}

/// The symbol at the start, and its length.
fn symbol_piece_at(first: u8, bytes: &[u8]) -> Option<(TokenKind, usize)>
    ensures { result ≡ symbol_piece first bytes.now }
{
    let (symbol, length) = symbol_of(first, bytes)?;
    Some((TokenKind::Symbol(symbol), length))
}

/// The token that these bytes begin with, of which the first is given, and its length; none, where they begin with no token.
#[tactic(auto, unfolding(crate::specs::Tokens::piece_at))]
fn piece(alloc: Global, first: u8, bytes: &[u8]) -> Result<Option<(TokenKind, usize)>, AllocError>
    ensures { IfOk result (λ piece. piece ≡ piece_at first bytes.now) }
{
    if begins_name(first) {
        name_at(alloc, bytes)
    } else if is_digit(first) {
        Ok(number_at(bytes))
    } else if first == b'"' {
        text_at(alloc, bytes)
    } else {
        Ok(symbol_piece_at(first, bytes))
    }
}

/// What stands next behind blanks, at a place.
fn next_token(alloc: Global, at: usize, bytes: &[u8]) -> Result<Ahead, AllocError>
    ensures { IfOk result (λ next. next ≡ after_blanks at bytes.now) }
{
    let Some(first) = bytes.first() else {
        return Ok(Ahead::Last(Token {
            at,
            kind: TokenKind::End,
        }));
    };
    match piece(alloc, *first, bytes)? {
        Some((kind, length)) => {
            let length = if length > bytes.len() {
                bytes.len()
            } else {
                length
            };
            Ok(Ahead::Token(Token { at, kind }, length))
        }
        None => Ok(Ahead::Last(Token {
            at,
            kind: TokenKind::Wrong,
        })),
    }
}

/// What stands next at a place.
#[tactic(auto, unfolding(crate::specs::Tokens::next_at))]
fn next(alloc: Global, at: usize, bytes: &[u8]) -> Result<Ahead, AllocError>
    ensures is { IfOk result (λ next. next ≡ next_at at bytes.now) }
    ensures within { IfOk result (λ next. length_of next ≤ length bytes.now) }
{
    let blank = skipped(bytes);
    if blank > 0 {
        return Ok(Ahead::Blank(blank));
    }
    next_token(alloc, at, bytes)
}

/// Adds what stands next at a place, and answers how many bytes it has, if anything follows it.
fn advance(
    alloc: Global,
    at: usize,
    bytes: &[u8],
    tokens: &mut Vec<Token>,
) -> Result<Option<usize>, AllocError>
    ensures adds { OnOk result (tokens.new.items ≡ tokens.old.items ++ added (next_at at bytes.now)) }
    ensures leads { IfOk result (λ more. more ≡ advanced (next_at at bytes.now)) }
    ensures within { IfOk result (λ more. IfSome more (λ n. n ≤ length bytes.now)) }
{
    match next(alloc, at, bytes)? {
        Ahead::Blank(length) => Ok(Some(length)),
        Ahead::Token(token, length) => {
            tokens.push(token)?;
            Ok(Some(length))
        }
        Ahead::Last(token) => {
            tokens.push(token)?;
            Ok(None)
        }
    }
}

/// The tokens of a source, in order. The last one is its end, or the first place where no token begins.
pub fn tokens_of(alloc: Global, source: &[u8]) -> Result<Vec<Token>, AllocError>
    ensures { IfOk result (λ tokens. tokens.items ≡ tokens_in source.now) }
{
    let mut tokens = Vec::new(alloc);
    let mut at = 0;
    let mut rest = source;
    // Each turn but the last reads a byte, so these are enough.
    for _turn in 0..source.len() + 1 {
        let Some(length) = advance(alloc, at, rest, &mut tokens)? else {
            return Ok(tokens);
        };
        let (_, after) = rest.split_at(length);
        at += length;
        rest = after;
    }
    Ok(tokens)
}

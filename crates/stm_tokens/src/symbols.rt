//! Tokens of one to three signs: of those that begin alike, the longest.
ghost use Rattle.std.specs.Prelude.{◌≡◌, option_map};
ghost use Rattle.stm_program.specs.Operators.{operator_signed};
ghost use Rattle.stm_tokens.specs.Symbols.{bracket, comparison, arithmetic, operator_symbol, symbol_at, second_is};

use crate::token::Symbol;
use stm_program::Operator;

/// Whether the second byte is this one.
fn is_second(bytes: &[u8], sign: u8) -> bool
    ensures { result ≡ second_is sign bytes.now }
{
    match bytes {
        [_, second, ..] => *second == sign,
        _ => false,
    }
}

/// A symbol of one byte, or the one that the second byte makes of it.
fn followed(bytes: &[u8], sign: u8, longer: Symbol, shorter: Symbol) -> (Symbol, usize)
    ensures { result ≡ Rattle.stm_tokens.specs.Symbols.followed sign longer shorter bytes.now }
{
    if is_second(bytes, sign) {
        (longer, 2)
    } else {
        (shorter, 1)
    }
}

/// The symbol of two bytes, of which the second is this one.
fn doubled(bytes: &[u8], sign: u8, symbol: Symbol) -> Option<(Symbol, usize)>
    ensures { result ≡ Rattle.stm_tokens.specs.Symbols.doubled sign symbol bytes.now }
{
    if is_second(bytes, sign) {
        Some((symbol, 2))
    } else {
        None
    }
}

/// The bracket, comma or other mark that begins with a byte.
#[tactic(auto, unfolding(crate::specs::Symbols::bracket))]
fn bracket_of(first: u8, bytes: &[u8]) -> Option<(Symbol, usize)>
    ensures { result ≡ bracket first bytes.now }
{
    if first == b'(' {
        Some((Symbol::LeftParenthesis, 1))
    } else if first == b')' {
        Some((Symbol::RightParenthesis, 1))
    } else if first == b'{' {
        Some((Symbol::LeftBrace, 1))
    } else if first == b'}' {
        Some((Symbol::RightBrace, 1))
    } else if first == b',' {
        Some((Symbol::Comma, 1))
    } else if first == b';' {
        Some((Symbol::Semicolon, 1))
    } else if first == b'.' {
        doubled(bytes, b'.', Symbol::Dots)
    } else {
        None
    }
}

/// The sign of a comparison, a condition or an assignment that begins with a byte.
#[tactic(auto, unfolding(crate::specs::Symbols::comparison))]
fn comparison_of(first: u8, bytes: &[u8]) -> Option<(Symbol, usize)>
    ensures { result ≡ comparison first bytes.now }
{
    if first == b'=' {
        Some(followed(bytes, b'=', Symbol::Equal, Symbol::Assign))
    } else if first == b'!' {
        Some(followed(bytes, b'=', Symbol::NotEqual, Symbol::Not))
    } else if first == b'<' {
        Some(followed(bytes, b'=', Symbol::LessOrEqual, Symbol::Less))
    } else if first == b'>' {
        Some(followed(bytes, b'=', Symbol::GreaterOrEqual, Symbol::Greater))
    } else if first == b'&' {
        doubled(bytes, b'&', Symbol::And)
    } else if first == b'|' {
        doubled(bytes, b'|', Symbol::Or)
    } else {
        None
    }
}

/// What begins with two `+`.
fn concatenation(rest: &[u8]) -> (Symbol, usize)
    ensures { result ≡ Rattle.stm_tokens.specs.Symbols.concatenation rest.now }
{
    if is_second(rest, b'=') {
        (Symbol::ConcatenateAssign, 3)
    } else {
        (Symbol::Concatenate, 2)
    }
}

/// What begins with a `+`.
fn sum(bytes: &[u8]) -> (Symbol, usize)
    ensures { result ≡ Rattle.stm_tokens.specs.Symbols.sum bytes.now }
{
    match bytes {
        [_, rest @ ..] if is_second(bytes, b'+') => concatenation(rest),
        _ => followed(
            bytes,
            b'=',
            Symbol::AddAssign,
            Symbol::Arithmetic(Operator::Add),
        ),
    }
}

/// The operator that begins with bytes.
fn operator_of(bytes: &[u8]) -> Option<(Symbol, usize)>
    ensures { result ≡ option_map operator_symbol (operator_signed bytes.now) }
{
    match Operator::signed(bytes) {
        Some(operator) => Some((Symbol::Arithmetic(operator), operator.sign().len())),
        None => None,
    }
}

/// The sign of arithmetic that begins with a byte.
#[tactic(auto, unfolding(crate::specs::Symbols::arithmetic))]
fn arithmetic_of(first: u8, bytes: &[u8]) -> Option<(Symbol, usize)>
    ensures { result ≡ arithmetic first bytes.now }
{
    if first == b'+' {
        Some(sum(bytes))
    } else if first == b'-' {
        Some(followed(
            bytes,
            b'=',
            Symbol::SubtractAssign,
            Symbol::Arithmetic(Operator::Sub),
        ))
    } else {
        operator_of(bytes)
    }
}

/// The symbol that begins with a byte, the first of these, and how many bytes it has.
#[tactic(auto, unfolding(crate::specs::Symbols::symbol_at))]
pub(crate) fn symbol_of(first: u8, bytes: &[u8]) -> Option<(Symbol, usize)>
    ensures { result ≡ symbol_at first bytes.now }
{
    if let Some(symbol) = bracket_of(first, bytes) {
        return Some(symbol);
    }
    if let Some(symbol) = arithmetic_of(first, bytes) {
        return Some(symbol);
    }
    comparison_of(first, bytes)
}

//! What a token is.
ghost use Rattle.std.specs.Prelude.{◌≡◌};
ghost use Rattle.stm_tokens.specs.Same.{symbol_place, word_place, same_symbol, same_word, is_symbol, is_word, is_named};

use stm_history::Text;
use stm_program::Operator;

/// A token that is neither a name nor a number nor a text.
#[derive(Clone, Copy, Debug, PartialEq, Eq)]
pub enum Symbol {
    /// `(`
    LeftParenthesis,
    /// `)`
    RightParenthesis,
    /// `{`
    LeftBrace,
    /// `}`
    RightBrace,
    /// `,`
    Comma,
    /// `;`
    Semicolon,
    /// `..`
    Dots,
    /// `=`
    Assign,
    /// `+=`
    AddAssign,
    /// `-=`
    SubtractAssign,
    /// `++=`
    ConcatenateAssign,
    /// `==`
    Equal,
    /// `!=`
    NotEqual,
    /// `<`
    Less,
    /// `<=`
    LessOrEqual,
    /// `>`
    Greater,
    /// `>=`
    GreaterOrEqual,
    /// `++`
    Concatenate,
    /// `&&`
    And,
    /// `||`
    Or,
    /// `!`
    Not,
    /// The sign of an operator on two numbers.
    Arithmetic(Operator),
}

impl Symbol {
    /// Its place among the symbols, from 0.
    fn place(self) -> u8
        ensures { result ≡ symbol_place self }
    {
        match self {
            Symbol::LeftParenthesis => 0,
            Symbol::RightParenthesis => 1,
            Symbol::LeftBrace => 2,
            Symbol::RightBrace => 3,
            Symbol::Comma => 4,
            Symbol::Semicolon => 5,
            Symbol::Dots => 6,
            Symbol::Assign => 7,
            Symbol::AddAssign => 8,
            Symbol::SubtractAssign => 9,
            Symbol::ConcatenateAssign => 10,
            Symbol::Equal => 11,
            Symbol::NotEqual => 12,
            Symbol::Less => 13,
            Symbol::LessOrEqual => 14,
            Symbol::Greater => 15,
            Symbol::GreaterOrEqual => 16,
            Symbol::Concatenate => 17,
            Symbol::And => 18,
            Symbol::Or => 19,
            Symbol::Not => 20,
            Symbol::Arithmetic(operator) => 21 + operator.place(),
        }
    }

    /// Whether it is this one.
    #[tactic(auto, unfolding(crate::specs::Same::same_symbol))]
    pub fn is(self, other: Symbol) -> bool
        ensures { result ≡ same_symbol self other }
    {
        self.place() == other.place()
    }
}

/// A word that is no name.
#[derive(Clone, Copy, Debug, PartialEq, Eq)]
pub enum Word {
    /// `program`
    Program,
    /// `rule`
    Rule,
    /// `finally`
    Finally,
    /// `let`
    Let,
    /// `if`
    If,
    /// `else`
    Else,
    /// `for`
    For,
    /// `in`
    In,
    /// `return`
    Return,
    /// `break`
    Break,
    /// `continue`
    Continue,
    /// `put`
    Put,
    /// `del`
    Del,
    /// `emit`
    Emit,
    /// `abort`
    Abort,
    /// `prefetch`
    Prefetch,
    /// `get`
    Get,
    /// `rev`
    Rev,
    /// `num_of`
    NumOf,
    /// `text_of`
    TextOf,
}

impl Word {
    /// Its place among the words, from 0.
    fn place(self) -> u8
        ensures { result ≡ word_place self }
    {
        match self {
            Word::Program => 0,
            Word::Rule => 1,
            Word::Finally => 2,
            Word::Let => 3,
            Word::If => 4,
            Word::Else => 5,
            Word::For => 6,
            Word::In => 7,
            Word::Return => 8,
            Word::Break => 9,
            Word::Continue => 10,
            Word::Put => 11,
            Word::Del => 12,
            Word::Emit => 13,
            Word::Abort => 14,
            Word::Prefetch => 15,
            Word::Get => 16,
            Word::Rev => 17,
            Word::NumOf => 18,
            Word::TextOf => 19,
        }
    }

    /// Whether it is this one.
    #[tactic(auto, unfolding(crate::specs::Same::same_word))]
    pub fn is(self, other: Word) -> bool
        ensures { result ≡ same_word self other }
    {
        self.place() == other.place()
    }
}

/// What stands at a place of a source.
#[derive(Debug, Drop)]
pub enum TokenKind {
    /// A name: a letter or `_`, then letters, digits and `_`, which is none of the words that are no names.
    Name(Text),
    /// A word that is no name.
    Word(Word),
    /// A whole number. One of more than 19 digits is 9999999999999999999, which is out of every range.
    Number(u64),
    /// A text, without its quotes and escapes.
    Text(Text),
    /// Any other token.
    Symbol(Symbol),
    /// What begins no token, or a text that is not closed or has a wrong escape. It is the last one that is read.
    Wrong,
    /// The end of the source.
    End,
}

impl TokenKind {
    /// Whether it is this symbol.
    pub fn is_symbol(&self, symbol: Symbol) -> bool
        ensures { result ≡ is_symbol symbol self.now }
    {
        match self {
            TokenKind::Symbol(found) => found.is(symbol),
            _ => false,
        }
    }

    /// Whether it is this word, which is no name.
    pub fn is_word(&self, word: Word) -> bool
        ensures { result ≡ is_word word self.now }
    {
        match self {
            TokenKind::Word(found) => found.is(word),
            _ => false,
        }
    }

    /// Whether it is this name.
    pub fn is_named(&self, name: &str) -> bool
        ensures { result ≡ is_named name.now self.now }
    {
        match self {
            TokenKind::Name(found) => found.as_str() == name,
            _ => false,
        }
    }
}

/// A token, and where it begins.
#[derive(Debug, Drop)]
pub struct Token {
    /// The number of bytes before it.
    pub at: usize,
    /// What it is.
    pub kind: TokenKind,
}

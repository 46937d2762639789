//! The words that programs are spelled with.
ghost use Rattle.std.specs.Prelude.{◌≡◌};
ghost use Rattle.stm_program_json.specs.Words.{expression_word, other_word, condition_word, statement_word};

use stm_program::Operator;

/// An expression of one part.
#[derive(Clone, Copy, Debug, PartialEq, Eq)]
pub enum Unary {
    /// `get`
    Get,
    /// `rev`
    Rev,
    /// `text_of`
    TextOf,
    /// `num_of`
    NumOf,
}

/// An expression of two parts.
#[derive(Clone, Copy, Debug, PartialEq, Eq)]
pub enum Binary {
    /// The word of an operator on two numbers.
    Arithmetic(Operator),
    /// `cat`
    Cat,
}

/// The first word of an expression.
#[derive(Clone, Copy, Debug, PartialEq, Eq)]
pub enum ExprWord {
    /// `var`
    Var,
    /// The word of an expression of one part.
    Unary(Unary),
    /// The word of an expression of two parts.
    Binary(Binary),
}

/// A comparison of two expressions.
#[derive(Clone, Copy, Debug, PartialEq, Eq)]
pub enum Comparison {
    /// `eq`
    Equal,
    /// `less`
    Less,
}

/// A condition of two conditions.
#[derive(Clone, Copy, Debug, PartialEq, Eq)]
pub enum Connective {
    /// `and`
    And,
    /// `or`
    Or,
}

/// The first word of a condition.
#[derive(Clone, Copy, Debug, PartialEq, Eq)]
pub enum CondWord {
    /// The word of a comparison.
    Comparison(Comparison),
    /// `not`
    Not,
    /// The word of a condition of two conditions.
    Connective(Connective),
}

/// A statement of one expression.
#[derive(Clone, Copy, Debug, PartialEq, Eq)]
pub enum Simple {
    /// `del`
    Del,
    /// `emit`
    Emit,
    /// `abort`
    Abort,
}

/// The first word of a statement.
#[derive(Clone, Copy, Debug, PartialEq, Eq)]
pub enum StmtWord {
    /// `set`
    Set,
    /// `put`
    Put,
    /// `if`
    If,
    /// `for`
    For,
    /// The word of a statement of one expression.
    Simple(Simple),
}

/// The expression that is no operator on two numbers and begins with a word, if there is one.
fn other_word_of(word: &str) -> Option<ExprWord>
    ensures { result ≡ other_word word.now }
{
    match word {
        "var" => Some(ExprWord::Var),
        "get" => Some(ExprWord::Unary(Unary::Get)),
        "rev" => Some(ExprWord::Unary(Unary::Rev)),
        "text_of" => Some(ExprWord::Unary(Unary::TextOf)),
        "num_of" => Some(ExprWord::Unary(Unary::NumOf)),
        "cat" => Some(ExprWord::Binary(Binary::Cat)),
        _ => None,
    }
}

/// The expression that begins with a word, if there is one.
#[tactic(auto, unfolding(crate::specs::Words::expression_word))]
pub(crate) fn expression_word_of(word: &str) -> Option<ExprWord>
    ensures { result ≡ expression_word word.now }
{
    match Operator::named(word) {
        Some(operator) => Some(ExprWord::Binary(Binary::Arithmetic(operator))),
        None => other_word_of(word),
    }
}

/// The condition that begins with a word, if there is one.
#[tactic(auto, unfolding(crate::specs::Words::condition_word))]
pub(crate) fn condition_word_of(word: &str) -> Option<CondWord>
    ensures { result ≡ condition_word word.now }
{
    match word {
        "eq" => Some(CondWord::Comparison(Comparison::Equal)),
        "less" => Some(CondWord::Comparison(Comparison::Less)),
        "not" => Some(CondWord::Not),
        "and" => Some(CondWord::Connective(Connective::And)),
        "or" => Some(CondWord::Connective(Connective::Or)),
        _ => None,
    }
}

/// The statement that begins with a word, if there is one.
#[tactic(auto, unfolding(crate::specs::Words::statement_word))]
pub(crate) fn statement_word_of(word: &str) -> Option<StmtWord>
    ensures { result ≡ statement_word word.now }
{
    match word {
        "set" => Some(StmtWord::Set),
        "put" => Some(StmtWord::Put),
        "if" => Some(StmtWord::If),
        "for" => Some(StmtWord::For),
        "del" => Some(StmtWord::Simple(Simple::Del)),
        "emit" => Some(StmtWord::Simple(Simple::Emit)),
        "abort" => Some(StmtWord::Simple(Simple::Abort)),
        _ => None,
    }
}

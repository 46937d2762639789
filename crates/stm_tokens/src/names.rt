//! Names, and the words that are none.
ghost use Rattle.std.specs.Prelude.{◌≡◌, IfOk};
ghost use Rattle.stm_tokens.specs.Names.{statement_word, word_of, named};

use crate::token::{TokenKind, Word};
use std::alloc::{AllocError, Global};
use stm_history::Text;

/// The word that begins a statement, if this is one.
#[tactic(auto, unfolding(crate::specs::Names::statement_word))]
fn statement_word_of(word: &str) -> Option<Word>
    ensures { result ≡ statement_word word.now }
{
    match word {
        "let" => Some(Word::Let),
        "if" => Some(Word::If),
        "for" => Some(Word::For),
        "put" => Some(Word::Put),
        "del" => Some(Word::Del),
        "emit" => Some(Word::Emit),
        "abort" => Some(Word::Abort),
        "return" => Some(Word::Return),
        "break" => Some(Word::Break),
        "continue" => Some(Word::Continue),
        _ => None,
    }
}

/// The word within a statement, or around statements, if this is one.
#[tactic(auto, unfolding(crate::specs::Names::other_word))]
fn other_word_of(word: &str) -> Option<Word>
    ensures { result ≡ Rattle.stm_tokens.specs.Names.other_word word.now }
{
    match word {
        "get" => Some(Word::Get),
        "rev" => Some(Word::Rev),
        "num_of" => Some(Word::NumOf),
        "text_of" => Some(Word::TextOf),
        "else" => Some(Word::Else),
        "in" => Some(Word::In),
        "prefetch" => Some(Word::Prefetch),
        "program" => Some(Word::Program),
        "rule" => Some(Word::Rule),
        "finally" => Some(Word::Finally),
        _ => None,
    }
}

/// The token that a name or a word is.
#[tactic(auto, unfolding(crate::specs::Names::word_of))]
pub(crate) fn name_token(alloc: Global, word: &str) -> Result<TokenKind, AllocError>
    ensures { IfOk result (λ kind. kind ≡ named word.now (word_of word.now)) }
{
    if let Some(word) = statement_word_of(word) {
        return Ok(TokenKind::Word(word));
    }
    if let Some(word) = other_word_of(word) {
        return Ok(TokenKind::Word(word));
    }
    let name = Text::copy_of(alloc, word)?;
    Ok(TokenKind::Name(name))
}

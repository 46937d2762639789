//! Which words of a command line are the arguments of a program of a source.
ghost use Rattle.std.specs.Prelude.{◌≡◌, ◌≤◌, length, map, IfOk, string_bytes};
ghost use Rattle.stm_arguments.specs.Cutting as spec;

use std::alloc::AllocError;

/// The words of a command line, and behind them the arguments of a program of a source, which are read as they are.
#[derive(Drop)]
pub struct CutWords {
    /// The words.
    pub words: Vec<String>,
    /// The arguments: what stands behind a file and the program's name. None where no program is named.
    pub arguments: Vec<String>,
}

/// Whether a word is an option, and stands in no place.
fn is_option(word: &[u8]) -> bool
    ensures { result ≡ spec.is_option word.now }
{
    match word {
        [first, _, ..] => *first == b'-',
        _ => false,
    }
}

/// Whether a word is an option whose value is the word behind it.
fn takes_value(word: &str) -> bool
    ensures { result ≡ spec.takes_value word.now }
{
    word == "--store" || word == "--level" || word == "--attempts"
}

/// How many words there are up to the next one in a place, and with it; all, where there is none.
fn up_to_place(words: &[String]) -> usize
    ensures is { result ≡ spec.up_to_place (map string_bytes words.now) }
    ensures within { result ≤ length words.now }
{
    let mut is_value = false;
    for (index, word) in words.iter().enumerate() {
        if is_value {
            is_value = false;
        } else if is_option(word.as_str().as_bytes()) {
            is_value = takes_value(word.as_str());
        } else {
            return index + 1;
        }
    }
    words.len()
}

/// How many words there are up to the second one in a place, and with it.
fn up_to_name(words: &[String]) -> usize
    ensures is { result ≡ spec.up_to_name (map string_bytes words.now) }
    ensures within { result ≤ length words.now }
{
    let file = up_to_place(words);
    file + up_to_place(&words[file..])
}

/// Whether a command takes a program's name, and its arguments behind that.
fn names_program(command: &str) -> bool
    ensures { result ≡ spec.names_program command.now }
{
    command == "compile" || command == "run"
}

/// How many words of a command line stand before the arguments of a program.
#[tactic(auto, using(crate::proofs::CuttingLemmas::fewer, crate::proofs::CuttingLemmas::named_at, crate::proofs::CuttingLemmas::other))]
fn before_arguments(words: &[String]) -> usize
    ensures is { result ≡ spec.before_arguments (map string_bytes words.now) }
    ensures within { result ≤ length words.now }
{
    if words.len() < 2 {
        return words.len();
    }
    if names_program(words[1].as_str()) {
        2 + up_to_name(&words[2..])
    } else {
        words.len()
    }
}

/// The words of a command line, of which the first is the program's name, and the arguments behind them. It fails where an allocation failed.
pub fn cut_words(words: Vec<String>) -> Result<CutWords, AllocError>
    ensures { IfOk result (λ read. spec.seen read ≡ spec.cut (map string_bytes words.items)) }
{
    let mut words = words;
    let count = before_arguments(words.as_slice());
    let arguments = words.split_off(count)?;
    Ok(CutWords { words, arguments })
}

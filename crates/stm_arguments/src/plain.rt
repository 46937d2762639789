//! Whether faults are to be explained, as the words of a command line say it.
ghost use Rattle.std.specs.Prelude.{◌≡◌, map, fold, IfOk, OnOk, string_bytes};
ghost use Rattle.stm_arguments.specs.Wording.{plain, spelled, seen, start, taken};

use std::alloc::{AllocError, Global};

/// The words of a command line as they are read.
///
/// Before the word `--`, `--explain=always` is another spelling of `--explain`, and `--explain=never` stands for no word.
#[derive(Drop)]
pub struct PlainWords {
    /// The words.
    pub words: Vec<String>,
    /// Whether `--explain=never` stood among them: then no fault is explained.
    pub is_silent: bool,
    /// Whether `--` stands among them: it and what follows it are read as they are.
    is_ended: bool,
}

/// A word in its plain spelling.
fn spelled(alloc: Global, word: String) -> Result<String, AllocError>
    ensures { IfOk result (λ plain. string_bytes plain ≡ spelled (string_bytes word)) }
{
    if word.as_str() == "--explain=always" {
        String::from_str(alloc, "--explain")
    } else {
        Ok(word)
    }
}

impl PlainWords {
    /// Takes the next word. Where it fails, words are missing.
    fn take(&mut self, alloc: Global, word: String) -> Result<(), AllocError>
        ensures { OnOk result (seen self.new ≡ taken (seen self.old) (string_bytes word)) }
    {
        if self.is_ended {
            self.words.push(word)?;
            return Ok(());
        }
        if word.as_str() == "--explain=never" {
            self.is_silent = true;
            return Ok(());
        }
        self.is_ended = word.as_str() == "--";
        let word = spelled(alloc, word)?;
        self.words.push(word)?;
        Ok(())
    }
}

/// The words of a command line as they are read. It fails where an allocation failed.
pub fn plain_words(alloc: Global, words: Vec<String>) -> Result<PlainWords, AllocError>
    ensures { IfOk result (λ read. seen read ≡ plain (map string_bytes words.items)) }
{
    let mut read = PlainWords {
        words: Vec::new(alloc),
        is_silent: false,
        is_ended: false,
    };
    for word in words {
        read.take(alloc, word)?;
    }
    Ok(read)
}

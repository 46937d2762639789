//! From the words of a recipe to its line in a sink.
ghost use Rattle.std.specs.Prelude.{◌≡◌, false};
ghost use Rattle.stm_recipe_lines.specs.Lines.{Fits};
ghost use Rattle.stm_recipe_lines.specs.Printing.{Writes, Prints};
ghost use Rattle.stm_recipe_lines.specs.Reading.{recipe_in};

use crate::line::recipe_line;
use crate::reading::read_recipe;
use crate::recipe::Recipe;
use crate::words::{RecipeWords, WordsFault};
use std::alloc::Global;
use stm_devices::{Sink, write_all};
use thiserror::Error;

/// Why the line of a recipe was not printed.
#[derive(Clone, Copy, Debug, PartialEq, Eq, Error)]
pub enum RecipeFault {
    /// An allocation failed.
    #[error("out of memory")]
    OutOfMemory,
    /// The words spell no recipe.
    #[error("{0}")]
    Words(WordsFault),
    /// The sink failed.
    #[error("device fault")]
    Write,
}

/// Writes the line of a recipe, once it is whole.
fn write_line<W: Sink>(alloc: Global, recipe: &Recipe<'_>, sink: &mut W) -> Result<(), RecipeFault>
    requires fits { Fits recipe.now }
    requires sink_works { W.failed sink.old ≡ false }
    ensures { Writes recipe.now (W.held sink.old) (W.held sink.new) (W.failed sink.new) result }
{
    let line = match recipe_line(alloc, recipe) {
        Ok(line) => line,
        Err(_) => return Err(RecipeFault::OutOfMemory),
    };
    match write_all(sink, line.as_str().as_bytes()) {
        Ok(()) => Ok(()),
        Err(_) => Err(RecipeFault::Write),
    }
}

/// Writes the line of the recipe that words spell to a sink: its program as compact JSON, and a line feed.
///
/// The sink has not failed before. It fails as `Words` where the words spell no recipe, with what is wrong first, and takes no memory for it,
/// and as `OutOfMemory` where an allocation failed: then nothing was written. It fails as `Write` where the sink has failed: then a prefix of
/// the line was written.
pub fn print_recipe<W: Sink>(
    alloc: Global,
    words: &RecipeWords<'_>,
    sink: &mut W,
) -> Result<(), RecipeFault>
    requires { W.failed sink.old ≡ false }
    ensures { Prints (recipe_in words.now) (W.held sink.old) (W.held sink.new) (W.failed sink.new) result }
{
    match read_recipe(words) {
        Ok(recipe) => write_line(alloc, &recipe, sink),
        Err(fault) => Err(RecipeFault::Words(fault)),
    }
}

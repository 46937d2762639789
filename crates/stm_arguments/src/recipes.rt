//! The command line of `recipe`.
ghost use Rattle.std.specs.Prelude.{◌≡◌, IfOk};
ghost use Rattle.clap.specs.Words.{found_of, rows_of};
ghost use Rattle.stm_arguments.specs.Asking.{IsRecipe};

use crate::tables::{Form, Table, with_command};
use crate::words::{Unasked, required_word, word_of};
use clap::{ArgMatches, Command};
use std::alloc::{AllocError, Global};
use stm_recipe_lines::RecipeWords;

const RECIPE_EXAMPLE: &str =
    "Prints the program of a recipe as one line of JSON, which is the last part of a scenario's event
[\"start\",LEVEL,LIMIT,PROGRAM]:

  transfer FROM TO AMOUNT           moves an amount from one account to another; aborts with insufficient
                                    where the first has less. An account is a key whose value is a number
  deposit ACCOUNT AMOUNT            adds an amount to an account, which counts as 0 where it is absent
  enqueue QUEUE ITEM                puts an item at the end of a queue
  dequeue QUEUE                     puts out the first item and deletes it; aborts with empty where there is
                                    none. A queue keeps its items under QUEUE/0, QUEUE/1 and so on, and where
                                    they begin and end under QUEUE/head and QUEUE/tail
  reserve_slot SLOT HOLDER LEASE    puts the holder under the key SLOT, on a lease, 0 for none; aborts with
                                    held where the key is present
  release_slot SLOT HOLDER          deletes the key SLOT; aborts with not held where it is absent or has
                                    another value

FROM, TO, ACCOUNT, QUEUE, ITEM, SLOT and HOLDER have 1 to 1024 bytes, AMOUNT is a whole number from 0 to
4294967295, LEASE one from 0 to 9223372036854775807. Words that begin with - stand after --.

  stmrun recipe deposit a 30

prints the program of this scenario, which makes account a and puts 30 there:

  [[\"start\",\"Serializable\",1,
    [[\"set\",0,[\"get\",\"a\"]],[\"if\",[\"eq\",[\"var\",0],\"\"],[[\"set\",0,\"0\"]],[]],
     [\"put\",\"a\",[\"text_of\",[\"add\",[\"num_of\",[\"var\",0]],30]],0]]],
   [\"step\",1],[\"step\",1]]

stmrun recipe deposit a 30 | stmrun show --program prints it as a source has it.

Statuses: 0 done, 2 usage, 3 out of memory or a failed device.";

/// The command `recipe`.
const RECIPE: Table = Table {
    name: "recipe",
    about: "Prints the program of a recipe, as a scenario's start takes it",
    example: RECIPE_EXAMPLE,
    arguments: &[
        ("NAME", Form::Required, "The name of the recipe"),
        ("FIRST", Form::Optional, "Its first argument"),
        ("SECOND", Form::Optional, "Its second argument"),
        ("THIRD", Form::Optional, "Its third argument"),
    ],
    rules: &[],
};

/// A command with `recipe`.
pub(crate) fn with_recipe<'a>(
    alloc: Global,
    command: Command<'a>,
) -> Result<Command<'a>, AllocError> {
    with_command(alloc, command, &RECIPE)
}

/// The words of `recipe` that were found.
pub(crate) fn recipe_of<'a>(found: &ArgMatches<'a>) -> Result<RecipeWords<'a>, Unasked>
    ensures { IfOk result (IsRecipe (rows_of (found_of found.now))) }
{
    let name = required_word(found, "NAME")?;
    let first = word_of(found, "FIRST");
    let second = word_of(found, "SECOND");
    let third = word_of(found, "THIRD");
    Ok(RecipeWords {
        name,
        first,
        second,
        third,
    })
}

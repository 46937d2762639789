//! Recipes as a command line names them: what its words spell, and the line of JSON that has the recipe's program.
#![tactic(auto)]

mod line;
mod printing;
mod reading;
mod recipe;
mod words;

pub use line::recipe_line;
pub use printing::{RecipeFault, print_recipe};
pub use reading::read_recipe;
pub use recipe::Recipe;
pub use stm_devices::{DeviceFault, Sink};
pub use words::{Argument, RecipeKind, RecipeWords, WordsFault};

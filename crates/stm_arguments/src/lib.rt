//! The command line of `stmrun`: what its words ask for, and what is printed of words that are refused or ask for help.
#![tactic(auto)]

mod arguments;
mod auditing;
mod checking;
mod compiling;
mod cutting;
mod exploring;
mod given;
mod language;
mod levels;
mod numbers;
mod plain;
mod recipes;
mod running;
mod scripting;
mod showing;
mod storing;
mod tables;
mod threading;
mod topics;
mod words;

pub use arguments::{Asked, asked_of};
pub use auditing::AuditWords;
pub use checking::CheckWords;
pub use compiling::CompileWords;
pub use cutting::{CutWords, cut_words};
pub use exploring::ExploreWords;
pub use given::read_words;
pub use levels::Levels;
pub use numbers::{LEAST_WIDTH, MOST_ATTEMPTS, MOST_RUNS, MOST_WIDTH, MOST_WORKERS, USUAL_BUDGET};
pub use plain::{PlainWords, plain_words};
pub use running::RunWords;
pub use scripting::ScriptWords;
pub use showing::ShowWords;
pub use stm_program::Level;
pub use stm_recipe_lines::RecipeWords;
pub use storing::{Shown, StoreWords, Which};
pub use threading::ThreadsWords;
pub use topics::{Topic, print_topic, topic_of};

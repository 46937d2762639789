//! The commands that start no thread, over devices: what `script`, `check`, `show` and `recipe` write, their statuses, and what they say of a fault.
#![tactic(auto)]

mod checking;
mod explaining;
mod formats;
mod recipes;
mod scripting;
mod showing;
mod whole_checking;

pub use checking::check_to;
pub use explaining::{check_as_to, check_whole_to, script_as_to};
pub use formats::{NO_FORMAT, no_format_to};
pub use recipes::{USAGE, recipe_to};
pub use scripting::script_to;
pub use showing::show_to;
pub use stm_explain::{Input, KeptSource};
pub use stm_recipe_lines::RecipeWords;
pub use stm_report::{BadInput, DeviceFault, Format, RunnerLabel, Sink, Source, Std};
pub use stm_show::Shown;

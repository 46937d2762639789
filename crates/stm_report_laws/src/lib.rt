//! Laws of reports, of their forms and of whole reports: what a script writes is right, is read back, and passes each check.
#![tactic(auto)]

mod format_laws;
mod laws;
mod whole_laws;

pub use format_laws::{
    keys_apart, nothing_unescaped, one_line_a_row, one_object_an_event, one_row_an_event,
};
pub use laws::{checks_say_yes, reports_are_of_right_runs, yes_to_a_script};
pub use whole_laws::{alike_is_equal, yes_is_the_report};

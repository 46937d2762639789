//! The report of a run for people to read: a column of text for each runner, a picture, and a page.
//!
//! Text, picture and page are writers over the same rows, one for each event (`specs/FormatRows.antt`), with what was read, and what was there, from the
//! store's history. Below these stands what is left, and why commits failed (`stm_reasons`). `stm_report` has the forms that are lines of JSON.
#![tactic(auto)]

mod format_changes;
mod format_columns;
mod format_ends;
mod format_html;
mod format_keys;
mod format_label;
mod format_notes;
mod format_output;
mod format_page;
mod format_pieces;
mod format_reasons;
mod format_row;
mod format_rows;
mod format_runs;
mod format_source;
mod format_svg;
mod format_text;
mod format_words;
mod format_wrap;

pub use format_keys::Cuts;
pub use format_label::RunnerLabel;
pub use format_row::{Lane, Mark, Row};
pub use format_runs::{html_from, svg_from, text_from};
pub use stm_history::Sequence;
pub use stm_retry::{Denied, Reply, World, WorldEvent};

//! Job numbers that threads draw, each once and none left out.
//!
//! A table counts draws in one atomic word. Each thread has a seat, which knows what was drawn with it. Seats are split off before the
//! threads start and joined when they have ended; the seat that has all passes then knows that every job was drawn once.

mod rule;
mod steps;
mod table;
mod view;

pub use table::{JobSeat, JobTable};
pub use view::{Size, View};

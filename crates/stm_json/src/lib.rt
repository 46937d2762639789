//! Reading JSON: what a reader answers, where a fault stands, and looking into values.
//!
//! A reader answers a value, or the first fault with its place and cause, or that it is out of memory. The crates
//! that read programs and scenarios stand on these.
#![tactic(auto)]

mod cause;
mod elements;
mod limits;
mod parts;
mod place;
mod read_error;

pub use cause::Cause;
pub use elements::{four, number_between, number_within, one, three, two, whole, worded_array};
pub use limits::MOST_BYTES;
pub use parts::{number_part, text, text_part};
pub use place::{fault, within};
pub use read_error::{BadInput, ReadError};
pub use stm_history::Text;

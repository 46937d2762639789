//! What a command says of a fault, and its status, written piece by piece, which takes no memory; and what explains a fault of an input to people:
//! where in the file it stands, what was found there, and what is allowed.
//!
//! Nothing here decides anything: a reader has refused the input, and its answer stands.
#![tactic(auto)]

mod allowed;
mod exchanged;
mod explaining;
mod faults;
mod forms;
mod kept_source;
mod laws;
mod marked;
mod messages;
mod offsets;
mod position;
mod syntax;
mod tokens;
mod values;
mod walking;

pub use explaining::{explain, explained_at};
pub use forms::{
    COMPARES, CONDITIONS, EVENTS, EXPRESSIONS, Entry, FIRST_ELEMENTS, Input, LEVELS, LINES,
    OPERATIONS, ORDERS, Part, Parts, STATEMENTS,
};
pub use kept_source::KeptSource;
pub use laws::words_are_those_of_readers;
pub use marked::Marked;
pub use messages::{Message, Said, write_text};
pub use position::{Position, position_of};
pub use stm_devices::{DeviceFault, Sink};
pub use stm_json::BadInput;
pub use values::{is_hidden, shown};

//! The tokens of a source, a program or a scenario as people write it, each with the byte that it begins at.
//!
//! `specs/Tokens.antt` says which tokens a text has.
#![tactic(auto)]

mod names;
mod numbers;
mod position;
mod quoted;
mod runs;
mod symbols;
mod token;
mod tokens;

pub use numbers::{number_length, number_of};
pub use position::{Position, position_of};
pub use stm_history::Text;
pub use stm_program::Operator;
pub use token::{Symbol, Token, TokenKind, Word};
pub use tokens::tokens_of;

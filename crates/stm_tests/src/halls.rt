//! Worked examples of halls.

mod expiries;
mod player;
mod verdicts;

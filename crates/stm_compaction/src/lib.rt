//! Stores that have dropped their revisions below the floor.
//!
//! Such a store stands for the whole one, which dropped nothing: each call of it answers what the whole one answers, is
//! refused for the same cause, and leaves what the whole one leaves without its revisions below the floor. The laws of
//! `laws` say so of each call. Those who keep a store so know by them that it serves as the whole one would.
#![tactic(auto)]

pub mod laws;

//! How runners end in serial runs, and that this is how they end in every schedule of runners at the serializable levels. Nothing below needs it.
#![tactic(auto)]

pub mod laws;

//! What a step of a runner reports.
use stm_events::Reply;

/// The reply to a step of a runner.
#[derive(Drop)]
pub(crate) enum StepOutcome {
    /// The run goes on.
    GoesOn(Reply),
    /// The run is over.
    Ends(Reply),
}

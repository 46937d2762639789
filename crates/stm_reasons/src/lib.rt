//! Why commits failed, and on what commits went through that no longer was so: facts over the replies of a run and the history that it left.
//!
//! A commit that failed names a key. Here stands when its runner had read the key, and which event changed it since then, and how: a put, a deletion,
//! or the end of a lease (`specs/Reasons.antt`). A commit at ReadCommitted compares nothing: here stands each key that it was made on and that
//! another event had changed before it, which a level that compares would have refused.
#![tactic(auto)]

mod causes;
mod counting;
mod looks;
mod reason;
mod reasons;

pub use causes::state_by;
pub use counting::{counter_after, counter_at, counters};
pub use reason::{Cause, Deed, Ending, Reason};
pub use reasons::reasons_of;
pub use stm_events::{Denied, Reply};
pub use stm_history::{KeyState, Sequence, Text};
pub use stm_keys::Keys;

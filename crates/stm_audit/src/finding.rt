//! What an audit finds.
use crate::anomaly::Anomaly;
use stm_history::Text;

/// An anomaly of a commit.
#[derive(Debug, Drop)]
pub struct Finding {
    /// The number of the commit in the trace, from 1.
    pub commit: u64,
    /// What is wrong with it.
    pub anomaly: Anomaly,
    /// Whether its level promises that this does not come.
    pub is_broken: bool,
    /// The key.
    pub key: Text,
    /// The modification revision that was read of the key, 0 where it was absent; of a blind write the least revision that a read of the commit is of.
    pub seen: u64,
    /// The modification revision that the key had at the commit, 0 where it was absent.
    pub held: u64,
}

//! Whether two replies, and two lines, are the same value.
ghost use Rattle.std.specs.Prelude.{◌≡◌, ◌↔◌, IsTrue};

use crate::line::ReportLine;
use crate::refusal::Denied;
use crate::reply::Reply;
use stm_history::KeyState;

/// Whether a key is absent in both, or has the same state in both.
pub(crate) fn are_same_states(left: &Option<KeyState>, right: &Option<KeyState>) -> bool
    ensures { IsTrue result ↔ left.now ≡ right.now }
{
    left == right
}

/// Whether two events had the same reply, or were refused alike.
pub fn are_same_outcomes(left: &Result<Reply, Denied>, right: &Result<Reply, Denied>) -> bool
    ensures { IsTrue result ↔ left.now ≡ right.now }
{
    left == right
}

/// Whether two lines are the same.
pub fn are_same_lines(left: &ReportLine, right: &ReportLine) -> bool
    ensures { IsTrue result ↔ left.now ≡ right.now }
{
    left == right
}

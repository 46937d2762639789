//! What is said where no level is named as enough: that none is, or that it is not known.

use crate::audience::Audience;
use crate::leveled::LevelAnswers;
use crate::printed::SearchAnswer;
use crate::rules::verdict_of_all;
use crate::serial_levels::{SerialLevel, verdict_at};
use std::slice;

/// A rule is broken at the strongest level, too.
const BROKEN: &str = "no level is enough: a rule is broken at SerializableSnapshot, too";

/// No serial order comes to an outcome at the strongest level, either.
const ODD: &str = "no level is enough: there is an anomaly at SerializableSnapshot, too";

/// The strongest level was not decided.
const OPEN: &str =
    "which level is enough is not known: at SerializableSnapshot the search ended before all was decided (--budget)";

/// Says it by what is known of rules at levels, the weakest first.
pub(crate) fn tell_enough<O: Audience>(at: &[LevelAnswers], audience: &mut O) {
    if let Some(strongest) = at.last() {
        match verdict_of_all(strongest.answers.as_slice()) {
            SearchAnswer::Broken => audience.hear(BROKEN),
            SearchAnswer::Open => audience.hear(OPEN),
            SearchAnswer::Kept => {}
        }
    }
}

/// Says it by whether serial orders come to all at levels, the weakest first.
pub(crate) fn tell_enough_serial<O: Audience>(at: &[SerialLevel], audience: &mut O) {
    if let Some(strongest) = at.last() {
        match verdict_at(slice::from_ref(strongest)) {
            SearchAnswer::Broken => audience.hear(ODD),
            SearchAnswer::Open => audience.hear(OPEN),
            SearchAnswer::Kept => {}
        }
    }
}

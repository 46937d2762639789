//! The rule of the counter, and the names of the steps.

use crate::drawing::view::{Size, View};
use atomic_table::{Join, Play, Split, TableRule};

pub struct Dealing;

impl TableRule<(), View, Size> for Dealing {
    ghost use Rattle.stm_job.specs.Draw.{Dealt, newcomer};

    ghost holds = { Dealt };

    ghost first = { newcomer };
}

pub(crate) struct Drawing;

impl Play<(), View> for Drawing {
    ghost use Rattle.stm_job.specs.Draw.{Draws};

    ghost then = { Draws };
}

pub(crate) struct Looking;

impl Play<(), View> for Looking {
    ghost use Rattle.stm_job.specs.Draw.{Looks};

    ghost then = { Looks };
}

/// One pass goes to a seat of its own.
pub(crate) struct OnePass;

impl Split<View> for OnePass {
    ghost use Rattle.stm_job.specs.Draw.{kept, given};

    ghost left = { kept };

    ghost right = { given };
}

pub(crate) struct Both;

impl Join<View> for Both {
    ghost use Rattle.stm_job.specs.Draw.{joined, spent};

    ghost both = { joined };

    ghost spent = { spent };
}

//! How the runs of programs ended that a search for outcomes goes through, and to which faults they come.
ghost use Rattle.std.specs.Prelude.{[]};
ghost use Rattle.stm_exploring.specs.Beginnings.{IsReady};

use crate::accounts::tell_account;
use crate::audience::Audience;
use crate::beginning::Begun;
use crate::judging::Searched;
use std::alloc::Global;
use stm_explore::Observer;

/// Hears doubts as it hears all else: of outcomes the account is made where all is to be said alone, and so changes no status.
#[derive(Drop)]
struct Hearing<'a, O> {
    audience: &'a mut O,
}

impl<O: Observer> Observer for Hearing<'_, O> {
    fn passed(&mut self, length: u64, left: u64) {
        self.audience.passed(length, left);
    }

    fn spent(&mut self, left: u64) {
        self.audience.spent(left);
    }

    fn ended(&mut self) {
        self.audience.ended();
    }
}

impl<O: Audience> Audience for Hearing<'_, O> {
    fn wants_all(&self) -> bool {
        self.audience.wants_all()
    }

    fn hear(&mut self, line: &str) {
        self.audience.hear(line);
    }

    fn hear_fault(&mut self, line: &str) {
        self.audience.hear_fault(line);
    }

    fn doubt(&mut self, line: &str) {
        self.audience.hear(line);
    }
}

/// Says how the runs of runners ended in serial orders, and to which faults they come, where all is to be said.
pub(crate) fn tell_runs<O: Audience>(alloc: Global, begun: &Begun<'_>, audience: &mut O)
    requires { IsReady [] begun.now }
{
    if !audience.wants_all() {
        return;
    }
    let at = Searched {
        world: &begun.world,
        whole: &begun.world,
        others: begun.others,
        ends: begun.ends.as_slice(),
        programs: begun.programs.as_slice(),
        comparing: begun.comparing,
        waits: &[],
    };
    let mut hearing = Hearing { audience };
    tell_account(alloc, &at, &[], None, &mut hearing);
}

//! Machines.
//!
//! What each step goes through is inlined, so that its values are not copied from call to call.
ghost use Rattle.std.specs.Prelude.{◌≡◌, None, Some, IfOk, OnOk, OnErr, IsFalse, IsSome, if◌then◌else◌};
ghost use Rattle.std.specs.Option.{option_copied};
ghost use Rattle.stm_machine.specs.Steps.{step_of, Stands};
ghost use Rattle.stm_machine.specs.Direct.{GoesOrStands};
ghost use Rattle.stm_machine.specs.Laws.{FinishAlike};

use crate::focus::Focus;
use crate::frame::{Frame, NextFrame};
use crate::jumps::jump;
use crate::moves::nothing;
use crate::parts::Remaining;
use crate::stack::Stack;
use crate::steps::go_on;
use std::alloc::{AllocError, Global};
use std::marker::Model;
use std::mem;
use stm_history::Text;
use stm_program::Program;
use stm_steps::{Lookup, Run, Session};

/// A run of a program in progress, which can stop at a key that its look-up does not know, and go on later.
///
/// Contracts see where it stands, the parts of the program that wait, innermost first, and what the run has come
/// to. What finishing the run comes to is `finish` of that.
pub struct Machine {
    focus: Focus,
    stack: Stack,
    session: Session,
    alloc: Global,
}

impl Drop for Machine {
    #[inline(always)]
    fn drop(self) {
        let Machine {
            focus: _,
            stack: _,
            session: _,
            alloc: _,
        } = self;
    }
}

impl Model for Machine {
    ghost use Rattle.std.specs.Coded.{codes};
    ghost use Rattle.stm_program.specs.Coding.{coded_expression, coded_condition, coded_block};
    ghost use Rattle.stm_machine.specs.State.{MachineState, state_of};

    ghost Value = { MachineState };

    ghost coded = { Prim.hlevel (codes, coded_expression, coded_condition, coded_block) };

    ghost view = { λ m. state_of m.focus m.stack.frames m.session };
}

impl Machine {
    ghost use Rattle.stm_machine.specs.State.{started, key_asked, run_at};

    /// A machine at the start of a program. It fails only when out of memory.
    pub fn new(alloc: Global, program: &Program) -> Result<Machine, AllocError>
        ensures { IfOk result (λ m. m ≡ started program.now.statements) }
    {
        let block = Remaining::all(program.block(alloc)?);
        let mut stack = Stack::with_room(alloc)?;
        stack.push(Frame::Next(NextFrame::Rest(block)));
        let session = Session::new(alloc)?;
        Ok(Machine {
            focus: nothing(),
            stack,
            session,
            alloc,
        })
    }

    /// Makes one step, and answers whether there was one to make.
    ///
    /// There is none where the run has ended, and at a key that the look-up does not know. An allocation failure leaves the
    /// machine as it was.
    #[inline(always)]
    fn step<L: Lookup>(&mut self, lookup: &L) -> Result<bool, AllocError>
        ensures ok { IfOk result (λ made. step_of (L.answers lookup.now) self.old ≡ (if made then Some self.new else None)) }
        ensures stands { IfOk result (λ made. IsFalse made → self.new ≡ self.old) }
        ensures err { OnErr result (self.new ≡ self.old) }
    {
        self.stack.make_room()?;
        let made = go_on(
            self.alloc,
            lookup,
            &self.focus,
            &mut self.stack,
            &mut self.session,
        )?;
        let Some(next) = made else {
            return Ok(false);
        };
        drop(mem::replace(&mut self.focus, next));
        Ok(true)
    }

    /// Jumps over what is run at once, or else makes one step, and answers whether there was one to make. An allocation failure leaves
    /// the machine as it was.
    #[inline(always)]
    fn go<L: Lookup>(&mut self, lookup: &L) -> Result<bool, AllocError>
        ensures ok { IfOk result (λ made. GoesOrStands (L.answers lookup.now) made self.old self.new) }
        ensures err { OnErr result (self.new ≡ self.old) }
    {
        self.stack.make_room()?;
        let jumped = jump(
            self.alloc,
            &mut self.focus,
            &mut self.stack,
            &mut self.session,
        )?;
        if jumped {
            return Ok(jumped);
        }
        self.step(lookup)
    }

    /// Goes on until the run ends or wants a key that the look-up does not know.
    ///
    /// Whatever is looked up later, finishing the run comes to the same as before, where the later look-up knows what
    /// this one knows. That holds also where an allocation failed, and the call can then be repeated. It fails only
    /// when out of memory.
    pub fn run<L: Lookup>(&mut self, lookup: &L) -> Result<(), AllocError>
        ensures finish { FinishAlike (L.answers lookup.now) self.old self.new }
        ensures stands { OnOk result (Stands (L.answers lookup.now) self.new) }
    {
        'steps: while self.go(lookup)? {}
        Ok(())
    }

    /// The key at which the machine stands, `None` where it stands at no key.
    pub fn wanted(&self) -> Option<&Text>
        ensures { option_copied result ≡ key_asked self.now.focus }
    {
        match &self.focus {
            Focus::Get(key) | Focus::Rev(key) => Some(key),
            _ => None,
        }
    }

    /// The run, where the machine stands at its end. It allocates nothing.
    pub fn into_run(self) -> Run
        requires { IsSome (run_at self) }
        ensures { run_at self ≡ Some result }
    {
        let Machine {
            focus,
            stack: _,
            session,
            alloc: _,
        } = self;
        match focus {
            Focus::Ended(end) => session.into_run(end),
            _ => unreachable!(),
        }
    }
}

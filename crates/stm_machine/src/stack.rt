//! The stack of a machine.
ghost use Rattle.std.specs.Prelude.{◌≡◌, ◌+◌, ◌≤◌, ◌∷◌, [], IfOk, OnOk};

use crate::frame::Frame;
use std::alloc::{AllocError, Global};
use std::marker::Model;

/// For how many parts a stack has room at the start, which spares most programs a reallocation.
const FIRST_ROOM: usize = 8;

/// The parts of a program that wait. Contracts see the innermost first, and for how many more there is room.
pub(crate) struct Stack {
    frames: Vec<Frame>,
}

impl Drop for Stack {
    fn drop(self) {
        let Stack { frames: _ } = self;
    }
}

impl Model for Stack {
    ghost use Rattle.std.specs.Prelude.{◌-◌, reverse};
    ghost use Rattle.std.specs.Coded.{codes};
    ghost use Rattle.stm_program.specs.Coding.{coded_expression, coded_condition, coded_block};
    ghost use Rattle.stm_machine.specs.Frames.{Frames};

    ghost Value = { Frames };

    ghost coded = { Prim.hlevel (codes, coded_expression, coded_condition, coded_block) };

    ghost view = { λ s. record { frames = reverse s.frames.items; room = s.frames.cap - s.frames.len } };
}

impl Stack {
    ghost use Rattle.stm_machine.specs.Frames.{top_of, below_top};

    /// No parts, and room for the first ones.
    pub(crate) fn with_room(alloc: Global) -> Result<Stack, AllocError>
        ensures frames { IfOk result (λ s. s.frames ≡ []) }
        ensures room { IfOk result (λ s. 2 ≤ s.room) }
    {
        let frames = Vec::with_capacity(alloc, FIRST_ROOM)?;
        Ok(Stack { frames })
    }

    /// Makes room for two more.
    pub(crate) fn make_room(&mut self) -> Result<(), AllocError>
        ensures frames { self.new.frames ≡ self.old.frames }
        ensures room { OnOk result (2 ≤ self.new.room) }
    {
        self.frames.reserve(2)?;
        Ok(())
    }

    /// Pushes a part, which is then the innermost. There is room for it.
    pub(crate) fn push(&mut self, frame: Frame)
        requires { 1 ≤ self.old.room }
        ensures frames { self.new.frames ≡ frame ∷ self.old.frames }
        ensures room { self.old.room ≤ self.new.room + 1 }
    {
        self.frames.push_reserved(frame);
    }

    /// The innermost part, where there is one. It is only looked at, and no contract speaks of it.
    pub(crate) fn top(&self) -> Option<&Frame> {
        self.frames.as_slice().last()
    }

    /// Pops the innermost part, where there is one.
    pub(crate) fn take(&mut self) -> Option<Frame>
        ensures taken { result ≡ top_of self.old.frames }
        ensures frames { self.new.frames ≡ below_top self.old.frames }
        ensures room { self.old.room ≤ self.new.room }
    {
        self.frames.pop()
    }
}

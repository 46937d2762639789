//! The laws. Each function does nothing: its contract is the law.
ghost use Rattle.std.specs.Prelude.{ℕ};
ghost use Rattle.stm_visited.specs.Alike.{AlikeAreSame};
ghost use Rattle.stm_visited.specs.Layers.{LayersGoOn};

use crate::system::System;

/// From alike places the same first schedule breaks a rule, and schedules are as long.
pub fn alike_are_same<S: System>(system: &S)
    ensures { (rule : ℕ) → AlikeAreSame S.Place S.Move S.Shown (S.steps system.now rule) (S.Alike system.now) }
{}

/// A layer begins with the start, and where one move more leads to from it is the next one. Of alike places in a layer the first is enough.
pub fn layers_go_on<S: System>(system: &S)
    ensures { (rule : ℕ) → LayersGoOn S.Place S.Move S.Shown (S.steps system.now rule) (S.Alike system.now) }
{}

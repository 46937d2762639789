//! The parts of a program that a machine keeps. Each is shared with the program.
ghost use Rattle.std.specs.Prelude.{◌≡◌, ◌≤◌, IfOk};
ghost use Rattle.std.specs.Option.{option_copied};
ghost use Rattle.stm_history.specs.declared.revisions.TheConstants.{HIGHEST_NUMBER};
ghost use Rattle.stm_machine.specs.Parts.{first_of, behind_first, turns_from, behind_next};

use std::alloc::AllocError;
use std::marker::Model;
use std::sync::Arc;
use stm_program::{Block, Cond, Expr, Stmt};

/// An expression of a program. Contracts see its tree.
#[derive(Drop)]
pub struct ExprPart {
    part: Arc<Expr>,
}

impl Model for ExprPart {
    ghost use Rattle.stm_program.specs.Syntax.{Expression};
    ghost use Rattle.stm_program.specs.Coding.{coded_expression};

    ghost Value = { Expression };

    ghost coded = { coded_expression };

    ghost view = { λ p. p.part.value };
}

impl ExprPart {
    /// This part of a program.
    pub(crate) fn of(part: &Arc<Expr>) -> Result<ExprPart, AllocError>
        ensures { IfOk result (λ p. p ≡ part.now.value) }
    {
        let part = part.clone()?;
        Ok(ExprPart { part })
    }

    /// The same part once more.
    pub(crate) fn again(&self) -> Result<ExprPart, AllocError>
        ensures { IfOk result (λ p. p ≡ self.now) }
    {
        ExprPart::of(&self.part)
    }

    /// The expression.
    pub(crate) fn get(&self) -> &Expr
        ensures { result.now ≡ self.now }
    {
        &self.part
    }
}

/// A condition of a program. Contracts see its tree.
#[derive(Drop)]
pub struct CondPart {
    part: Arc<Cond>,
}

impl Model for CondPart {
    ghost use Rattle.stm_program.specs.Syntax.{Condition};
    ghost use Rattle.stm_program.specs.Coding.{coded_condition};

    ghost Value = { Condition };

    ghost coded = { coded_condition };

    ghost view = { λ p. p.part.value };
}

impl CondPart {
    /// This part of a program.
    pub(crate) fn of(part: &Arc<Cond>) -> Result<CondPart, AllocError>
        ensures { IfOk result (λ p. p ≡ part.now.value) }
    {
        let part = part.clone()?;
        Ok(CondPart { part })
    }

    /// The same part once more.
    pub(crate) fn again(&self) -> Result<CondPart, AllocError>
        ensures { IfOk result (λ p. p ≡ self.now) }
    {
        CondPart::of(&self.part)
    }

    /// The condition.
    pub(crate) fn get(&self) -> &Cond
        ensures { result.now ≡ self.now }
    {
        &self.part
    }
}

/// The statements that are left of a block. Contracts see the block of these.
#[derive(Drop)]
pub struct Remaining {
    statements: Arc<Vec<Stmt>>,
    next: usize,
}

impl Model for Remaining {
    ghost use Rattle.std.specs.Prelude.{drop};
    ghost use Rattle.stm_program.specs.Syntax as tree;
    ghost use Rattle.stm_program.specs.Coding.{coded_block};
    ghost use Rattle.stm_program.specs.BlockView.{block_of};

    ghost Value = { tree.Block };

    ghost coded = { coded_block };

    ghost view = { λ r. block_of (drop r.next r.statements.value.items) };
}

impl Remaining {
    /// This whole block.
    pub(crate) fn all(block: Block) -> Remaining
        ensures { result ≡ block }
    {
        let Block { statements } = block;
        Remaining {
            statements,
            next: 0,
        }
    }

    /// A whole block.
    pub(crate) fn of(block: &Block) -> Result<Remaining, AllocError>
        ensures { IfOk result (λ r. r ≡ block.now) }
    {
        let statements = block.statements.clone()?;
        Ok(Remaining {
            statements,
            next: 0,
        })
    }

    /// The first statement, where one is left.
    pub(crate) fn first(&self) -> Option<&Stmt>
        ensures { option_copied result ≡ first_of self.now }
    {
        let statements: &Vec<Stmt> = &self.statements;
        if self.next < statements.len() {
            Some(&statements[self.next])
        } else {
            None
        }
    }

    /// The statements after the first.
    pub(crate) fn behind_first(&self) -> Result<Remaining, AllocError>
        ensures { IfOk result (λ r. r ≡ behind_first self.now) }
    {
        let count = self.statements.len();
        let statements = self.statements.clone()?;
        if self.next < count {
            let next = self.next + 1;
            return Ok(Remaining { statements, next });
        }
        Ok(Remaining {
            statements,
            next: self.next,
        })
    }

    /// Passes the first statement, where one is left.
    pub(crate) fn pass_first(&mut self)
        ensures { self.new ≡ behind_first self.old }
    {
        if self.next >= self.statements.len() {
            return;
        }
        self.next += 1;
    }
}

/// The turns that are left of a loop. Contracts see the next turn's number, from 0, and how many are left with it.
///
/// No turn's number is above `HIGHEST_NUMBER`.
#[derive(Drop)]
pub struct Turns {
    next: u64,
    left: u64,
}

impl Model for Turns {
    ghost use Rattle.std.specs.Prelude.{◌+◌, ◌≤◌};
    ghost use Rattle.stm_history.specs.declared.revisions.TheConstants.{HIGHEST_NUMBER};
    ghost use Rattle.stm_machine.specs.Parts.{TurnsLeft, turns_from};

    ghost Value = { TurnsLeft };

    ghost view = { λ t. turns_from t.next t.left };

    ghost invariant = { λ t. t.next + t.left ≤ HIGHEST_NUMBER };
}

impl Turns {
    /// `count` turns, from turn 0 on.
    pub(crate) fn of(count: u64) -> Turns
        requires { count ≤ HIGHEST_NUMBER }
        ensures { result ≡ turns_from 0 count }
    {
        Turns {
            next: 0,
            left: count,
        }
    }

    /// The next turn's number.
    pub(crate) fn next(&self) -> u64
        ensures number { result ≡ self.now.next }
        ensures in_range { result ≤ HIGHEST_NUMBER }
    {
        let _ = self.left;
        self.next
    }

    /// The turns after the next one, where one is left.
    pub(crate) fn behind_next(&self) -> Option<Turns>
        ensures { result ≡ behind_next self.now }
    {
        if self.left == 0 {
            return None;
        }
        Some(Turns {
            next: self.next + 1,
            left: self.left - 1,
        })
    }
}

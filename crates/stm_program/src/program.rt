//! Programs.
ghost use Rattle.std.specs.Prelude.{◌≡◌, ◌↔◌, IsTrue, IfOk, map, string_bytes};
ghost use Rattle.stm_program.specs.BlockView.{block_of};
ghost use Rattle.stm_program.specs.Limits.{Fits};
ghost use Rattle.stm_program.specs.Syntax.{of_statements};

use crate::held::{Held, block_held, copy_held, share, slice_held};
use crate::list::are_same_keys;
use crate::same::are_same_statements;
use crate::statement::{Block, Stmt};
use std::alloc::{AllocError, Global};
use std::marker::Model;
use stm_history::{Sequence, Text};

/// A program: statements within the limits, and before them the keys of its list, whether the statements read them or not. Each attempt
/// reads those first, in the list's order.
///
/// It has at most 4096 nodes (a node is a statement, an expression or a condition), nested at most
/// 32 deep. A text in it has at most 65536 bytes, a loop's limit is at most 1000, and a
/// lease's id at most 9223372036854775807. The list has at most 128 keys, each of 1 to 65536 bytes, none twice.
#[derive(Debug)]
pub struct Program {
    prefetch: Vec<String>,
    statements: Held,
}

impl Drop for Program {
    fn drop(self) {
        let Program {
            prefetch: _,
            statements: _,
        } = self;
    }
}

impl Model for Program {
    ghost use Rattle.std.specs.Prelude.{map, string_bytes};
    ghost use Rattle.stm_program.specs.Syntax.{ProgramTree};
    ghost use Rattle.stm_program.specs.Coding.{coded_program};

    ghost Value = { ProgramTree };

    ghost coded = { coded_program };

    ghost use Rattle.stm_program.specs.Held.{statements_held};
    ghost use Rattle.stm_program.specs.Limits.{Fits};

    ghost view = { λ p. record { statements = statements_held p.statements; prefetch = map string_bytes p.prefetch.items } };

    ghost invariant = { λ p. Fits (record { statements = statements_held p.statements; prefetch = map string_bytes p.prefetch.items }) };
}

impl Program {
    /// The program of these statements and of no list. They are within the limits, which `fits` checks. It allocates nothing.
    pub fn of(statements: Vec<Stmt>) -> Program
        requires { Fits (of_statements (block_of statements.items)) }
        ensures { result ≡ of_statements (block_of statements.items) }
    {
        let prefetch = Vec::new(*statements.allocator());
        Program {
            prefetch,
            statements: Held::Own(statements),
        }
    }

    /// The program of a list of these keys and of these statements after it. They are within the limits, which `fits` and `list_fits`
    /// check. It allocates nothing.
    pub fn with_list(prefetch: Vec<String>, statements: Vec<Stmt>) -> Program
        requires { Fits (record { statements = block_of statements.items; prefetch = map string_bytes prefetch.items }) }
        ensures { result ≡ record { statements = block_of statements.items; prefetch = map string_bytes prefetch.items } }
    {
        Program {
            prefetch,
            statements: Held::Own(statements),
        }
    }

    /// The same program, whose copies share its statements from now on: a copy costs one step then, and one for each key of the list.
    ///
    /// It fails only when out of memory, and drops the program.
    pub fn share(self, alloc: Global) -> Result<Program, AllocError>
        ensures { IfOk result (λ program. program ≡ self) }
    {
        let Program {
            prefetch,
            statements,
        } = self;
        let Ok(statements) = share(alloc, statements) else {
            drop(prefetch);
            return Err(AllocError);
        };
        Ok(Program {
            prefetch,
            statements,
        })
    }

    /// The statements as a block: the shared one, which allocates nothing, or one of copies. It fails only when out of memory.
    pub fn block(&self, alloc: Global) -> Result<Block, AllocError>
        ensures { IfOk result (λ block. block ≡ self.now.statements) }
    {
        block_held(alloc, &self.statements)
    }

    /// Whether it is the same program as another one. `==` answers this.
    ///
    /// It allocates nothing, and looks at the keys of the shorter list, and at no more nodes than the smaller program has, however much is
    /// shared.
    pub fn is_same(&self, other: &Program) -> bool
        ensures { IsTrue result ↔ self.now ≡ other.now }
    {
        if !are_same_keys(self.prefetch(), other.prefetch()) {
            return false;
        }
        are_same_statements(self.statements(), other.statements())
    }

    /// The keys of its list, in the list's order. It allocates nothing.
    pub fn prefetch(&self) -> &[String]
        ensures same { map string_bytes result.now ≡ self.now.prefetch }
        ensures fits { Fits self.now }
    {
        self.prefetch.as_slice()
    }

    /// A copy of the keys of its list, in the list's order. Out of memory is its only refusal.
    pub fn list(&self, alloc: Global) -> Result<Sequence<Text>, AllocError>
        ensures { IfOk result (λ keys. keys ≡ self.now.prefetch) }
    {
        let mut keys = Sequence::new(alloc);
        for key in self.prefetch() {
            keys.push(Text::copy_of(alloc, key.as_str())?)?;
        }
        Ok(keys)
    }

    /// The statements in order. It allocates nothing.
    pub fn statements(&self) -> &[Stmt]
        ensures same { block_of result.now ≡ self.now.statements }
        ensures fits { Fits self.now }
    {
        slice_held(&self.statements)
    }
}

/// A copy shares all but the outermost statements with its source, and these too where they are shared: else it costs one step for each
/// of them. It costs one for each key of the list.
impl Clone for Program {
    ghost is_clone = { λ p copy. copy ≡ p };

    fn clone(&self) -> Result<Program, AllocError> {
        let prefetch = self.prefetch.clone()?;
        let statements = copy_held(&self.statements)?;
        Ok(Program {
            prefetch,
            statements,
        })
    }
}

/// `==` holds exactly where two programs are the same.
impl PartialEq for Program {
    ghost use Rattle.stm_program.specs.SameProgram.{same_program};
    ghost use Rattle.stm_program.specs.SameProgramLaws.{same_program-equivalence};
    ghost use Rattle.std.specs.Cmp.{partial_equiv_from_equiv};

    ghost eq = { same_program };

    ghost laws = { partial_equiv_from_equiv same_program-equivalence };

    fn eq(&self, other: &Program) -> bool {
        self.is_same(other)
    }
}

impl Eq for Program {
    ghost use Rattle.stm_program.specs.SameProgramLaws.{same_program-equivalence};

    ghost laws = { same_program-equivalence };
}

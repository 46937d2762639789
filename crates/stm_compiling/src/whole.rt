//! Sources that are compiled: their scenario as a line of JSON, and what JSON has no place for.
ghost use Rattle.std.specs.Prelude.{◌≡◌, IfOk};
ghost use Rattle.stm_terms.specs.Outcome.{Returns};
ghost use Rattle.stm_compiling.specs.Wholes as spec;

use crate::line::scenario_line;
use std::alloc::{AllocError, Global};
use stm_history::{Sequence, Text};
use stm_source::{Names, Rule, Source, SourceError, Wait, read_whole_source};

/// What a source has beside its scenario.
#[derive(Debug, Drop)]
pub struct Beside {
    /// Its rules and finals, in the order in which they stand.
    pub rules: Sequence<Rule>,
    /// Which runners begin behind the end of others, in the order of their starts.
    pub waits: Sequence<Wait>,
    /// The names of runners, in the order in which they stand.
    pub names: Names,
    /// The number of the runner of each name: none, where its start may send no commit.
    pub numbers: Sequence<Option<u64>>,
}

impl Beside {
    /// Nothing. It allocates nothing.
    pub fn nothing(alloc: Global) -> Beside
        ensures { result ≡ spec.nothing }
    {
        Beside {
            rules: Sequence::new(alloc),
            waits: Sequence::new(alloc),
            names: Names::new(alloc),
            numbers: Sequence::new(alloc),
        }
    }
}

/// A source that is compiled.
#[derive(Debug, Drop)]
pub struct Compiled {
    /// Its scenario, as one line of compact JSON with its line feed.
    pub line: Text,
    /// What JSON has no place for.
    pub beside: Beside,
}

/// A source that was read, compiled.
fn compiled_of(alloc: Global, source: Source) -> Result<Compiled, AllocError>
    ensures { IfOk result (λ compiled. compiled ≡ spec.compiled_of source) }
{
    let Source {
        scenario,
        rules,
        waits,
        names,
        numbers,
    } = source;
    let line = scenario_line(alloc, &scenario)?;
    let beside = Beside {
        rules,
        waits,
        names,
        numbers,
    };
    Ok(Compiled {
        line: Text::new(line),
        beside,
    })
}

/// What a source comes to. It fails by the first fault of the source, or as `OutOfMemory`.
pub(crate) fn compiled_source(alloc: Global, source: &[u8]) -> Result<Compiled, SourceError>
    ensures { Returns (λ c. c) result (spec.compiled_in source.now) }
{
    let whole = read_whole_source(alloc, source)?;
    match compiled_of(alloc, whole) {
        Ok(compiled) => Ok(compiled),
        Err(_) => Err(SourceError::OutOfMemory),
    }
}

/// The rules of a source. It fails by the first fault of the source, or as `OutOfMemory`.
pub(crate) fn rules_in(alloc: Global, source: &[u8]) -> Result<Sequence<Rule>, SourceError>
    ensures { Returns (λ r. r) result (spec.rules_in source.now) }
{
    let whole = read_whole_source(alloc, source)?;
    let Source { rules, .. } = whole;
    Ok(rules)
}

//! Which runners a final names.
ghost use Rattle.std.specs.Prelude.{◌≡◌, Some, IfOk, OnOk};
ghost use Rattle.stm_source.specs.Runners as spec;

use crate::steps::number_named;
use crate::story::Story;
use std::alloc::{AllocError, Global};
use stm_history::Sequence;
use stm_terms::{Names, Runners, after_symbol, braces_behind};
use stm_tokens::{Symbol, Token, TokenKind};

/// Adds a runner of a number, if its name is none of these. It fails only when out of memory.
fn add_runner(
    alloc: Global,
    runners: &mut Runners,
    name: &str,
    number: u64,
) -> Result<(), AllocError>
    ensures { OnOk result (runners.new ≡ spec.with_runner runners.old name.now (Some number)) }
{
    if runners.names.contains(name) {
        return Ok(());
    }
    runners.names.push(alloc, name)?;
    runners.numbers.push(number)?;
    Ok(())
}

/// Adds the runner that a token names, if it names one. It fails only when out of memory.
fn add_named(
    alloc: Global,
    story: &Story,
    runners: &mut Runners,
    kind: &TokenKind,
) -> Result<(), AllocError>
    ensures { OnOk result (runners.new ≡ spec.with_named story.now runners.old kind.now) }
{
    let TokenKind::Name(name) = kind else {
        return Ok(());
    };
    match number_named(story, name.as_str()) {
        Some(number) => add_runner(alloc, runners, name.as_str(), number),
        None => Ok(()),
    }
}

/// The runners that the rest of a body names.
fn runners_inside(alloc: Global, story: &Story, tokens: &[Token]) -> Result<Runners, AllocError>
    ensures { IfOk result (λ r. r ≡ spec.runners_from story.now 0 spec.no_runners tokens.now) }
{
    let mut runners = Runners {
        names: Names::new(alloc),
        numbers: Sequence::new(alloc),
    };
    let mut depth = 0;
    for (_index, token) in tokens.iter().enumerate() {
        add_named(alloc, story, &mut runners, &token.kind)?;
        let Some(open) = braces_behind(&token.kind, depth) else {
            return Ok(runners);
        };
        depth = open;
    }
    Ok(runners)
}

/// The runners that a body in braces names.
pub(crate) fn runners_in(
    alloc: Global,
    story: &Story,
    tokens: &[Token],
) -> Result<Runners, AllocError>
    ensures { IfOk result (λ r. r ≡ spec.runners_in story.now tokens.now) }
{
    match after_symbol(tokens, Symbol::LeftBrace) {
        Some(inner) => runners_inside(alloc, story, inner),
        None => Ok(Runners {
            names: Names::new(alloc),
            numbers: Sequence::new(alloc),
        }),
    }
}

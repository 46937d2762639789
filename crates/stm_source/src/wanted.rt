//! What the arguments of programs have to be.
ghost use Rattle.std.specs.Prelude.{◌≡◌, ◌+◌, length, option_map, IfOk, IfErr};
ghost use Rattle.stm_source.specs.Definitions.{look_for_arguments};
ghost use Rattle.stm_source.specs.Wanted as spec;

use crate::definitions::{Definition, alone, look_of, open_arguments};
use crate::programs::{Look, parts};
use crate::sources::{empty_definitions, empty_story, items};
use std::alloc::{AllocError, Global};
use stm_history::{Sequence, Text};
use stm_terms::{
    Argument, Arguments, Constants, Given, Kind, Names, Shared, SourceCause, SourceError,
};
use stm_tokens::{Token, tokens_of};

/// One argument behind so many and before so many, each of which may be either.
#[tactic(auto, using(crate::proofs::StepLemmas::open_more, crate::proofs::StepLemmas::open_out))]
fn given_at(
    alloc: Global,
    before: usize,
    argument: Argument,
    behind: usize,
) -> Result<Sequence<Given>, AllocError>
    ensures { IfOk result (λ given. given ≡ spec.given_at before argument behind) }
{
    let mut given = open_arguments(alloc, before)?;
    given.push(Given { argument, at: 0 })?;
    for _done in 0..behind {
        let argument = Argument::Either;
        given.push(Given { argument, at: 0 })?;
    }
    Ok(given)
}

/// How a program is looked at for its kinds.
fn look_at_kinds(constants: &Shared<Constants>) -> Result<Look, AllocError>
    ensures { IfOk result (λ look. look ≡ look_for_arguments constants.now 0) }
{
    let mut look = look_of(constants, 0, true)?;
    look.kinds_at = Some(0);
    Ok(look)
}

/// Whether a fault is one of kinds.
fn is_of_kinds(cause: SourceCause) -> bool
    ensures { result ≡ spec.is_kind cause }
{
    matches!(cause, SourceCause::Kind)
}

/// Whether a value of a body is of another kind than is wanted, with these arguments.
fn is_wrong_with(
    alloc: Global,
    constants: &Shared<Constants>,
    arguments: Shared<Arguments>,
    body: &[Token],
) -> Result<bool, AllocError>
    ensures { IfOk result (λ is. is ≡ spec.is_wrong_with constants.now arguments body.now) }
{
    let look = look_at_kinds(constants)?;
    match parts(alloc, arguments, look, body) {
        Ok(_) => Ok(false),
        Err(SourceError::Bad(bad)) => Ok(is_of_kinds(bad.cause)),
        Err(SourceError::OutOfMemory) => Err(AllocError),
    }
}

/// Whether a value of a body is of another kind than is wanted, with this argument behind so many and before so many.
fn is_wrong(
    alloc: Global,
    constants: &Shared<Constants>,
    parameters: &Shared<Names>,
    body: &[Token],
    before: usize,
    argument: Argument,
    behind: usize,
) -> Result<bool, AllocError>
    ensures { IfOk result (λ is. is ≡ spec.is_wrong constants.now parameters.now body.now before argument behind) }
{
    let given = given_at(alloc, before, argument, behind)?;
    let names = parameters.clone()?;
    let list = Sequence::new(alloc);
    let arguments = Shared::new(alloc, Arguments { names, given, list })?;
    is_wrong_with(alloc, constants, arguments, body)
}

/// What an argument has to be, by whether a number is wrong and whether a text is.
fn wanted_by(number: bool, text: bool) -> Kind
    ensures { result ≡ spec.wanted_by number text }
{
    if number {
        Kind::Text
    } else if text {
        Kind::Number
    } else {
        Kind::Either
    }
}

/// What the argument behind so many and before so many has to be.
fn wanted_at(
    alloc: Global,
    constants: &Shared<Constants>,
    parameters: &Shared<Names>,
    body: &[Token],
    before: usize,
    behind: usize,
) -> Result<Kind, AllocError>
    ensures { IfOk result (λ kind. kind ≡ spec.wanted_at constants.now parameters.now body.now before behind) }
{
    let number = Argument::Number(1);
    let text = Argument::Text(Text::new(String::new(alloc)));
    let number = is_wrong(alloc, constants, parameters, body, before, number, behind)?;
    let text = is_wrong(alloc, constants, parameters, body, before, text, behind)?;
    Ok(wanted_by(number, text))
}

/// What so many arguments have to be.
#[tactic(auto, using(crate::proofs::WantedLemmas::wanted_more, crate::proofs::WantedLemmas::wanted_out))]
fn wanted_from(
    alloc: Global,
    constants: &Shared<Constants>,
    parameters: &Shared<Names>,
    body: &[Token],
    count: usize,
) -> Result<Sequence<Kind>, AllocError>
    ensures { IfOk result (λ kinds. kinds ≡ spec.wanted_from constants.now parameters.now body.now 0 count) }
{
    let mut kinds = Sequence::new(alloc);
    for before in 0..count {
        let behind = count - 1 - before;
        let kind = wanted_at(alloc, constants, parameters, body, before, behind)?;
        kinds.push(kind)?;
    }
    Ok(kinds)
}

/// What the arguments of a program have to be, of a source with these tokens.
fn wanted_of(
    alloc: Global,
    constants: &Shared<Constants>,
    all: &[Token],
    definition: Option<&Definition>,
) -> Result<Sequence<Kind>, AllocError>
    ensures { IfOk result (λ kinds. kinds ≡ spec.wanted_of constants.now all.now (option_map (λ d. d.now) definition.entry)) }
{
    let Some(definition) = definition else {
        return Ok(Sequence::new(alloc));
    };
    let (_, body) = all.split_at(all.len().saturating_sub(definition.left));
    let parameters = &definition.parameters;
    let count = alone(parameters.get(), definition.takes_list);
    wanted_from(alloc, constants, parameters, body, count)
}

/// What the arguments of the program of a name have to be, of a source with these tokens.
fn wanted_of_tokens(
    alloc: Global,
    tokens: &[Token],
    name: &str,
) -> Result<Sequence<Kind>, AllocError>
    ensures { IfOk result (λ kinds. kinds ≡ spec.wanted_of_tokens tokens.now name.now) }
{
    let mut definitions = empty_definitions(alloc)?;
    let mut story = empty_story(alloc);
    match items(alloc, &mut definitions, &mut story, tokens) {
        Ok(()) => wanted_of(
            alloc,
            &definitions.constants,
            tokens,
            definitions.named(name),
        ),
        Err(SourceError::Bad(_)) => Ok(Sequence::new(alloc)),
        Err(SourceError::OutOfMemory) => Err(AllocError),
    }
}

/// What the arguments of the program of a name have to be, in their order: of one a text, where a number in its place makes a value be of another kind than
/// is wanted, whatever the others are; a number, where a text does; and else either. Those of a list are not among them, and there are none where the source has a fault, or no such program.
/// It fails only when out of memory.
pub fn kinds_wanted(alloc: Global, source: &[u8], name: &str) -> Result<Sequence<Kind>, AllocError>
    ensures { IfOk result (λ kinds. kinds ≡ spec.kinds_wanted source.now name.now) }
{
    let tokens = tokens_of(alloc, source)?;
    wanted_of_tokens(alloc, tokens.as_slice(), name)
}

//! Reading rules and finals.
ghost use Rattle.std.specs.Prelude.{◌≡◌, bytes_eq, false, IfOk};
ghost use Rattle.std.specs.List.{list_any};
ghost use Rattle.stm_terms.specs.Cursor as cursor;
ghost use Rattle.stm_terms.specs.Outcome.{Returns};
ghost use Rattle.stm_source.specs.Definitions as definitions;
ghost use Rattle.stm_source.specs.Rules as spec;

use crate::bulk::program_room;
use crate::definitions::{Definitions, Meaning, free_name, named_program, program_in_place};
use crate::programs::Look;
use crate::runners::runners_in;
use crate::starts::level;
use crate::story::{Rule, Story};
use std::alloc::{AllocError, Global};
use stm_history::Text;
use stm_program::{Level, Program};
use stm_terms::{
    Constants, Runners, Shared, SourceCause, SourceError, after_name, after_symbol, fault,
    next_name, place, unexpected,
};
use stm_tokens::{Symbol, Token};

/// The weakest level at which a rule is to be kept, where that is said.
pub(crate) fn weakest_level(tokens: &[Token]) -> Result<(Option<Level>, &[Token]), SourceError>
    ensures { Returns (λ x. (x.0, x.1.now)) result (spec.weakest_level tokens.now) }
{
    let Some(rest) = after_name(tokens, "from") else {
        return Ok((None, tokens));
    };
    let (level, rest) = level(rest)?;
    Ok((Some(level), rest))
}

/// The runners that a final may ask of.
fn asked_runners(
    alloc: Global,
    story: &Story,
    is_final: bool,
    tokens: &[Token],
) -> Result<Option<Shared<Runners>>, AllocError>
    ensures { IfOk result (λ r. r ≡ spec.asked_runners story.now is_final tokens.now) }
{
    if !is_final {
        return Ok(None);
    }
    let runners = runners_in(alloc, story, tokens)?;
    let runners = Shared::new(alloc, runners)?;
    Ok(Some(runners))
}

/// How the body of a rule or a final is looked at. `at` is the place of what is wrong with it as a whole.
pub(crate) fn rule_look(
    alloc: Global,
    constants: &Shared<Constants>,
    story: &Story,
    is_final: bool,
    at: usize,
    tokens: &[Token],
) -> Result<Look, AllocError>
    ensures { IfOk result (λ look. look ≡ spec.rule_look constants.now story.now is_final at tokens.now) }
{
    let runners = asked_runners(alloc, story, is_final, tokens)?;
    let constants = constants.clone()?;
    Ok(Look {
        program: at,
        marks: false,
        at_kinds: true,
        kinds_at: None,
        runners,
        constants,
    })
}

/// The program that is asked: one that is named, or its own in braces. `at` is the place of what is wrong with that as a whole.
fn asked<'a>(
    alloc: Global,
    all: &[Token],
    definitions: &Definitions,
    story: &Story,
    is_final: bool,
    at: usize,
    tokens: &'a [Token],
) -> Result<(Program, usize, &'a [Token]), SourceError>
    ensures { Returns (λ x. (x.0, x.1, x.2.now)) result
        (spec.asked_at all.now definitions.now story.now is_final at tokens.now) }
{
    let Some(rest) = after_symbol(tokens, Symbol::Assign) else {
        let look = rule_look(alloc, &definitions.constants, story, is_final, at, tokens)?;
        let (program, rest) = program_in_place(alloc, look, tokens)?;
        return Ok((program, 0, rest));
    };
    match next_name(rest) {
        Some((name, behind)) => named_program(alloc, all, definitions, name, place(rest), behind),
        None => Err(unexpected(rest)),
    }
}

/// Adds a rule, whose name begins at a byte. For its program so many tokens were read again.
fn push_rule(
    alloc: Global,
    definitions: &mut Definitions,
    story: &mut Story,
    at: usize,
    rule: Rule,
    again: usize,
) -> Result<(), SourceError>
    requires { list_any (bytes_eq rule.name) definitions.old.names ≡ false }
    ensures { Returns (λ _. (definitions.new, story.new)) result (spec.ruled definitions.old story.old at rule again) }
{
    let room = program_room(&rule.program, story.room.saturating_sub(again));
    if room == 0 {
        drop(rule);
        return Err(fault(at, SourceCause::TooManyNodes));
    }
    definitions.names.push(alloc, rule.name.as_str())?;
    definitions.meanings.push(Meaning::Rule)?;
    story.rules.push(rule)?;
    story.room = room;
    Ok(())
}

/// Adds what a rule, or a final, comes to, behind its word. `all` are the tokens of the source.
pub(crate) fn rule<'a>(
    alloc: Global,
    all: &[Token],
    definitions: &mut Definitions,
    story: &mut Story,
    is_final: bool,
    tokens: &'a [Token],
) -> Result<&'a [Token], SourceError>
    ensures { Returns (λ rest. (definitions.new, story.new, rest.now)) result
        (spec.rule_at all.now definitions.old story.old is_final tokens.now) }
{
    let (name, rest) = free_name(&definitions.names, definitions.constants.get(), tokens)?;
    let (level, rest) = weakest_level(rest)?;
    let (program, again, rest) = asked(
        alloc,
        all,
        definitions,
        story,
        is_final,
        place(tokens),
        rest,
    )?;
    let rule = Rule {
        name: Text::copy_of(alloc, name)?,
        is_final,
        level,
        program,
    };
    push_rule(alloc, definitions, story, place(tokens), rule, again)?;
    Ok(rest)
}

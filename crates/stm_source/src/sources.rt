//! Reading sources.
ghost use Rattle.std.specs.Prelude.{◌≡◌, length, IfOk};
ghost use Rattle.stm_terms.specs.Outcome.{Returns};
ghost use Rattle.stm_terms.specs.Cursor as cursor;
ghost use Rattle.stm_source.specs.Events as events;
ghost use Rattle.stm_source.specs.Sources as spec;

use crate::bulk::event_room;
use crate::constants::define_constant;
use crate::definitions::{Definitions, define};
use crate::events::store_event;
use crate::openings::begin;
use crate::rules::rule;
use crate::starts::start;
use crate::steps::steps;
use crate::story::{MOST_BULK, Rule, Story, Wait};
use crate::words::{EventWord, event_word};
use std::alloc::{AllocError, Global};
use stm_events::WorldEvent;
use stm_history::Sequence;
use stm_json::MOST_BYTES;
use stm_terms::{
    Constants, Names, Shared, SourceCause, SourceError, after_word, fault, next_name, place,
    unexpected,
};
use stm_texts::Scenario;
use stm_tokens::{Token, TokenKind, Word, tokens_of};

/// A source: its scenario, and what JSON has no place for.
#[derive(Debug, Drop)]
pub struct Source {
    /// The scenario.
    pub scenario: Scenario,
    /// The rules and finals, in the order in which they stand.
    pub rules: Sequence<Rule>,
    /// Which runners begin behind the end of others, in the order of their starts.
    pub waits: Sequence<Wait>,
    /// The names of runners, in the order in which they stand.
    pub names: Names,
    /// The number of the runner of each name: none, where its start may send no commit.
    pub numbers: Sequence<Option<u64>>,
}

/// Adds what an event comes to, of which the first word begins these tokens. `all` are the tokens of the source.
fn event<'a>(
    alloc: Global,
    all: &[Token],
    definitions: &Definitions,
    story: &mut Story,
    word: EventWord,
    tokens: &'a [Token],
    rest: &'a [Token],
) -> Result<&'a [Token], SourceError>
    ensures { Returns (λ rest. (story.new, rest.now)) result
        (events.event_at all.now definitions.now story.old word tokens.now rest.now) }
{
    match word {
        EventWord::Begin => begin(story, tokens, rest),
        EventWord::Start => start(alloc, all, definitions, story, place(tokens), rest),
        EventWord::Step => steps(story, rest),
        _ => {
            let constants = definitions.constants.get();
            one_event(alloc, constants, story, word, tokens, rest)
        }
    }
}

/// Adds an event of the store.
fn one_event<'a>(
    alloc: Global,
    constants: &Constants,
    story: &mut Story,
    word: EventWord,
    tokens: &'a [Token],
    rest: &'a [Token],
) -> Result<&'a [Token], SourceError>
    ensures { Returns (λ rest. (story.new, rest.now)) result (events.one_event story.old (cursor.place tokens.now) (events.store_event_at constants.now word rest.now)) }
{
    if !story.has_room(1) {
        return Err(fault(place(tokens), SourceCause::TooMany));
    }
    let (event, behind) = store_event(alloc, constants, word, rest)?;
    add_event(story, place(tokens), event)?;
    Ok(behind)
}

/// Adds an event, where the scenario has room for its texts. It begins at a byte.
fn add_event(story: &mut Story, at: usize, event: WorldEvent) -> Result<(), SourceError>
    ensures { Returns (λ _. story.new) result (events.event_added story.old at event) }
{
    let room = event_room(&event, story.event_room);
    if room == 0 {
        drop(event);
        return Err(fault(at, SourceCause::TooManyNodes));
    }
    story.events.push(event)?;
    story.has_events = true;
    story.event_room = room;
    Ok(())
}

/// Adds what the next item comes to, which is an event.
fn event_item<'a>(
    alloc: Global,
    all: &[Token],
    definitions: &Definitions,
    story: &mut Story,
    tokens: &'a [Token],
) -> Result<&'a [Token], SourceError>
    ensures { Returns (λ rest. (story.new, rest.now)) result (spec.event_item_at all.now definitions.now story.old tokens.now) }
{
    let Some((name, rest)) = next_name(tokens) else {
        return Err(unexpected(tokens));
    };
    match event_word(name) {
        Some(word) => event(alloc, all, definitions, story, word, tokens, rest),
        None => Err(unexpected(tokens)),
    }
}

/// Adds what the next item comes to.
pub(crate) fn item<'a>(
    alloc: Global,
    all: &[Token],
    definitions: &mut Definitions,
    story: &mut Story,
    tokens: &'a [Token],
) -> Result<&'a [Token], SourceError>
    ensures { Returns (λ rest. (definitions.new, story.new, rest.now)) result
        (spec.item_at all.now definitions.old story.old tokens.now) }
{
    if let Some(rest) = after_word(tokens, Word::Let) {
        return define_constant(alloc, definitions, rest);
    }
    if let Some(rest) = after_word(tokens, Word::Program) {
        return define(alloc, definitions, rest);
    }
    if let Some(rest) = after_word(tokens, Word::Rule) {
        return rule(alloc, all, definitions, story, false, rest);
    }
    if let Some(rest) = after_word(tokens, Word::Finally) {
        return rule(alloc, all, definitions, story, true, rest);
    }
    event_item(alloc, all, definitions, story, tokens)
}

/// Whether the source ends here.
pub(crate) fn at_end(tokens: &[Token]) -> bool
    ensures { result ≡ spec.at_end tokens.now }
{
    match tokens.first() {
        Some(token) => matches!(token.kind, TokenKind::End),
        None => false,
    }
}

/// Adds all that a source has.
pub(crate) fn items(
    alloc: Global,
    definitions: &mut Definitions,
    story: &mut Story,
    tokens: &[Token],
) -> Result<(), SourceError>
    ensures { Returns (λ _. (definitions.new, story.new)) result (spec.items_from tokens.now (length tokens.now) definitions.old story.old tokens.now) }
{
    let mut rest = tokens;
    for _turn in 0..tokens.len() {
        if at_end(rest) {
            return Ok(());
        }
        let behind = item(alloc, tokens, definitions, story, rest)?;
        rest = behind;
    }
    Err(unexpected(rest))
}

/// What a source is while nothing of it was read.
pub(crate) fn empty_story(alloc: Global) -> Story
    ensures { result ≡ spec.empty_story }
{
    Story {
        opening: None,
        has_events: false,
        events: Sequence::new(alloc),
        runners: 0,
        names: Names::new(alloc),
        numbers: Sequence::new(alloc),
        waits: Sequence::new(alloc),
        rules: Sequence::new(alloc),
        room: MOST_BULK,
        event_room: MOST_BULK,
    }
}

/// What a source defines while nothing of it was read.
pub(crate) fn empty_definitions(alloc: Global) -> Result<Definitions, AllocError>
    ensures { IfOk result (λ d. d ≡ spec.no_definitions) }
{
    let constants = Shared::new(alloc, Constants::new(alloc))?;
    Ok(Definitions {
        names: Names::new(alloc),
        meanings: Sequence::new(alloc),
        constants,
        room: MOST_BULK,
    })
}

/// What a source is that was read whole.
fn source_of(story: Story) -> Source
    ensures { result ≡ spec.as_source story }
{
    let Story {
        opening,
        events,
        names,
        numbers,
        waits,
        rules,
        ..
    } = story;
    let scenario = Scenario { opening, events };
    Source {
        scenario,
        rules,
        waits,
        names,
        numbers,
    }
}

/// What tokens spell.
#[tactic(auto, unfolding(crate::specs::Sources::source_at))]
fn source_at(alloc: Global, tokens: &[Token]) -> Result<Source, SourceError>
    ensures { Returns (λ s. s) result (spec.source_at tokens.now) }
{
    let mut definitions = empty_definitions(alloc)?;
    let mut story = empty_story(alloc);
    items(alloc, &mut definitions, &mut story, tokens)?;
    drop(definitions);
    Ok(source_of(story))
}

/// The scenario that a source spells, or its first fault: what `read_whole_source` answers, without what JSON has no place for.
#[tactic(auto, unfolding(crate::specs::Sources::scenario_in))]
pub fn read_source(alloc: Global, source: &[u8]) -> Result<Scenario, SourceError>
    ensures { Returns (λ s. s) result (spec.scenario_in source.now) }
{
    let source = read_whole_source(alloc, source)?;
    let Source { scenario, .. } = source;
    Ok(scenario)
}

/// What a source spells, or its first fault.
///
/// A source is a text in UTF-8 of at most 16777216 bytes: constants, programs that have names, rules and finals, and events, one after another. `specs/Sources.antt`
/// says what each spells, and which fault comes first; its place is a byte of the source. `OutOfMemory` may come in place of any other answer, where an
/// allocation failed.
#[tactic(auto, unfolding(crate::specs::Sources::source_in))]
pub fn read_whole_source(alloc: Global, source: &[u8]) -> Result<Source, SourceError>
    ensures { Returns (λ s. s) result (spec.source_in source.now) }
{
    if source.len() > MOST_BYTES {
        return Err(fault(0, SourceCause::TooLong));
    }
    match str::from_utf8(source) {
        Ok(_) => {
            let tokens = tokens_of(alloc, source)?;
            source_at(alloc, tokens.as_slice())
        }
        Err(error) => Err(fault(error.valid_up_to(), SourceCause::NotUtf8)),
    }
}

//! Which keys rules and programs ask for, and which are put. One that is asked for and that nothing puts is most likely misspelt.

use crate::rules::RuleAnswer;
use std::alloc::{AllocError, Global};
use stm_explore::When;
use stm_history::Text;
use stm_meaning::{End, Run, run_alone};
use stm_named_keys::{Name, keys_looked_up, keys_put};
use stm_outcome::Op;
use stm_program::{Program, Write};
use stm_retry::World;
use stm_steps::State;
use stm_texts::WorldEvent;

/// A key that is asked for, by the place of who asks among rules or among runners.
#[derive(Drop)]
pub(crate) struct AskedKey {
    pub(crate) who: usize,
    pub(crate) key: Text,
}

/// Which keys are asked for, and which are put.
#[derive(Drop)]
pub(crate) struct KeyUse {
    /// What is there where the schedules begin.
    pub(crate) state: State,
    /// The keys that rules ask for, and that are not there.
    pub(crate) by_rules: Vec<AskedKey>,
    /// The same of programs.
    pub(crate) by_runners: Vec<AskedKey>,
    /// Those of them that a run looked up.
    looked_up: Vec<AskedKey>,
    /// The keys that rules ask for at some place, which they make of variables, and that are not there.
    pub(crate) made: Vec<AskedKey>,
    /// The keys that an event of the others or a run puts.
    pub(crate) put: Vec<Text>,
    /// The keys that a program puts by its spelling, though maybe in no run.
    pub(crate) spelled: Vec<Text>,
    /// The texts with which keys begin that a program puts, where its spelling says no more.
    fronts: Vec<Text>,
}

/// Whether a key is among these.
fn is_among(keys: &[Text], key: &Text) -> bool {
    for known in keys {
        if *known == *key {
            return true;
        }
    }
    false
}

/// Adds a key, unless it is there.
fn add_key(keys: &mut Vec<Text>, key: &Text) -> Result<(), AllocError> {
    if !is_among(keys.as_slice(), key) {
        let copy = key.clone()?;
        keys.push(copy)?;
    }
    Ok(())
}

/// Whether it is noted already that somebody asks for a key.
fn is_noted(asked: &[AskedKey], who: usize, key: &Text) -> bool {
    for noted in asked {
        if noted.who == who && noted.key == *key {
            return true;
        }
    }
    false
}

/// Notes that somebody asks for a key, where a state does not have it.
fn note_key(
    asked: &mut Vec<AskedKey>,
    state: &State,
    who: usize,
    key: &Text,
) -> Result<(), AllocError> {
    let is_there = state.get(key.as_str()).is_some();
    if !is_there && !is_noted(asked.as_slice(), who, key) {
        let key = key.clone()?;
        asked.push(AskedKey { who, key })?;
    }
    Ok(())
}

/// Notes that somebody asks for these keys, where a state does not have them.
fn note_keys(
    asked: &mut Vec<AskedKey>,
    state: &State,
    who: usize,
    keys: &[Text],
) -> Result<(), AllocError> {
    for key in keys {
        note_key(asked, state, who, key)?;
    }
    Ok(())
}

/// The keys of how runs ended, which are laid over the state for what is asked at the last places, begin so.
const LAID_OVER: char = '#';

/// Notes that somebody asks for those of these keys that are spelled whole, where a state does not have them. What is asked at the last places alone
/// sees other keys beside.
fn note_names(
    asked: &mut Vec<AskedKey>,
    state: &State,
    who: usize,
    names: &[Name],
    when: When,
) -> Result<(), AllocError> {
    for name in names {
        let is_laid_over = when == When::Last && name.text.as_str().starts_with(LAID_OVER);
        if name.is_whole && !is_laid_over {
            note_key(asked, state, who, &name.text)?;
        }
    }
    Ok(())
}

/// Notes which keys a program asks for by its spelling.
fn note_spelled(
    alloc: Global,
    asked: &mut Vec<AskedKey>,
    state: &State,
    who: usize,
    program: &Program,
    when: When,
) -> Result<(), AllocError> {
    let names = keys_looked_up(alloc, program)?;
    let noted = note_names(asked, state, who, names.as_slice(), when);
    drop(names);
    noted
}

/// Notes which keys a program asks for that is run alone on a state.
fn note_asked(
    alloc: Global,
    asked: &mut Vec<AskedKey>,
    state: &State,
    who: usize,
    program: &Program,
) -> Result<(), AllocError> {
    let run = run_alone(alloc, program, state)?;
    let noted = note_keys(asked, state, who, run.reads.as_slice());
    drop(run);
    noted
}

/// A rule that is asked everywhere and makes keys of variables.
#[derive(Clone, Copy)]
pub(crate) struct VaryingRule<'a> {
    /// Its place among the rules.
    place: usize,
    /// Its program.
    program: &'a Program,
}

/// Whether a name is not spelled whole.
fn is_front(name: &Name) -> bool {
    !name.is_whole
}

/// The rules that are asked everywhere and make keys of variables: they may ask for other keys at each place.
pub(crate) fn varying_rules(
    alloc: Global,
    answers: &[RuleAnswer],
) -> Result<Vec<VaryingRule<'_>>, AllocError> {
    let mut varying = Vec::new(alloc);
    for (place, a) in answers.iter().enumerate() {
        if a.rule.when != When::Each {
            continue;
        }
        let program = &a.rule.program;
        let names = keys_looked_up(alloc, program)?;
        if names.as_slice().iter().any(is_front) {
            varying.push(VaryingRule { place, program })?;
        }
    }
    Ok(varying)
}

impl KeyUse {
    /// Nothing is asked for and nothing is put where a world is.
    pub(crate) fn new(alloc: Global, world: &World) -> Result<KeyUse, AllocError> {
        let state = world.state()?;
        Ok(KeyUse {
            state,
            by_rules: Vec::new(alloc),
            made: Vec::new(alloc),
            by_runners: Vec::new(alloc),
            looked_up: Vec::new(alloc),
            put: Vec::new(alloc),
            spelled: Vec::new(alloc),
            fronts: Vec::new(alloc),
        })
    }

    /// Notes what rules ask for: by their spelling, and, if they are asked everywhere, where the schedules begin.
    pub(crate) fn note_rules(
        &mut self,
        alloc: Global,
        answers: &[RuleAnswer],
    ) -> Result<(), AllocError> {
        for (place, a) in answers.iter().enumerate() {
            let program = &a.rule.program;
            let when = a.rule.when;
            note_spelled(alloc, &mut self.by_rules, &self.state, place, program, when)?;
            if when == When::Each {
                note_asked(alloc, &mut self.by_rules, &self.state, place, program)?;
            }
        }
        Ok(())
    }

    /// Notes what these rules ask for on a state that it does not have.
    pub(crate) fn note_rules_on(
        &mut self,
        alloc: Global,
        state: &State,
        rules: &[VaryingRule<'_>],
    ) -> Result<(), AllocError> {
        for rule in rules {
            note_asked(alloc, &mut self.made, state, rule.place, rule.program)?;
        }
        Ok(())
    }

    /// Notes what the spelling of a program puts.
    fn note_put(&mut self, names: &[Name]) -> Result<(), AllocError> {
        for name in names {
            if name.is_whole {
                add_key(&mut self.spelled, &name.text)?;
            } else {
                add_key(&mut self.fronts, &name.text)?;
            }
        }
        Ok(())
    }

    /// Notes what a runner's program asks for and puts by its spelling.
    fn note_program(
        &mut self,
        alloc: Global,
        place: usize,
        program: &Program,
    ) -> Result<(), AllocError> {
        note_spelled(
            alloc,
            &mut self.by_runners,
            &self.state,
            place,
            program,
            When::Each,
        )?;
        let names = keys_put(alloc, program)?;
        let noted = self.note_put(names.as_slice());
        drop(names);
        noted
    }

    /// Notes what programs ask for and put by their spelling.
    pub(crate) fn note_programs(
        &mut self,
        alloc: Global,
        programs: &[Program],
    ) -> Result<(), AllocError> {
        for (place, program) in programs.iter().enumerate() {
            self.note_program(alloc, place, program)?;
        }
        Ok(())
    }

    /// Notes what operations put.
    fn note_operations(&mut self, operations: &[Op]) -> Result<(), AllocError> {
        for operation in operations {
            match operation {
                Op::Put { key, .. } => add_key(&mut self.put, key)?,
                Op::Get { .. } | Op::Del { .. } => {}
            }
        }
        Ok(())
    }

    /// Notes what events put.
    pub(crate) fn note_events(&mut self, events: &[WorldEvent]) -> Result<(), AllocError> {
        for event in events {
            if let WorldEvent::Txn { txn } = event {
                self.note_operations(txn.success.as_slice())?;
                self.note_operations(txn.failure.as_slice())?;
            }
        }
        Ok(())
    }

    /// Notes what a run puts.
    fn note_writes(&mut self, writes: &[Write]) -> Result<(), AllocError> {
        for write in writes {
            match write {
                Write::Put { key, .. } => add_key(&mut self.put, key)?,
                Write::Del { .. } => {}
            }
        }
        Ok(())
    }

    /// Notes what a run of the program of a runner asked for, and what it put, if it came to its end.
    pub(crate) fn note_run(&mut self, place: usize, run: &Run) -> Result<(), AllocError> {
        if let End::Done = &run.end {
            self.note_writes(run.writes.as_slice())?;
        }
        let reads = run.reads.as_slice();
        note_keys(&mut self.by_runners, &self.state, place, reads)?;
        note_keys(&mut self.looked_up, &self.state, place, reads)
    }

    /// Whether a run of a runner looked up a key that its program asks for.
    pub(crate) fn is_looked_up(&self, asked: &AskedKey) -> bool {
        is_noted(self.looked_up.as_slice(), asked.who, &asked.key)
    }

    /// Whether a rule asks for a key by its spelling, or where the schedules begin.
    pub(crate) fn is_asked(&self, asked: &AskedKey) -> bool {
        is_noted(self.by_rules.as_slice(), asked.who, &asked.key)
    }

    /// Whether an event of the others or a run puts a key.
    pub(crate) fn is_put(&self, key: &Text) -> bool {
        is_among(self.put.as_slice(), key)
    }

    /// Whether a program puts a key by its spelling.
    pub(crate) fn is_spelled(&self, key: &Text) -> bool {
        is_among(self.spelled.as_slice(), key)
    }

    /// Whether a program puts a key by its spelling, or may do so where that does not say all.
    pub(crate) fn may_be_put(&self, key: &Text) -> bool {
        for front in self.fronts.as_slice() {
            if key.as_str().starts_with(front.as_str()) {
                return true;
            }
        }
        self.is_spelled(key)
    }

    /// Whether it is yet to be seen of a key that a rule asks for whether a run puts it.
    pub(crate) fn is_open(&self) -> bool {
        for asked in self.by_rules.as_slice() {
            let key = &asked.key;
            if !self.is_put(key) && !self.is_spelled(key) && self.may_be_put(key) {
                return true;
            }
        }
        false
    }
}

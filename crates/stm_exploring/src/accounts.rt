//! How the runs of programs ended: that a rule is always kept says little where they never did their work, or where it or they ask for keys that nobody
//! puts.
ghost use Rattle.stm_serial_search.specs.Search.{AreProgramsOf};

use crate::aborting::tell_without_abort;
use crate::asked_keys::{rule_word, tell_of_rules, tell_of_runners};
use crate::audience::Audience;
use crate::counted_ends::{Came, count_end, push_ends};
use crate::final_words::{AskedOutput, outputs_asked, wrong_ends};
use crate::judging::Searched;
use crate::key_use::{KeyUse, VaryingRule, varying_rules};
use crate::lost_leases::tell_lost_leases;
use crate::rules::{RuleAnswer, has_kept};
use crate::run_texts::tell_texts;
use crate::seen_ends::{SeenEnds, never_words};
use serde_json::Value as Json;
use std::alloc::{AllocError, Global};
use stm_events::EventRefusal;
use stm_explain::{Said, shown};
use stm_faulted_runs::fault_on;
use stm_history::Text;
use stm_meaning::{End, Run};
use stm_program::Program;
use stm_retry::World;
use stm_serial_search::{Follower, go_through_orders};

/// At most this many moves are made for an account of serial orders.
const MOST_MOVES: u64 = 10000;

/// Of which runners it is said how their runs ended.
#[derive(Clone, Copy, PartialEq, Eq)]
pub(crate) enum Told {
    /// Of all.
    All,
    /// Of those that never committed.
    Never,
    /// Of none. It is only said which keys the rules ask for in vain.
    None,
}

impl Told {
    /// Whether it tells of a runner that has committed, or never has.
    pub(crate) fn is_of(self, has_committed: bool) -> bool {
        match self {
            Told::All => true,
            Told::Never => !has_committed,
            Told::None => false,
        }
    }
}

/// What is said at the end of a search: all where that is wanted, and where a rule is always kept which runners never committed.
fn told_of(wants_all: bool, is_kept: bool) -> Told {
    if wants_all {
        Told::All
    } else if is_kept {
        Told::Never
    } else {
        Told::None
    }
}

/// The runs of an account of serial orders, where all were gone through.
const OF_ALL_ORDERS: &str = "runs in all serial orders";

/// The same, where not all were.
const OF_SOME_ORDERS: &str = "runs in 10000 moves of serial orders";

/// What is said where an allocation failed for an account.
pub(crate) const NO_MEMORY: &str = "out of memory: what the answer covers is not known";

/// How the runs of one runner ended.
#[derive(Drop)]
pub(crate) struct Runs {
    pub(crate) has_committed: bool,
    pub(crate) has_faulted: bool,
    /// Whether the store refused one since a lease was not live.
    pub(crate) has_lost_lease: bool,
    ends: Vec<Came>,
    /// How many outputs a run of it had at most.
    outputs: usize,
    /// To which fault its program came where it first came to one, and why, where that is to be said.
    fault: Option<String>,
}

/// How the programs of runners end, each run alone, in every serial order.
#[derive(Drop)]
pub(crate) struct Account<'a> {
    pub(crate) alloc: Global,
    /// The rules that make keys of variables, and so may ask for another one at each place.
    varying: Vec<VaryingRule<'a>>,
    /// The runners' programs.
    pub(crate) programs: &'a [Program],
    /// By the runners' numbers.
    pub(crate) runners: Vec<Runs>,
    /// Which keys are asked for, and which are put.
    pub(crate) keys: KeyUse,
    /// Which outputs are asked for.
    outputs: Vec<AskedOutput>,
    /// It goes on while something is to be learned of what is said.
    pub(crate) told: Told,
    /// How many runners have not committed so far.
    waiting: usize,
    /// How many moves may still be made.
    left: u64,
    /// Whether all orders were gone through so far.
    pub(crate) is_whole: bool,
    /// Whether an allocation failed.
    is_cut: bool,
}

impl Follower for Account<'_> {
    fn may_move(&mut self) -> bool {
        self.is_whole = self.goes_on();
        self.is_whole
    }

    fn came(&mut self, world: &World) {
        if self.note_place(world).is_err() {
            self.is_cut = true;
        }
    }

    fn ran(&mut self, runner: u64, run: &Run) {
        if self.note_run(runner, run).is_err() {
            self.is_cut = true;
        }
    }

    fn stopped(&mut self, world: &World, runner: u64, run: &Run) {
        if self.note_stop(world, runner, run).is_err() {
            self.is_cut = true;
        }
    }

    fn refused(&mut self, runner: u64, cause: EventRefusal) {
        if cause == EventRefusal::LeaseNotFound {
            self.mark_lost_lease(runner);
        }
        if self.note_word(runner, "ended", cause.name()).is_err() {
            self.is_cut = true;
        }
    }
}

/// A text as it is shown: in quotes, and of a long one its beginning.
pub(crate) fn shown_text(alloc: Global, text: &str) -> Said {
    let copy = String::from_str(alloc, text)?;
    let json = Json::String(copy);
    let shown = shown(alloc, &json);
    drop(json);
    shown
}

/// To which fault a program comes in a world, where in it, and why.
fn fault_in(alloc: Global, program: &Program, world: &World) -> Said {
    let state = world.state()?;
    fault_on(alloc, program, &state)
}

/// The runs of a runner of which nothing is known.
fn no_runs(alloc: Global) -> Runs {
    Runs {
        has_committed: false,
        has_faulted: false,
        has_lost_lease: false,
        ends: Vec::new(alloc),
        outputs: 0,
        fault: None,
    }
}

/// So many runners, of whose runs nothing is known.
fn no_account(alloc: Global, count: usize) -> Result<Vec<Runs>, AllocError> {
    let mut runners = Vec::new(alloc);
    for _ in 0..count {
        runners.push(no_runs(alloc))?;
    }
    Ok(runners)
}

impl<'a> Account<'a> {
    /// Whether something is yet to be learned, and one move more may be made for it.
    fn goes_on(&mut self) -> bool {
        if self.left == 0 || self.is_cut {
            return false;
        }
        self.left -= 1;
        match self.told {
            Told::All => true,
            Told::Never => self.waiting > 0 || self.asks(),
            Told::None => self.asks(),
        }
    }

    /// Whether it is yet to be seen of something that is asked for whether a run has it.
    fn asks(&self) -> bool {
        !self.outputs.is_empty() || !self.varying.is_empty() || self.keys.is_open()
    }

    /// Whether nothing puts a key, by what the spelling of programs says of it or by their runs in all serial orders.
    pub(crate) fn is_unput(&self, key: &Text) -> bool {
        !self.keys.is_put(key) && (self.is_whole || !self.keys.may_be_put(key))
    }

    /// The same of a key that no program puts by its spelling, either.
    pub(crate) fn is_strange(&self, key: &Text) -> bool {
        self.is_unput(key) && !self.keys.is_spelled(key)
    }

    /// Notes what the rules ask for at a place that make keys of variables.
    fn note_place(&mut self, world: &World) -> Result<(), AllocError> {
        if self.varying.is_empty() || self.is_cut {
            return Ok(());
        }
        let state = world.state()?;
        self.keys
            .note_rules_on(self.alloc, &state, self.varying.as_slice())
    }

    /// Notes how a run of a runner ended.
    fn note_run(&mut self, runner: u64, run: &Run) -> Result<(), AllocError> {
        let place = runner.saturating_sub(1);
        if place < self.runners.len() as u64 {
            self.keys.note_run(place as usize, run)?;
        }
        match &run.end {
            End::Done => self.note_commit(runner, run.output.len()),
            End::Aborted(text) => self.note_abort(runner, text),
            End::Faulted(fault) => {
                self.mark_fault(runner);
                self.note_word(runner, "faulted", fault.name())
            }
        }
    }

    /// Marks a runner of which a run came to a fault.
    fn mark_fault(&mut self, runner: u64) {
        let index = runner.saturating_sub(1);
        if index < self.runners.len() as u64 {
            self.runners[index as usize].has_faulted = true;
        }
    }

    /// Marks a runner of which the store refused a run since a lease was not live.
    fn mark_lost_lease(&mut self, runner: u64) {
        let index = runner.saturating_sub(1);
        if index < self.runners.len() as u64 {
            self.runners[index as usize].has_lost_lease = true;
        }
    }

    /// Notes to which fault the program of a runner came in a world, where that is to be said and it is the first one.
    fn note_fault(&mut self, world: &World, runner: u64) -> Result<(), AllocError> {
        let alloc = self.alloc;
        let programs = self.programs;
        let index = runner.saturating_sub(1);
        if index >= self.runners.len() as u64 || index >= programs.len() as u64 {
            return Ok(());
        }
        let program = &programs[index as usize];
        let runs = &mut self.runners[index as usize];
        if runs.fault.is_none() {
            runs.fault = Some(fault_in(alloc, program, world)?);
        }
        Ok(())
    }

    /// Notes that a run of a runner stopped in a world.
    fn note_stop(&mut self, world: &World, runner: u64, run: &Run) -> Result<(), AllocError> {
        match (&run.end, self.told) {
            (End::Faulted(_), Told::All) if !self.is_cut => self.note_fault(world, runner),
            _ => Ok(()),
        }
    }

    /// Marks a runner of which a run was committed that had so many outputs.
    fn mark(&mut self, runner: u64, outputs: usize) {
        let index = runner.saturating_sub(1);
        if index >= self.runners.len() as u64 {
            return;
        }
        let runs = &mut self.runners[index as usize];
        runs.outputs = runs.outputs.max(outputs);
        if !runs.has_committed {
            runs.has_committed = true;
            self.waiting = self.waiting.saturating_sub(1);
        }
    }

    /// Notes that a run of a runner was committed that had so many outputs.
    fn note_commit(&mut self, runner: u64, outputs: usize) -> Result<(), AllocError> {
        self.mark(runner, outputs);
        let how = String::from_str(self.alloc, "committed")?;
        self.note(runner, how)
    }

    /// Notes that a run of a runner came to this end.
    fn note(&mut self, runner: u64, how: String) -> Result<(), AllocError> {
        let index = runner.saturating_sub(1);
        if index >= self.runners.len() as u64 {
            return Ok(());
        }
        count_end(&mut self.runners[index as usize].ends, how)
    }

    /// Notes that a run of a runner aborted with this text.
    fn note_abort(&mut self, runner: u64, text: &Text) -> Result<(), AllocError> {
        let alloc = self.alloc;
        let text = shown_text(alloc, text.as_str())?;
        let how = format!(in alloc; "aborted {text}")?;
        self.note(runner, how)
    }

    /// Notes that a run of a runner ended so, for this cause.
    fn note_word(&mut self, runner: u64, word: &str, cause: &str) -> Result<(), AllocError> {
        let alloc = self.alloc;
        let how = format!(in alloc; "{word} {cause}")?;
        self.note(runner, how)
    }
}

/// The line of a runner's account, which is of these runs: that it never committed is said where a rule is always kept.
fn line_of(alloc: Global, runner: usize, runs: &Runs, of: &str, is_kept: bool) -> Said {
    let never = never_words(runs.has_committed, is_kept);
    let mut line = format!(in alloc; "runner {runner}{never}; {of}")?;
    push_ends(alloc, &mut line, runs.ends.as_slice())?;
    Ok(line)
}

/// Whether it is to be said how the runs of a runner ended, if there were any.
pub(crate) fn is_said(runs: &Runs, told: Told) -> bool {
    !runs.ends.is_empty() && told.is_of(runs.has_committed)
}

/// Says to which fault the program of a runner first comes, where that was noted.
fn tell_fault<O: Audience>(
    alloc: Global,
    runner: usize,
    runs: &Runs,
    audience: &mut O,
) -> Result<(), AllocError> {
    if let Some(fault) = &runs.fault {
        let fault = fault.as_str();
        let line = format!(in alloc; "the program of runner {runner} comes to {fault}")?;
        audience.hear_fault(line.as_str());
    }
    Ok(())
}

/// Says how the runs of a runner ended, which are of these.
fn tell_runner<O: Audience>(
    alloc: Global,
    runner: usize,
    runs: &Runs,
    of: &str,
    is_kept: bool,
    audience: &mut O,
) -> Result<(), AllocError> {
    let line = line_of(alloc, runner, runs, of, is_kept)?;
    if is_kept && !runs.has_committed {
        audience.doubt(line.as_str());
    } else {
        audience.hear(line.as_str());
    }
    drop(line);
    tell_fault(alloc, runner, runs, audience)
}

/// Says how the runs of each runner ended of which it is to be said. The account is of these runs.
fn tell_runs<O: Audience>(
    account: &Account<'_>,
    of: &str,
    is_kept: bool,
    audience: &mut O,
) -> Result<(), AllocError> {
    for index in 0..account.runners.len() {
        let runs = &account.runners[index];
        if is_said(runs, account.told) {
            tell_runner(account.alloc, index + 1, runs, of, is_kept, audience)?;
        }
    }
    Ok(())
}

/// Says of finals which words they compare with a runner's end that are none.
fn tell_ends<O: Audience>(
    alloc: Global,
    answers: &[RuleAnswer],
    audience: &mut O,
) -> Result<(), AllocError> {
    let wrong = wrong_ends(alloc, answers)?;
    for end in wrong.as_slice() {
        let who = rule_word(alloc, answers, end.rule)?;
        let who = who.as_str();
        let runner = end.runner.as_str();
        let word = shown_text(alloc, end.word.as_str())?;
        let near = end.near;
        let line = format!(in alloc;
            "{who} asks whether the end of runner {runner} is {word}, which none is; the nearest is \"{near}\""
        )?;
        audience.doubt(line.as_str());
    }
    Ok(())
}

/// Says that a final asks for an output that no run of its runner has.
fn tell_output<O: Audience>(
    account: &Account<'_>,
    answers: &[RuleAnswer],
    asked: AskedOutput,
    audience: &mut O,
) -> Result<(), AllocError> {
    let index = asked.runner.saturating_sub(1);
    if index >= account.runners.len() as u64 {
        return Ok(());
    }
    let runs = &account.runners[index as usize];
    let most = runs.outputs;
    if !runs.has_committed || asked.place < most as u64 {
        return Ok(());
    }
    let who = rule_word(account.alloc, answers, asked.rule)?;
    let who = who.as_str();
    let runner = asked.runner;
    let place = asked.place;
    let line = format!(in account.alloc;
        "{who} asks for output {place} of runner {runner}, which has {most} at most in any serial order"
    )?;
    audience.doubt(line.as_str());
    Ok(())
}

/// Says of finals which outputs they ask for that no run has, where all orders were gone through.
fn tell_outputs<O: Audience>(
    account: &Account<'_>,
    answers: &[RuleAnswer],
    audience: &mut O,
) -> Result<(), AllocError> {
    if account.is_whole {
        for asked in account.outputs.as_slice() {
            tell_output(account, answers, *asked, audience)?;
        }
    }
    Ok(())
}

/// Says how the runs of runners ended: at the ends of the schedules in which some wait, where these were seen, and else in serial orders.
fn tell_ended<O: Audience>(
    account: &Account<'_>,
    answers: &[RuleAnswer],
    seen: Option<&SeenEnds>,
    audience: &mut O,
) -> Result<(), AllocError> {
    let is_kept = has_kept(answers);
    match seen {
        Some(seen) => seen.tell(account.told, is_kept, audience),
        None => {
            let of = if account.left == 0 {
                OF_SOME_ORDERS
            } else {
                OF_ALL_ORDERS
            };
            tell_runs(account, of, is_kept, audience)
        }
    }
}

/// Says what an account of serial orders has.
fn tell_orders<O: Audience>(
    account: &Account<'_>,
    at: &Searched<'_>,
    answers: &[RuleAnswer],
    seen: Option<&SeenEnds>,
    audience: &mut O,
) -> Result<(), AllocError> {
    tell_ended(account, answers, seen, audience)?;
    tell_lost_leases(account, at.whole, at.others, audience)?;
    tell_of_runners(account, audience)?;
    tell_without_abort(account.alloc, answers, audience)?;
    tell_of_rules(account, answers, audience)?;
    tell_ends(account.alloc, answers, audience)?;
    tell_texts(account.alloc, answers, account.programs, audience)?;
    tell_outputs(account, answers, audience)
}

/// Notes which keys rules and programs ask for, and which the programs and the others put.
fn note_keys(
    alloc: Global,
    keys: &mut KeyUse,
    at: &Searched<'_>,
    answers: &[RuleAnswer],
) -> Result<(), AllocError> {
    keys.note_rules(alloc, answers)?;
    keys.note_programs(alloc, at.programs)?;
    keys.note_events(at.others)
}

/// What is known of keys before any run.
fn keys_of(alloc: Global, at: &Searched<'_>, answers: &[RuleAnswer]) -> Result<KeyUse, AllocError> {
    let mut keys = KeyUse::new(alloc, at.whole)?;
    match note_keys(alloc, &mut keys, at, answers) {
        Ok(()) => Ok(keys),
        Err(_) => {
            drop(keys);
            Err(AllocError)
        }
    }
}

/// The account of no run, about rules.
fn account_before<'a>(
    alloc: Global,
    at: &Searched<'a>,
    answers: &'a [RuleAnswer],
    told: Told,
) -> Result<Account<'a>, AllocError> {
    let outputs = outputs_asked(alloc, answers)?;
    let varying = varying_rules(alloc, answers)?;
    let waiting = at.whole.runner_count();
    let runners = no_account(alloc, waiting)?;
    let keys = keys_of(alloc, at, answers)?;
    Ok(Account {
        alloc,
        varying,
        programs: at.programs,
        runners,
        keys,
        outputs,
        told,
        waiting,
        left: MOST_MOVES,
        is_whole: true,
        is_cut: false,
    })
}

/// Makes an account, and says it. The orders are gone through in a world that stands for the whole one.
fn make_account<O: Audience>(
    alloc: Global,
    at: &Searched<'_>,
    answers: &[RuleAnswer],
    seen: Option<&SeenEnds>,
    told: Told,
    audience: &mut O,
) -> Result<(), AllocError>
    requires { AreProgramsOf at.now.programs.now at.now.world.now.runners }
{
    let mut account = account_before(alloc, at, answers, told)?;
    go_through_orders(alloc, at.world, at.others, at.programs, &mut account)?;
    if account.is_cut {
        return Err(AllocError);
    }
    tell_orders(&account, at, answers, seen, audience)
}

/// Says how the runs ended of the runners of which it is told, each program run alone in every serial order, or at the ends of schedules, where these
/// were seen, and which keys the rules ask for that are not there in the whole world and that nothing puts. Or it says that an allocation failed for it.
pub(crate) fn tell_account<O: Audience>(
    alloc: Global,
    at: &Searched<'_>,
    answers: &[RuleAnswer],
    seen: Option<&SeenEnds>,
    audience: &mut O,
)
    requires { AreProgramsOf at.now.programs.now at.now.world.now.runners }
{
    let told = told_of(audience.wants_all(), has_kept(answers));
    if let Err(_) = make_account(alloc, at, answers, seen, told, audience) {
        audience.hear(NO_MEMORY);
    }
}

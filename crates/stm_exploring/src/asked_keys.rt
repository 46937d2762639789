//! What is said of keys that rules and runners ask for and that nothing puts: most are misspelt, and some are to stay absent.
ghost use Rattle.std.specs.Prelude.{◌<◌};

use crate::accounts::{Account, Runs, is_said, shown_text};
use crate::audience::Audience;
use crate::elses::have_else;
use crate::key_use::AskedKey;
use crate::near_keys::{are_of_a_list, nearest};
use crate::rules::RuleAnswer;
use std::alloc::{AllocError, Global};
use stm_explain::Said;
use stm_explore::When;
use stm_history::Text;

/// A key is near to another one where it is so by fewer edits than about this part of its characters.
const NEAR: usize = 2;

/// The same, where one is most likely meant for the other.
const MEANT: usize = 4;

/// What a runner is called.
fn runner_word(alloc: Global, place: usize) -> Said {
    let number = place.saturating_add(1);
    format!(in alloc; "runner {number}")
}

/// What a rule is called.
pub(crate) fn rule_word(alloc: Global, answers: &[RuleAnswer], place: usize) -> Said {
    if place < answers.len() {
        let rule = &answers[place].rule;
        if let Some(name) = &rule.name {
            let name = name.as_str();
            let word = match rule.when {
                When::Each => "rule",
                When::Last => "finally",
            };
            return format!(in alloc; "{word} {name}");
        }
    }
    String::from_str(alloc, "the rule")
}

/// What is said of a key or a text that is near to another one; nothing where there is none.
pub(crate) fn near_words(alloc: Global, near: &str) -> Said {
    if near.is_empty() {
        return Ok(String::new(alloc));
    }
    let near = shown_text(alloc, near)?;
    format!(in alloc; "; the nearest is {near}")
}

/// What is said behind keys that nothing puts: where that is known of serial orders alone.
fn places_words(is_sure: bool) -> &'static str {
    if is_sure { "" } else { " in any serial order" }
}

/// What somebody does who looks a key up in some run.
const ASKS: &str = "asks for";

/// The same, where it says what stands for the key that is absent.
const ASKS_ELSE: &str = "asks, with an else, for";

/// What a runner does with a key that stands in its program and that a run looked up, or none was seen to.
fn verb(account: &Account<'_>, is_looked_up: bool) -> &'static str {
    if is_looked_up {
        ASKS
    } else if account.is_whole {
        "names, but looks up in no serial order,"
    } else {
        "names"
    }
}

/// The line that says that somebody asks for a key that nothing puts, or only names it, and which one is nearest.
fn key_line(alloc: Global, who: &str, verb: &str, key: &Text, is_sure: bool, near: &str) -> Said {
    let key = shown_text(alloc, key.as_str())?;
    let places = places_words(is_sure);
    let near = near_words(alloc, near)?;
    format!(in alloc;
        "{who} {verb} the key {key}, which is not there and which nothing puts{places}{near}"
    )
}

/// The nearest key to one, not further than that part of it, unless the two are of a list, of which one may well ask for more than is there; an empty text where
/// there is none.
fn near_one<'a>(account: &'a Account<'_>, key: &Text, part: usize) -> Result<&'a str, AllocError>
    requires { 0 < part }
{
    let alloc = account.alloc;
    let near = nearest(alloc, &account.keys, key, part)?;
    if are_of_a_list(alloc, key.as_str(), near)? {
        return Ok("");
    }
    Ok(near)
}

/// A key that is so near to one which nothing puts that this is most likely misspelt; an empty text where there is none.
fn meant<'a>(account: &'a Account<'_>, key: &Text) -> Result<&'a str, AllocError> {
    if !account.is_strange(key) {
        return Ok("");
    }
    near_one(account, key, MEANT)
}

/// The line of a key that a runner asks for and that nothing puts.
fn runner_key_line(account: &Account<'_>, asked: &AskedKey, near: &str) -> Said {
    let alloc = account.alloc;
    let who = runner_word(alloc, asked.who)?;
    let is_sure = !account.keys.may_be_put(&asked.key);
    let verb = verb(account, account.keys.is_looked_up(asked));
    key_line(alloc, who.as_str(), verb, &asked.key, is_sure, near)
}

/// Whether a runner came to a fault, and asks for a key that some program puts: that no run puts it says nothing of the key, since the runs ended before.
fn is_behind_fault(account: &Account<'_>, asked: &AskedKey, runs: &Runs) -> bool {
    runs.has_faulted && account.keys.may_be_put(&asked.key)
}

/// Keys of a runner that nothing puts and of which that is worth no doubt, as they are said: those that a run looked up, or the others.
#[derive(Drop)]
struct Vain {
    /// What it does with them.
    verb: &'static str,
    keys: String,
    count: usize,
    /// Whether it is sure of each that nothing puts it, and not so in all serial orders alone.
    are_sure: bool,
}

impl Vain {
    /// None so far.
    fn new(alloc: Global, verb: &'static str) -> Vain {
        Vain {
            verb,
            keys: String::new(alloc),
            count: 0,
            are_sure: true,
        }
    }

    /// Adds a key.
    fn add(&mut self, alloc: Global, key: &Text, is_sure: bool) -> Result<(), AllocError> {
        if self.count > 0 {
            self.keys.push_str(", ")?;
        }
        let key = shown_text(alloc, key.as_str())?;
        self.keys.push_str(key.as_str())?;
        self.count = self.count.saturating_add(1);
        self.are_sure = self.are_sure && is_sure;
        Ok(())
    }

    /// Says them of a runner, if there are any.
    fn tell<O: Audience>(
        &self,
        alloc: Global,
        runner: usize,
        audience: &mut O,
    ) -> Result<(), AllocError> {
        if self.count > 0 {
            let line = self.line(alloc, runner)?;
            audience.hear(line.as_str());
        }
        Ok(())
    }

    /// The line of a runner that has them in its program.
    fn line(&self, alloc: Global, runner: usize) -> Said {
        let who = runner_word(alloc, runner)?;
        let who = who.as_str();
        let verb = self.verb;
        let keys = self.keys.as_str();
        let words = if self.count == 1 { "key" } else { "keys" };
        let are = if self.count == 1 { "is" } else { "are" };
        let places = places_words(self.are_sure);
        format!(in alloc;
            "{who} {verb} the {words} {keys}, which {are} not there and which nothing puts{places}"
        )
    }
}

/// Whether a runner's program says what stands for a key that is absent.
fn runner_has_else(account: &Account<'_>, asked: &AskedKey) -> bool {
    match account.programs.get(asked.who) {
        Some(program) => have_else(program.statements(), asked.key.as_str()),
        None => false,
    }
}

/// Says of a key that a runner asks for that nothing puts it: where another key is most likely meant, and where it is to be said how its runs ended, unless
/// that was by a fault before the key could be put. That is worth a doubt, if none of them committed, unless the program says what stands for the key; else it
/// is added to those that stand in one line.
fn tell_asked<O: Audience>(
    account: &Account<'_>,
    asked: &AskedKey,
    runs: &Runs,
    looked_up: &mut Vain,
    named: &mut Vain,
    audience: &mut O,
) -> Result<(), AllocError> {
    let alloc = account.alloc;
    let is_said = is_said(runs, account.told) && !is_behind_fault(account, asked, runs);
    let is_meant = !meant(account, &asked.key)?.is_empty() || (is_said && !runs.has_committed);
    if is_meant && !runner_has_else(account, asked) {
        let near = nearest(alloc, &account.keys, &asked.key, NEAR)?;
        let line = runner_key_line(account, asked, near)?;
        audience.doubt(line.as_str());
    } else if is_said {
        let is_sure = !account.keys.may_be_put(&asked.key);
        let vain = if account.keys.is_looked_up(asked) {
            looked_up
        } else {
            named
        };
        vain.add(alloc, &asked.key, is_sure)?;
    }
    Ok(())
}

/// Says which keys a runner asks for that nothing puts.
fn tell_of_runner<O: Audience>(
    account: &Account<'_>,
    runner: usize,
    runs: &Runs,
    audience: &mut O,
) -> Result<(), AllocError> {
    let alloc = account.alloc;
    let mut looked_up = Vain::new(alloc, verb(account, true));
    let mut named = Vain::new(alloc, verb(account, false));
    for asked in account.keys.by_runners.as_slice() {
        if asked.who == runner && account.is_unput(&asked.key) {
            tell_asked(account, asked, runs, &mut looked_up, &mut named, audience)?;
        }
    }
    looked_up.tell(alloc, runner, audience)?;
    named.tell(alloc, runner, audience)
}

/// Says which keys the runners ask for that nothing puts.
pub(crate) fn tell_of_runners<O: Audience>(
    account: &Account<'_>,
    audience: &mut O,
) -> Result<(), AllocError> {
    for runner in 0..account.runners.len() {
        tell_of_runner(account, runner, &account.runners[runner], audience)?;
    }
    Ok(())
}

/// Whether a rule's program says what stands for a key that is absent.
fn rule_has_else(answers: &[RuleAnswer], asked: &AskedKey) -> bool {
    match answers.get(asked.who) {
        Some(a) => have_else(a.rule.program.statements(), asked.key.as_str()),
        None => false,
    }
}

/// Says that a rule asks for a key that nothing puts, and which one is nearest. That is a hint, where its program says what stands for the key.
fn tell_of_rule<O: Audience>(
    account: &Account<'_>,
    answers: &[RuleAnswer],
    asked: &AskedKey,
    audience: &mut O,
) -> Result<(), AllocError> {
    let alloc = account.alloc;
    let keys = &account.keys;
    let key = &asked.key;
    let near = nearest(alloc, keys, key, NEAR)?;
    let who = rule_word(alloc, answers, asked.who)?;
    let is_sure = !keys.may_be_put(key);
    if rule_has_else(answers, asked) {
        let who = who.as_str();
        let who = format!(in alloc; "hint: {who}")?;
        let line = key_line(alloc, who.as_str(), ASKS_ELSE, key, is_sure, near)?;
        audience.hear(line.as_str());
        return Ok(());
    }
    let line = key_line(alloc, who.as_str(), ASKS, key, is_sure, near)?;
    audience.doubt(line.as_str());
    Ok(())
}

/// Says which keys rules make of variables that nothing puts, where another one is most likely meant: of a list a rule may well ask for more than is there.
fn tell_of_made<O: Audience>(
    account: &Account<'_>,
    answers: &[RuleAnswer],
    audience: &mut O,
) -> Result<(), AllocError> {
    let keys = &account.keys;
    for asked in keys.made.as_slice() {
        if !keys.is_asked(asked) && !meant(account, &asked.key)?.is_empty() {
            tell_of_rule(account, answers, asked, audience)?;
        }
    }
    Ok(())
}

/// What is said first of keys that rules ask for, that nothing puts and to which none is near.
const HINT: &str =
    "hint: these keys are not there, and nothing puts them, which is right if they are to be absent: ";

/// The keys that rules ask for, that nothing puts and to which none is near, as they are said.
#[derive(Drop)]
struct Hint {
    line: String,
    /// The place of the rule whose key was added last, if there is one.
    last: Option<usize>,
}

/// What stands before a key of a rule: the rule, unless the key before it is of the same one.
fn before_key(alloc: Global, last: Option<usize>, answers: &[RuleAnswer], place: usize) -> Said {
    if last == Some(place) {
        return String::from_str(alloc, ", ");
    }
    let between = if last.is_none() { HINT } else { "; " };
    let who = rule_word(alloc, answers, place)?;
    let who = who.as_str();
    format!(in alloc; "{between}{who} ")
}

impl Hint {
    /// Adds a key that a rule asks for. It is sure that nothing puts it, or so in all serial orders.
    fn add(
        &mut self,
        alloc: Global,
        answers: &[RuleAnswer],
        asked: &AskedKey,
        is_sure: bool,
    ) -> Result<(), AllocError> {
        let before = before_key(alloc, self.last, answers, asked.who)?;
        let key = shown_text(alloc, asked.key.as_str())?;
        self.line.push_str(before.as_str())?;
        self.line.push_str(key.as_str())?;
        if !is_sure {
            self.line.push_str(" (by serial orders)")?;
        }
        self.last = Some(asked.who);
        Ok(())
    }
}

/// Says of a key that a rule asks for that nothing puts it, where a near one is most likely meant; else it is added to those of the hint.
fn tell_or_add<O: Audience>(
    account: &Account<'_>,
    answers: &[RuleAnswer],
    asked: &AskedKey,
    hint: &mut Hint,
    audience: &mut O,
) -> Result<(), AllocError> {
    if !near_one(account, &asked.key, NEAR)?.is_empty() {
        return tell_of_rule(account, answers, asked, audience);
    }
    if rule_has_else(answers, asked) {
        return Ok(());
    }
    let is_sure = !account.keys.may_be_put(&asked.key);
    hint.add(account.alloc, answers, asked, is_sure)
}

/// Says which keys rules ask for that nothing puts: each to which one is near, and then all others in one line, which are to be absent or misspelt.
pub(crate) fn tell_of_rules<O: Audience>(
    account: &Account<'_>,
    answers: &[RuleAnswer],
    audience: &mut O,
) -> Result<(), AllocError> {
    let mut hint = Hint {
        line: String::new(account.alloc),
        last: None,
    };
    for asked in account.keys.by_rules.as_slice() {
        if account.is_strange(&asked.key) {
            tell_or_add(account, answers, asked, &mut hint, audience)?;
        }
    }
    tell_of_made(account, answers, audience)?;
    if hint.last.is_some() {
        audience.doubt(hint.line.as_str());
    }
    Ok(())
}

//! The texts of runs that finals ask for: with which they end, and which they emit. One that no run can come to, whatever the schedule and the level, is most
//! likely misspelt.

use crate::accounts::shown_text;
use crate::asked_keys::{near_words, rule_word};
use crate::audience::Audience;
use crate::final_words::OUTPUT_KEY;
use crate::near_keys::{NearText, nearest_name};
use crate::rules::RuleAnswer;
use std::alloc::{AllocError, Global};
use stm_explain::Said;
use stm_explore::When;
use stm_history::{Sequence, Text};
use stm_named_keys::{Compared, Name, Written, keys_looked_up, keys_written, values_compared};
use stm_program::{Block, Expr, ExprNode, Program, Stmt, StmtNode};

/// What the key of a run's text or cause begins with, before the runner's number.
const REASON_KEY: &str = "#why/";

/// The faults and refusals that end a run.
const CAUSES: [&str; 25] = [
    "Kind",
    "Overflow",
    "ZeroDivisor",
    "NotANumber",
    "LoopTooLong",
    "TurnLimit",
    "TextTooLong",
    "EmptyKey",
    "OutOfMemory",
    "BadProgram",
    "FutureRevision",
    "Compacted",
    "RevisionsUsedUp",
    "LeaseExists",
    "TtlOutOfRange",
    "LeaseIdOutOfRange",
    "LeaseNotFound",
    "NoWatcher",
    "TooManyOps",
    "DuplicateKey",
    "TimeGoesBack",
    "BadLimit",
    "NoRunner",
    "Behind",
    "Unvouched",
];

/// Which text of a run a final asks for.
#[derive(Clone, Copy, PartialEq, Eq)]
enum Asked {
    /// With which it ended: that of an abort, a cause, or the key over which it gave up.
    Reason,
    /// One that it emitted.
    Output,
}

/// Adds a text, or one that begins with it.
fn add_name(
    alloc: Global,
    texts: &mut Sequence<Name>,
    text: &str,
    is_whole: bool,
) -> Result<(), AllocError> {
    let text = Text::copy_of(alloc, text)?;
    texts.push(Name { text, is_whole })
}

/// Adds what the spelling of an expression says of its text, or of one that begins with it.
#[cycle(expressions)]
fn add_text(
    alloc: Global,
    texts: &mut Sequence<Name>,
    text: &Expr,
    is_whole: bool,
) -> Result<(), AllocError> {
    match &text.node {
        ExprNode::Text(known) => add_name(alloc, texts, known.as_str(), is_whole),
        ExprNode::Cat(left, _) => add_text(alloc, texts, left, false),
        ExprNode::Number(_)
        | ExprNode::Variable(_)
        | ExprNode::Get(_)
        | ExprNode::Rev(_)
        | ExprNode::Arithmetic(_, _, _)
        | ExprNode::TextOf(_)
        | ExprNode::NumOf(_) => add_name(alloc, texts, "", false),
    }
}

/// Whether an expression gives a number.
fn is_number(expression: &Expr) -> bool {
    match &expression.node {
        ExprNode::Number(_)
        | ExprNode::Rev(_)
        | ExprNode::Arithmetic(_, _, _)
        | ExprNode::NumOf(_) => true,
        ExprNode::Text(_)
        | ExprNode::Variable(_)
        | ExprNode::Get(_)
        | ExprNode::Cat(_, _)
        | ExprNode::TextOf(_) => false,
    }
}

/// Adds what the spelling of an expression says of its text, where that is asked for and it gives no number.
fn add_asked(
    alloc: Global,
    texts: &mut Sequence<Name>,
    is_asked: bool,
    text: &Expr,
) -> Result<(), AllocError> {
    if !is_asked || is_number(text) {
        return Ok(());
    }
    add_text(alloc, texts, text, true)
}

/// Adds the texts that are asked for, of a statement.
#[cycle(statements)]
fn add_statement(
    alloc: Global,
    texts: &mut Sequence<Name>,
    asked: Asked,
    statement: &Stmt,
) -> Result<(), AllocError> {
    match &statement.node {
        StmtNode::Abort(text) => add_asked(alloc, texts, asked == Asked::Reason, text),
        StmtNode::Emit(value) => add_asked(alloc, texts, asked == Asked::Output, value),
        StmtNode::If(_, yes, no) => {
            add_block(alloc, texts, asked, yes)?;
            add_block(alloc, texts, asked, no)
        }
        StmtNode::For(_, _, _, body) => add_block(alloc, texts, asked, body),
        StmtNode::Set(_, _) | StmtNode::Put(_, _, _) | StmtNode::Del(_) => Ok(()),
    }
}

/// Adds those of a block.
#[cycle(statements)]
fn add_block(
    alloc: Global,
    texts: &mut Sequence<Name>,
    asked: Asked,
    block: &Block,
) -> Result<(), AllocError> {
    let statements: &Vec<Stmt> = &block.statements;
    add_statements(alloc, texts, asked, statements.as_slice())
}

/// Adds those of statements.
#[cycle(statements)]
fn add_statements(
    alloc: Global,
    texts: &mut Sequence<Name>,
    asked: Asked,
    statements: &[Stmt],
) -> Result<(), AllocError> {
    match statements {
        [] => Ok(()),
        [first, rest @ ..] => {
            add_statement(alloc, texts, asked, first)?;
            add_statements(alloc, texts, asked, rest)
        }
    }
}

/// The texts that are asked for, of the runs of a program, as far as its spelling says them, but for numbers and for the keys over which they give up.
fn texts_of(alloc: Global, asked: Asked, program: &Program) -> Result<Sequence<Name>, AllocError> {
    let mut texts = Sequence::new(alloc);
    add_statements(alloc, &mut texts, asked, program.statements())?;
    if asked == Asked::Reason {
        for cause in CAUSES {
            add_name(alloc, &mut texts, cause, true)?;
        }
    }
    Ok(texts)
}

/// Whether a text may be that of a name.
fn may_be(name: &Name, text: &str) -> bool {
    let known = name.text.as_str();
    if name.is_whole {
        known == text
    } else {
        text.starts_with(known)
    }
}

/// Whether it may be that of one of these.
fn may_be_among(names: &[Name], text: &str) -> bool {
    names.iter().any(|name| may_be(name, text))
}

/// Whether it may be a key that is written.
fn may_be_written(all: &[Written], text: &str) -> bool {
    all.iter().any(|written| may_be(&written.key, text))
}

/// Whether a run of a program may give up over a key that is this text: one that it looks up or writes.
fn may_give_up(alloc: Global, program: &Program, text: &str) -> Result<bool, AllocError> {
    let names = keys_looked_up(alloc, program)?;
    let all = keys_written(alloc, program)?;
    Ok(may_be_among(names.as_slice(), text) || may_be_written(all.as_slice(), text))
}

/// Whether a run of a program may come to a text that is asked for, where these are those that its spelling says. Of outputs in vain, where there is none of
/// them, other lines tell.
fn may_come_to(
    alloc: Global,
    asked: Asked,
    program: &Program,
    texts: &[Name],
    text: &str,
) -> Result<bool, AllocError> {
    if may_be_among(texts, text) {
        return Ok(true);
    }
    match asked {
        Asked::Reason => may_give_up(alloc, program, text),
        Asked::Output => Ok(texts.is_empty() || text.parse::<i64>().is_ok()),
    }
}

/// The program of the runner whose number the digits are, if there is one.
fn program_of<'a>(programs: &'a [Program], digits: &str) -> Option<&'a Program> {
    let Ok(number) = digits.parse::<u64>() else {
        return None;
    };
    let index = number.saturating_sub(1);
    if number == 0 || index >= programs.len() as u64 {
        return None;
    }
    Some(&programs[index as usize])
}

/// Which text of a run is asked for by a key, and the digits of the runner's number; nothing by another key.
fn asked_by(key: &Name) -> Option<(Asked, &str)> {
    if !key.is_whole {
        return None;
    }
    let key = key.text.as_str();
    if let Some(digits) = key.strip_prefix(REASON_KEY) {
        return Some((Asked::Reason, digits));
    }
    let rest = key.strip_prefix(OUTPUT_KEY)?;
    let (digits, _) = rest.split_once('/')?;
    Some((Asked::Output, digits))
}

/// What is said of the nearest text to which runs come: of a computed one how it begins.
fn nearest_words(alloc: Global, near: NearText<'_>) -> Said {
    if near.is_whole {
        return near_words(alloc, near.text);
    }
    let front = shown_text(alloc, near.text)?;
    format!(in alloc; "; the nearest is computed, and begins with {front}")
}

/// The line of a final that compares a key with a text to which no run comes, and which one is nearest.
fn text_line(alloc: Global, who: &str, compared: &Compared, near: NearText<'_>) -> Said {
    let key = shown_text(alloc, compared.key.text.as_str())?;
    let text = shown_text(alloc, compared.text.as_str())?;
    let near = nearest_words(alloc, near)?;
    format!(in alloc; "{who} asks whether the key {key} is {text}, which no run comes to{near}")
}

/// Says of the final at a place among rules that no run of a program comes to the text with which it compares one.
fn tell_text<O: Audience>(
    alloc: Global,
    answers: &[RuleAnswer],
    place: usize,
    asked: Asked,
    program: &Program,
    compared: &Compared,
    audience: &mut O,
) -> Result<(), AllocError> {
    let text = compared.text.as_str();
    let texts = texts_of(alloc, asked, program)?;
    if may_come_to(alloc, asked, program, texts.as_slice(), text)? {
        return Ok(());
    }
    let near = nearest_name(alloc, texts.as_slice(), text)?;
    let who = rule_word(alloc, answers, place)?;
    let line = text_line(alloc, who.as_str(), compared, near)?;
    audience.doubt(line.as_str());
    Ok(())
}

/// The same, where it compares a text of a run, which is not empty.
fn tell_compared<O: Audience>(
    alloc: Global,
    answers: &[RuleAnswer],
    place: usize,
    programs: &[Program],
    compared: &Compared,
    audience: &mut O,
) -> Result<(), AllocError> {
    let Some((asked, digits)) = asked_by(&compared.key) else {
        return Ok(());
    };
    match program_of(programs, digits) {
        Some(program) if !compared.text.as_str().is_empty() => {
            tell_text(alloc, answers, place, asked, program, compared, audience)
        }
        _ => Ok(()),
    }
}

/// Says of finals which texts they compare with one of a runner to which no run of its program comes. The runners have these programs.
pub(crate) fn tell_texts<O: Audience>(
    alloc: Global,
    answers: &[RuleAnswer],
    programs: &[Program],
    audience: &mut O,
) -> Result<(), AllocError> {
    for (place, a) in answers.iter().enumerate() {
        if a.rule.when == When::Last {
            let all = values_compared(alloc, &a.rule.program)?;
            for compared in all.as_slice() {
                tell_compared(alloc, answers, place, programs, compared, audience)?;
            }
        }
    }
    Ok(())
}

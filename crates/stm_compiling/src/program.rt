//! The line of a rule of a source, or of a program with its arguments, as JSON.
ghost use Rattle.std.specs.Prelude.{◌≡◌, ◌≤◌, ◌+◌, ◌++◌, codes, drop, if◌then◌else◌, length, map, IfOk, OnOk, option_copied, slice_get, string_bytes};
ghost use Rattle.json.specs.Print.{quoted};
ghost use Rattle.stm_program_source.specs.Texts.{joined, separated};
ghost use Rattle.stm_source.specs.Sources.{scenario_in};
ghost use Rattle.stm_terms.specs.Outcome.{Returns, bad};
ghost use Rattle.stm_terms.specs.declared.faults.SourceCause.TheVariants as cause;
ghost use Rattle.stm_compiling.specs.Programs as spec;

use crate::line::program_line;
use std::alloc::{AllocError, Global};
use stm_explain::Said;
use stm_program_source::push_quoted;
use stm_source::{Kind, Rule, Scenario, SourceCause, SourceError, kinds_wanted, read_source};
use stm_terms::fault;
use stm_texts::WorldEvent;
use stm_tokens::{TokenKind, number_length, number_of, tokens_of};

/// Behind this word each argument is a text.
const MARK: &str = "--text";

/// How many bytes of the line that starts a program stand before its name.
const BEFORE_NAME: usize = 6;

/// Whether digits are a number as a source has it, from one to another.
fn is_number_in(least: u64, most: u64, digits: &[u8]) -> bool
    ensures { result ≡ spec.is_number_in least most digits.now }
{
    let number = number_of(digits);
    let is_one = number_length(digits) == digits.len();
    !digits.is_empty() && is_one && least <= number && number <= most
}

/// Whether a word is a whole number of 64 bits, by its spelling.
fn is_whole(word: &[u8]) -> bool
    ensures { result ≡ spec.is_whole word.now }
{
    match word {
        [] => false,
        [b'-', digits @ ..] => is_number_in(1, 9223372036854775808, digits),
        _ => is_number_in(0, 9223372036854775807, word),
    }
}

/// A word as a text of a source.
fn quoted_word(alloc: Global, word: &str) -> Said
    ensures { IfOk result (λ token. string_bytes token ≡ quoted word.now) }
{
    let mut token = String::new(alloc);
    push_quoted(alloc, &mut token, word)?;
    Ok(token)
}

/// A word as a source has it: a number where it is spelled as one, else a text.
fn argument(alloc: Global, word: &str) -> Said
    ensures { IfOk result (λ token. string_bytes token ≡ spec.argument word.now) }
{
    if is_whole(word.as_bytes()) {
        String::from_str(alloc, word)
    } else {
        quoted_word(alloc, word)
    }
}

/// How many words stand before the first `--text`.
fn before_mark(words: &[String]) -> usize
    ensures is { result ≡ spec.before_mark (map string_bytes words.now) }
    ensures within { result ≤ length words.now }
{
    for (index, word) in words.iter().enumerate() {
        if word.as_str() == MARK {
            return index;
        }
    }
    words.len()
}

/// A word as a source has it, where a text or a number is wanted.
fn argument_of(alloc: Global, kind: Option<Kind>, word: &str) -> Said
    ensures { IfOk result (λ token. string_bytes token ≡ spec.argument_of kind word.now) }
{
    match kind {
        Some(Kind::Text) => quoted_word(alloc, word),
        Some(Kind::Number) | Some(Kind::Either) | None => argument(alloc, word),
    }
}

/// What is wanted in a place, where it is known.
fn kind_at(kinds: &[Kind], place: usize) -> Option<Kind>
    ensures { result ≡ slice_get kinds.now place }
{
    if place < kinds.len() {
        Some(kinds[place])
    } else {
        None
    }
}

/// Adds words, each a text where it has to be one, else a number where it is spelled as one, else a text.
fn push_arguments(
    alloc: Global,
    tokens: &mut Vec<String>,
    kinds: &[Kind],
    words: &[String],
) -> Result<(), AllocError>
    ensures { OnOk result (map string_bytes tokens.new.items ≡ map string_bytes tokens.old.items ++ spec.arguments_from kinds.now 0 (map string_bytes words.now)) }
{
    for (place, word) in words.iter().enumerate() {
        let token = argument_of(alloc, kind_at(kinds, place), word.as_str())?;
        tokens.push(token)?;
    }
    Ok(())
}

/// Adds words, each a text.
fn push_texts(alloc: Global, tokens: &mut Vec<String>, words: &[String]) -> Result<(), AllocError>
    ensures { OnOk result (map string_bytes tokens.new.items ≡ map string_bytes tokens.old.items ++ map quoted (map string_bytes words.now)) }
{
    for word in words {
        let token = quoted_word(alloc, word.as_str())?;
        tokens.push(token)?;
    }
    Ok(())
}

/// The words behind a mark, which has a place among them, or is behind all of them.
fn behind_mark(words: &[String], mark: usize) -> &[String]
    ensures { result.now ≡ drop (mark + 1) words.now }
{
    if mark < words.len() {
        &words[mark + 1..]
    } else {
        &[]
    }
}

/// The arguments that words are, as a source has them.
#[tactic(auto, using(crate::proofs::Arguments::marked))]
fn arguments(alloc: Global, kinds: &[Kind], words: &[String]) -> Result<Vec<String>, AllocError>
    ensures { IfOk result (λ tokens. map string_bytes tokens.items ≡ spec.arguments kinds.now (map string_bytes words.now)) }
{
    let mark = before_mark(words);
    let mut tokens = Vec::new(alloc);
    push_arguments(alloc, &mut tokens, kinds, &words[..mark])?;
    push_texts(alloc, &mut tokens, behind_mark(words, mark))?;
    Ok(tokens)
}

/// Adds texts, each after a comma.
fn push_more(out: &mut String, texts: &[String]) -> Result<(), AllocError>
    ensures { OnOk result (string_bytes out.new ≡ string_bytes out.old ++ joined (map (λ u. codes ", " ++ u) (map string_bytes texts.now))) }
{
    for text in texts {
        out.push_str(", ")?;
        out.push_str(text.as_str())?;
    }
    Ok(())
}

/// Adds texts, with a comma between each two.
fn push_separated(out: &mut String, texts: &[String]) -> Result<(), AllocError>
    ensures { OnOk result (string_bytes out.new ≡ string_bytes out.old ++ separated (codes ", ") (map string_bytes texts.now)) }
{
    match texts.split_first() {
        Some((first, rest)) => {
            out.push_str(first.as_str())?;
            push_more(out, rest)
        }
        None => Ok(()),
    }
}

/// The line that starts a program, whose arguments have to be of these kinds.
fn start_line(alloc: Global, kinds: &[Kind], name: &str, words: &[String]) -> Said
    ensures { IfOk result (λ line. string_bytes line ≡ spec.start_line kinds.now name.now (map string_bytes words.now)) }
{
    let tokens = arguments(alloc, kinds, words)?;
    let mut line = String::from_str(alloc, "start ")?;
    line.push_str(name)?;
    line.push('(')?;
    push_separated(&mut line, tokens.as_slice())?;
    line.push_str(")\n")?;
    Ok(line)
}

/// The end of a source's last line, where it has none.
fn end_of(source: &[u8]) -> &'static str
    ensures is { result.now ≡ spec.end_of source.now }
    ensures short { length result.now ≤ 1 }
{
    match source.last() {
        None | Some(b'\n') => "",
        Some(_) => "\n",
    }
}

/// The byte at which the line behind a source begins.
pub(crate) fn start_at(source: &[u8]) -> usize
    ensures is { result ≡ spec.start_at source.now }
    ensures within { result ≤ length source.now + 1 }
{
    source.len() + end_of(source).len()
}

/// A source with one more line behind it, which starts a program.
pub(crate) fn started(
    alloc: Global,
    source: &[u8],
    name: &str,
    words: &[String],
) -> Result<Vec<u8>, AllocError>
    ensures { IfOk result (λ text. text.items ≡ spec.started source.now name.now (map string_bytes words.now)) }
{
    let kinds = kinds_wanted(alloc, source, name)?;
    let line = start_line(alloc, kinds.as_slice(), name, words)?;
    let mut text = Vec::new(alloc);
    text.extend_from_slice(source)?;
    text.extend_from_slice(end_of(source).as_bytes())?;
    text.extend_from_slice(line.as_str().as_bytes())?;
    Ok(text)
}

/// Whether a word is a name, as sources have them.
fn is_name(alloc: Global, word: &str) -> Result<bool, AllocError>
    ensures { IfOk result (λ is. is ≡ spec.is_name word.now) }
{
    let tokens = tokens_of(alloc, word.as_bytes())?;
    let is = match tokens.as_slice() {
        [token, _] => matches!(token.kind, TokenKind::Name(_)),
        _ => false,
    };
    Ok(is)
}

/// The line of the program that an event starts, which stands at a place of its source.
fn line_of_start(
    alloc: Global,
    at: usize,
    event: Option<&WorldEvent>,
) -> Result<String, SourceError>
    ensures { Returns string_bytes result (spec.line_of_start at (option_copied event.entry)) }
{
    match event {
        Some(WorldEvent::Start { program, .. }) => Ok(program_line(alloc, program)?),
        _ => Err(fault(at, SourceCause::Syntax)),
    }
}

/// The scenario of a text of which the line from a byte on starts a program, or the first fault of that.
fn started_scenario(
    alloc: Global,
    at: usize,
    name: &str,
    text: &[u8],
) -> Result<Scenario, SourceError>
    requires { at + 6 ≤ usize.MAX }
    ensures { Returns (λ s. s) result (if spec.is_name name.now then scenario_in text.now else bad (at + 6) cause.Name) }
{
    if is_name(alloc, name)? {
        read_source(alloc, text)
    } else {
        Err(fault(at + BEFORE_NAME, SourceCause::Name))
    }
}

/// The line of the program that the line of a text from a byte on starts, the last one.
fn line_behind(alloc: Global, at: usize, name: &str, text: &[u8]) -> Result<String, SourceError>
    requires { at + 6 ≤ usize.MAX }
    ensures { Returns string_bytes result (spec.line_behind at name.now text.now) }
{
    let scenario = started_scenario(alloc, at, name, text)?;
    line_of_start(alloc, at, scenario.events.as_slice().last())
}

/// The rule of a name.
fn rule_named<'a>(rules: &'a [Rule], name: &str) -> Option<&'a Rule>
    ensures { option_copied result ≡ spec.rule_named name.now rules.now }
{
    rules.iter().find(|rule| rule.name.as_str() == name)
}

/// The line of a rule, which takes no arguments. In the last line of a text, which begins at a byte, it is named.
fn line_of_rule(
    alloc: Global,
    at: usize,
    rule: &Rule,
    words: &[String],
) -> Result<String, SourceError>
    requires { at + 6 ≤ usize.MAX }
    ensures { Returns string_bytes result (spec.line_of_rule at rule.now (map string_bytes words.now)) }
{
    let arguments = arguments(alloc, &[], words)?;
    if arguments.is_empty() {
        Ok(program_line(alloc, &rule.program)?)
    } else {
        Err(fault(at + BEFORE_NAME, SourceCause::Arguments))
    }
}

/// The line of the rule of a name, or else of the program that the line of a text from a byte on starts, the last one.
pub(crate) fn line_named(
    alloc: Global,
    at: usize,
    rules: &[Rule],
    name: &str,
    words: &[String],
    text: &[u8],
) -> Result<String, SourceError>
    requires { at + 6 ≤ usize.MAX }
    ensures { Returns string_bytes result (spec.line_named at rules.now name.now (map string_bytes words.now) text.now) }
{
    match rule_named(rules, name) {
        Some(rule) => line_of_rule(alloc, at, rule, words),
        None => line_behind(alloc, at, name, text),
    }
}

//! The command `compile` over devices, and sources that other commands read.
ghost use Rattle.std.specs.Prelude.{◌≡◌, ◌≤◌, ◌+◌, false, length, map, option_map, string_bytes};
ghost use Rattle.stm_devices.specs.declared.transfer.TheConstants.{MOST_READ};
ghost use Rattle.stm_compiling.specs.Command.{Answers, Compiles, Ends, Gives, HasBytes, Prints, PrintsAlone, Says, Tells};
ghost use Rattle.stm_compiling.specs.Parts.{printed_by, program_printed, scenario_printed, text_by};
ghost use Rattle.stm_compiling.specs.Programs.{line_named, program_line_in, start_at, started, text_read};
ghost use Rattle.stm_compiling.specs.Wholes.{compiled_in, rules_in};

use crate::explaining::explanation_under;
use crate::fault::{CompileFault, report, say, wrong_line};
use crate::notes::notes_of;
use crate::part::{Part, Printed};
use crate::program;
use crate::whole::{Compiled, compiled_source, rules_in};
use std::alloc::{AllocError, Global};
use stm_devices::{ReadFault, Sink, Source, read_all, write_all};
use stm_explain::Message;
use stm_history::Text;
use stm_source::{BadSource, Rule, SourceError};

/// What is said of a bad source: its first fault, and the explanation after it, where the source has a name.
fn said_of(
    alloc: Global,
    name: Option<&str>,
    source: &[u8],
    bad: BadSource,
) -> Result<Text, AllocError>
    ensures { Says (option_map (λ n. n.now) name.entry) source.now bad result }
{
    let mut said = wrong_line(alloc, source, bad)?;
    let more = explanation_under(alloc, name, source, bad);
    said.push_str(more.as_str())?;
    Ok(Text::new(said))
}

/// Why there is no answer, where a text was not read.
fn told(alloc: Global, name: Option<&str>, source: &[u8], error: SourceError) -> CompileFault
    ensures { Tells (option_map (λ n. n.now) name.entry) source.now error result }
{
    match error {
        SourceError::OutOfMemory => CompileFault::OutOfMemory,
        SourceError::Bad(bad) => match said_of(alloc, name, source, bad) {
            Ok(said) => CompileFault::Bad(said),
            Err(_) => CompileFault::OutOfMemory,
        },
    }
}

/// A source that is compiled, or why it is not.
fn compiled_of(alloc: Global, name: Option<&str>, source: &[u8]) -> Result<Compiled, CompileFault>
    ensures { Answers (option_map (λ n. n.now) name.entry) source.now (compiled_in source.now) result }
{
    match compiled_source(alloc, source) {
        Ok(compiled) => Ok(compiled),
        Err(error) => Err(told(alloc, name, source, error)),
    }
}

/// The line of the rule or program of a name, which the line of a text from a byte on starts, the last one, or why there is none.
fn named_of(
    alloc: Global,
    name: Option<&str>,
    at: usize,
    rules: &[Rule],
    program: &str,
    words: &[String],
    text: &[u8],
) -> Result<Text, CompileFault>
    requires { at + 6 ≤ usize.MAX }
    ensures { Answers (option_map (λ n. n.now) name.entry) text.now
        (line_named at rules.now program.now (map string_bytes words.now) text.now) result }
{
    match program::line_named(alloc, at, rules, program, words, text) {
        Ok(line) => Ok(Text::new(line)),
        Err(error) => Err(told(alloc, name, text, error)),
    }
}

/// The line of the rule or program of a name, of a source that has these rules and no fault itself, or why there is none.
fn behind(
    alloc: Global,
    name: Option<&str>,
    source: &[u8],
    rules: &[Rule],
    program: &str,
    words: &[String],
) -> Result<Text, CompileFault>
    ensures { Answers (option_map (λ n. n.now) name.entry) (started source.now program.now (map string_bytes words.now))
        (line_named (start_at source.now) rules.now program.now (map string_bytes words.now) (started source.now program.now (map string_bytes words.now)))
        result }
{
    match program::started(alloc, source, program, words) {
        Ok(text) => named_of(
            alloc,
            name,
            program::start_at(source),
            rules,
            program,
            words,
            text.as_slice(),
        ),
        Err(_) => Err(CompileFault::OutOfMemory),
    }
}

/// The line of the rule or program of a name, or why there is none.
#[tactic(auto, using(crate::proofs::Answering::when_read))]
fn program_of(
    alloc: Global,
    name: Option<&str>,
    source: &[u8],
    program: &str,
    words: &[String],
) -> Result<Text, CompileFault>
    ensures { Answers (option_map (λ n. n.now) name.entry)
        (text_read (rules_in source.now) source.now (started source.now program.now (map string_bytes words.now)))
        (program_line_in source.now program.now (map string_bytes words.now)) result }
{
    match rules_in(alloc, source) {
        Ok(rules) => behind(alloc, name, source, rules.as_slice(), program, words),
        Err(error) => Err(told(alloc, name, source, error)),
    }
}

/// What is printed of a scenario that a source came to.
fn printed_alone(alloc: Global, compiled: Compiled) -> Result<Printed, CompileFault>
    ensures { PrintsAlone compiled result }
{
    let Compiled { line, beside } = compiled;
    match notes_of(alloc, beside.rules.as_slice(), beside.waits.as_slice()) {
        Ok(notes) => Ok(Printed { line, notes }),
        Err(_) => Err(CompileFault::OutOfMemory),
    }
}

/// What is printed of a source as a scenario, or why there is nothing.
fn printed_scenario(
    alloc: Global,
    name: Option<&str>,
    source: &[u8],
) -> Result<Printed, CompileFault>
    ensures { Answers (option_map (λ n. n.now) name.entry) source.now (scenario_printed source.now) result }
{
    match compiled_of(alloc, name, source) {
        Ok(compiled) => printed_alone(alloc, compiled),
        Err(fault) => Err(fault),
    }
}

/// What is printed of the rule or program of a name, or why there is nothing.
fn printed_program(
    alloc: Global,
    name: Option<&str>,
    source: &[u8],
    program: &str,
    words: &[String],
) -> Result<Printed, CompileFault>
    ensures { Answers (option_map (λ n. n.now) name.entry)
        (text_read (rules_in source.now) source.now (started source.now program.now (map string_bytes words.now)))
        (program_printed source.now program.now (map string_bytes words.now)) result }
{
    match program_of(alloc, name, source, program, words) {
        Ok(line) => Ok(Printed {
            line,
            notes: Text::new(String::new(alloc)),
        }),
        Err(fault) => Err(fault),
    }
}

/// What is printed of a source's part, or why there is nothing.
fn printed_of(
    alloc: Global,
    part: Part<'_>,
    name: Option<&str>,
    source: &[u8],
) -> Result<Printed, CompileFault>
    ensures { Answers (option_map (λ n. n.now) name.entry) (text_by part.entry source.now) (printed_by part.entry source.now) result }
{
    match part {
        Part::Scenario => printed_scenario(alloc, name, source),
        Part::Program {
            name: program,
            words,
        } => printed_program(alloc, name, source, program, words),
    }
}

/// The bytes of the source that `input` has, or why there are none.
fn bytes_from<S: Source>(alloc: Global, input: &mut S) -> Result<Vec<u8>, CompileFault>
    requires { S.failed input.old ≡ false }
    ensures has { HasBytes (λ v. v.items) (S.left input.old) (S.failed input.new) result }
    ensures bounded { S.reads input.new ≤ S.reads input.old + MOST_READ }
{
    match read_all(alloc, input) {
        Ok(source) => Ok(source),
        Err(ReadFault::OutOfMemory) => Err(CompileFault::OutOfMemory),
        Err(ReadFault::Device) => Err(CompileFault::Device),
    }
}

/// What is printed of a part of the source that `input` has, or why there is nothing.
fn printed_from<S: Source>(
    alloc: Global,
    part: Part<'_>,
    name: Option<&str>,
    input: &mut S,
) -> Result<Printed, CompileFault>
    requires { S.failed input.old ≡ false }
    ensures given { Gives (printed_by part.entry) (text_by part.entry) (option_map (λ n. n.now) name.entry) (S.left input.old) (S.failed input.new) result }
    ensures bounded { S.reads input.new ≤ S.reads input.old + MOST_READ }
{
    match bytes_from(alloc, input) {
        Ok(source) => printed_of(alloc, part, name, source.as_slice()),
        Err(fault) => Err(fault),
    }
}

/// What the source that `input` has comes to, or why it is not compiled.
fn compiled_from<S: Source>(
    alloc: Global,
    name: Option<&str>,
    input: &mut S,
) -> Result<Compiled, CompileFault>
    requires { S.failed input.old ≡ false }
    ensures given { Gives compiled_in (λ source. source) (option_map (λ n. n.now) name.entry) (S.left input.old) (S.failed input.new) result }
    ensures bounded { S.reads input.new ≤ S.reads input.old + MOST_READ }
{
    match bytes_from(alloc, input) {
        Ok(source) => compiled_of(alloc, name, source.as_slice()),
        Err(fault) => Err(fault),
    }
}

/// The source that `input` has, compiled: its scenario as one line of compact JSON with its line feed, and what JSON has no place for.
///
/// Where it is not compiled, that is said on `err`, and the status is given: 2 where the source is bad, with `stmrun: bad source at LINE:COLUMN: CAUSE`,
/// its first fault, 3 where an allocation failed or `input` failed, with `stmrun: out of memory` or `stmrun: device fault`. Under a name, a line
/// `NAME:LINE:COLUMN: WORDS` explains a bad source, unless an allocation failed for it. Neither device has failed before; that `err` fails changes
/// no status. `input` is read at most 16777217 times.
pub fn compiled<S: Source, E: Sink>(
    alloc: Global,
    name: Option<&str>,
    input: &mut S,
    err: &mut E,
) -> Result<Compiled, u8>
    requires input_works { S.failed input.old ≡ false }
    requires err_works { E.failed err.old ≡ false }
    ensures compiles { Compiles compiled_in (λ source. source) (option_map (λ n. n.now) name.entry) (S.left input.old) (S.failed input.new) (E.held err.old) (E.held err.new) (E.failed err.new) result }
    ensures bounded { S.reads input.new ≤ S.reads input.old + MOST_READ }
{
    match compiled_from(alloc, name, input) {
        Ok(compiled) => Ok(compiled),
        Err(fault) => Err(report(err, &fault)),
    }
}

/// The line of a part of the source that `input` has, its scenario, or the rule or program of a name, as compact JSON with its line feed; where there
/// is none, all is as with `compiled`.
pub fn compiled_part<S: Source, E: Sink>(
    alloc: Global,
    part: Part<'_>,
    name: Option<&str>,
    input: &mut S,
    err: &mut E,
) -> Result<Printed, u8>
    requires input_works { S.failed input.old ≡ false }
    requires err_works { E.failed err.old ≡ false }
    ensures compiles { Compiles (printed_by part.entry) (text_by part.entry) (option_map (λ n. n.now) name.entry) (S.left input.old) (S.failed input.new) (E.held err.old) (E.held err.new) (E.failed err.new) result }
    ensures bounded { S.reads input.new ≤ S.reads input.old + MOST_READ }
{
    match printed_from(alloc, part, name, input) {
        Ok(printed) => Ok(printed),
        Err(fault) => Err(report(err, &fault)),
    }
}

/// Prints what a part came to, and gives the status.
fn print<W: Sink, E: Sink>(printed: &Printed, out: &mut W, err: &mut E) -> u8
    requires out_works { W.failed out.old ≡ false }
    requires err_works { E.failed err.old ≡ false }
    ensures { Prints printed.now (W.held out.old) (W.held out.new) (W.failed out.new) (E.held err.old) (E.held err.new) (E.failed err.new) result }
{
    match write_all(out, printed.line.as_str().as_bytes()) {
        Ok(()) => say(err, printed.notes.as_str(), 0),
        Err(_) => Message::Device.report(err),
    }
}

/// Prints a part of the source that `input` has: its scenario, or the rule or program of a name, as one line of compact JSON on `out`, whole or not at
/// all but for a failed `out`; and on `err`, beside a scenario, a line for each rule that it does not ask and for each runner that does not wait.
///
/// Gives the status: 0 where the line was written, 3 where `out` failed, with `stmrun: device fault` on `err`, and else that of `compiled`, which
/// says why there is no line. None of the devices has failed before. `input` is read at most 16777217 times.
pub fn compile_to<S: Source, W: Sink, E: Sink>(
    alloc: Global,
    part: Part<'_>,
    name: Option<&str>,
    input: &mut S,
    out: &mut W,
    err: &mut E,
) -> u8
    requires input_works { S.failed input.old ≡ false }
    requires out_works { W.failed out.old ≡ false }
    requires err_works { E.failed err.old ≡ false }
    ensures ends { Ends part.entry (option_map (λ n. n.now) name.entry) (record {
      input = S.left input.old;
      before = W.held out.old;
      after = W.held out.new;
      source_failed = S.failed input.new;
      sink_failed = W.failed out.new;
    }) (E.held err.old) (E.held err.new) (E.failed err.new) result }
    ensures bounded { S.reads input.new ≤ S.reads input.old + MOST_READ }
{
    match compiled_part(alloc, part, name, input, err) {
        Ok(printed) => print(&printed, out, err),
        Err(status) => status,
    }
}

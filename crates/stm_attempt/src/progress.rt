//! How far an attempt has run its program.
ghost use Rattle.std.specs.Prelude.{◌≡◌, true, List, None, Some, IfOk, IfSome, OnOk, OnErr, IsSome};
ghost use Rattle.stm_history.specs.declared.key_state.ReadAnswer.{ReadAnswer};
ghost use Rattle.stm_program.specs.Syntax.{ProgramTree};
ghost use Rattle.stm_program.specs.Writes.{latest_writes};
ghost use Rattle.stm_steps.specs.declared.run.End.TheVariants.{Done};
ghost use Rattle.stm_steps.specs.declared.run.Run.{Run as FinishedRun};
ghost use Rattle.stm_steps.specs.declared.run.Answered.TheVariants.{Ended as EndedRun};
ghost use Rattle.stm_machine.specs.State.{key_asked, started};
ghost use Rattle.stm_machine.specs.Steps.{Stands};
ghost use Rattle.stm_compile.specs.Answers.{look_up};
ghost use Rattle.stm_attempt.specs.Known.{known_of, serving, HaveDistinctKeys};
ghost use Rattle.stm_attempt.specs.Settled.{run_on, wanted, answer_for, settled};
ghost use Rattle.stm_attempt.specs.ReadyRun.{ready_run};
ghost use Rattle.stm_attempt.specs.Next.{next_at_end, next_after, next_settled, next_of};
ghost use Rattle.stm_attempt.specs.Entering.{gone_on};
ghost use Rattle.stm_attempt.specs.Wanted.{next_wanted};
ghost use Rattle.stm_attempt.specs.Progress.{FinishesAs, HasCome, HasEnded, Extends, has_begun, has_ended, run_of_progress, AreLatest, HasGiven, IsLeftAtEnd};

use crate::entering::enter;
use crate::next::Next;
use crate::ready::Ready;
use crate::serving::{fetch_revision, take_serving};
use crate::wanted::Wanted;
use std::alloc::{AllocError, Global};
use std::mem;
use stm_compile::{ReadSet, WriteBuffer};
use stm_history::{Sequence, Text};
use stm_machine::Machine;
use stm_meaning::{End, Run};
use stm_program::{Level, Program, Write};

/// How far an attempt has run its program.
#[derive(Drop)]
pub(crate) enum Progress {
    /// Not at all: it begins at the start.
    Fresh,
    /// To where this machine stands.
    Started(Machine),
    /// To its end.
    Ended(Run),
}

/// Puts this in the place of what was there, which is dropped.
#[inline(always)]
pub(crate) fn put(progress: &mut Progress, next: Progress)
    ensures { progress.new ≡ next }
{
    drop(mem::replace(progress, next));
}

/// Goes on with a machine to its run's end, or to a key that no prefetched answer serves. Each prefetched answer that
/// serves is put after the reads.
///
/// Where an allocation fails, the machine and the reads stand where they came to, from where the call can be repeated.
pub(crate) fn settle(
    machine: &mut Machine,
    prefetched: &ReadSet,
    reads: &mut ReadSet,
) -> Result<(), AllocError>
    requires { HaveDistinctKeys prefetched.now }
    ensures finishes { (program : ProgramTree) → FinishesAs program reads.old machine.old → FinishesAs program reads.new machine.new }
    ensures settles { (program : ProgramTree) → FinishesAs program reads.old machine.old
        → settled program (known_of reads.new prefetched.now) ≡ settled program (known_of reads.old prefetched.now) }
    ensures extends { Extends reads.old reads.new }
    ensures stands { OnOk result (Stands (look_up reads.new) machine.new) }
    ensures settled { OnOk result (answer_for (key_asked machine.new.focus) (serving reads.new prefetched.now) ≡ None) }
{
    'answers: loop {
        machine.run(&*reads)?;
        let taken = take_serving(prefetched, reads, machine.wanted())?;
        match taken {
            None => return Ok(()),
            Some(answer) => reads.add(answer)?,
        }
    }
}

/// The run that a machine at its end, or an ended program, holds. It takes no memory.
fn run_of(progress: Progress) -> Run
    requires { IsSome (run_of_progress progress) }
    ensures { run_of_progress progress ≡ Some result }
{
    match progress {
        Progress::Started(machine) => machine.into_run(),
        Progress::Ended(run) => run,
        Progress::Fresh => unreachable!(),
    }
}

/// The run of a machine that stands at its end is kept in the machine's place. It takes no memory.
fn end_run(progress: &mut Progress)
    requires { IsSome (run_of_progress progress.old) }
    ensures { (run : FinishedRun) → run_of_progress progress.old ≡ Some run → progress.new ≡ Progress.Ended run }
{
    let run = run_of(mem::replace(progress, Progress::Fresh));
    put(progress, Progress::Ended(run));
}

/// Takes out the run that stands there. It takes no memory.
fn take_run(progress: &mut Progress) -> Run
    requires { HasEnded progress.old }
    ensures run { progress.old ≡ Progress.Ended result }
    ensures left { progress.new ≡ Progress.Fresh }
{
    match mem::replace(progress, Progress::Fresh) {
        Progress::Ended(run) => run,
        _ => unreachable!(),
    }
}

/// A run that is done, ready to commit: with its program, what that read, and its last writes. It takes no memory.
fn ready_of(
    program: Program,
    level: Level,
    answers: ReadSet,
    writes: WriteBuffer,
    run: Run,
) -> Ready
    requires come { run_on program answers ≡ EndedRun run }
    requires done { run.end ≡ Done }
    requires writes { writes ≡ latest_writes run.writes }
    ensures { result ≡ ready_run program level answers run }
{
    Ready {
        program,
        level,
        answers,
        output: run.output,
        trace: run.trace,
        writes,
    }
}

/// A run that is done is made ready to commit. Out of memory leaves it in its place.
fn made_ready(
    alloc: Global,
    program: &Program,
    level: Level,
    reads: &ReadSet,
    progress: &mut Progress,
) -> Result<Ready, AllocError>
    requires ended { HasEnded progress.old }
    requires come { HasCome program.now reads.now progress.old }
    requires done { (run : FinishedRun) → progress.old ≡ Progress.Ended run → run.end ≡ Done }
    ensures ready { IfOk result (λ ready. (run : FinishedRun) → progress.old ≡ Progress.Ended run → ready ≡ ready_run program.now level reads.now run) }
    ensures left { OnOk result (progress.new ≡ Progress.Fresh) }
    ensures err { OnErr result (progress.new ≡ progress.old) }
{
    let Progress::Ended(run) = &*progress else {
        unreachable!();
    };
    let writes = WriteBuffer::of(alloc, run.writes.as_slice())?;
    let Ok(program) = program.clone() else {
        drop(writes);
        return Err(AllocError);
    };
    let Ok(answers) = reads.clone() else {
        drop(program);
        drop(writes);
        return Err(AllocError);
    };
    Ok(ready_of(program, level, answers, writes, take_run(progress)))
}

/// What an attempt answers at the end of its run. The run goes into the answer: where the program is run once more, it
/// begins at the start. Out of memory leaves the run in its place.
fn report_end(
    alloc: Global,
    program: &Program,
    level: Level,
    reads: &ReadSet,
    progress: &mut Progress,
) -> Result<Next, AllocError>
    requires ended { HasEnded progress.old }
    requires come { HasCome program.now reads.now progress.old }
    ensures next { IfOk result (λ next. (run : FinishedRun) → progress.old ≡ Progress.Ended run
        → next ≡ next_at_end program.now level reads.now run run.end) }
    ensures left { OnOk result (progress.new ≡ Progress.Fresh) }
    ensures err { OnErr result (progress.new ≡ progress.old) }
{
    let Progress::Ended(run) = &*progress else {
        unreachable!();
    };
    match &run.end {
        End::Done => Ok(Next::Ready(made_ready(alloc, program, level, reads, progress)?)),
        End::Aborted(_) => Ok(Next::Aborted(take_run(progress))),
        End::Faulted(_) => Ok(Next::Faulted(take_run(progress))),
    }
}

/// Whether the program has gone on from its start.
fn has_begun(progress: &Progress) -> bool
    ensures { result ≡ has_begun progress.now }
{
    match progress {
        Progress::Fresh => false,
        Progress::Started(_) => true,
        Progress::Ended(_) => true,
    }
}

/// Whether the program's run has come to its end.
fn has_ended(progress: &Progress) -> bool
    ensures { result ≡ has_ended progress.now }
{
    match progress {
        Progress::Fresh => false,
        Progress::Started(_) => false,
        Progress::Ended(_) => true,
    }
}

/// A program at its start. Out of memory is the only refusal.
fn started(alloc: Global, program: &Program) -> Result<Progress, AllocError>
    ensures { IfOk result (λ progress. progress ≡ Progress.Started (started program.now.statements)) }
{
    let machine = Machine::new(alloc, program)?;
    Ok(Progress::Started(machine))
}

/// Makes a machine for a program that has none. Out of memory is the only refusal, and leaves all as it was.
fn begin(alloc: Global, program: &Program, progress: &mut Progress) -> Result<(), AllocError>
    ensures come { (reads : List ReadAnswer) → HasCome program.now reads progress.old → HasCome program.now reads progress.new }
    ensures begun { OnOk result (has_begun progress.new ≡ true) }
{
    if has_begun(progress) {
        return Ok(());
    }
    let start = started(alloc, program)?;
    put(progress, start);
    Ok(())
}

/// Goes on to the key that is to be fetched. `None` where the run has come to its end, which is kept.
///
/// Where an allocation fails, the program stands where it came to, from where the call can be repeated.
fn come_to_fetch(
    prefetched: &ReadSet,
    reads: &mut ReadSet,
    progress: &mut Progress,
) -> Result<Option<Text>, AllocError>
    requires distinct { HaveDistinctKeys prefetched.now }
    requires begun { has_begun progress.old ≡ true }
    ensures come { (program : ProgramTree) → HasCome program reads.old progress.old → HasCome program reads.new progress.new }
    ensures settles { (program : ProgramTree) → HasCome program reads.old progress.old
        → settled program (known_of reads.new prefetched.now) ≡ settled program (known_of reads.old prefetched.now) }
    ensures extends { Extends reads.old reads.new }
    ensures reads { OnOk result ((program : ProgramTree) → HasCome program reads.old progress.old
        → reads.new ≡ settled program (known_of reads.old prefetched.now)) }
    ensures key { IfOk result (λ key. (program : ProgramTree) → HasCome program reads.old progress.old → key ≡ wanted (run_on program reads.new)) }
    ensures ended { IfOk result (λ key. key ≡ None → HasEnded progress.new) }
{
    if has_ended(progress) {
        return Ok(None);
    }
    let Progress::Started(machine) = progress else {
        unreachable!();
    };
    settle(machine, prefetched, reads)?;
    if let Some(key) = machine.wanted() {
        return Ok(Some(key.clone()?));
    }
    end_run(progress);
    Ok(None)
}

/// Goes on with a program from where it stands, after its list, to the key that is to be fetched. `None` where its run has come to its end, which is
/// kept.
///
/// Where an allocation fails, the program stands where it came to, from where the call can be repeated: it answers then
/// what it would have answered.
fn come_after_list(
    alloc: Global,
    program: &Program,
    level: Level,
    prefetched: &ReadSet,
    reads: &mut ReadSet,
    progress: &mut Progress,
) -> Result<Option<Wanted>, AllocError>
    requires distinct { HaveDistinctKeys prefetched.now }
    requires come { HasCome program.now reads.old progress.old }
    ensures come { HasCome program.now reads.new progress.new }
    ensures settles { settled program.now (known_of reads.new prefetched.now) ≡ settled program.now (known_of reads.old prefetched.now) }
    ensures extends { Extends reads.old reads.new }
    ensures reads { OnOk result (reads.new ≡ settled program.now (known_of reads.old prefetched.now)) }
    ensures next { IfOk result (λ found. IfSome found (λ w. next_wanted w ≡ next_settled program.now level (known_of reads.old prefetched.now))) }
    ensures ended { IfOk result (λ found. found ≡ None → HasEnded progress.new) }
{
    begin(alloc, program, progress)?;
    let wanted = come_to_fetch(prefetched, reads, progress)?;
    match wanted {
        Some(key) => {
            let at = fetch_revision(level, reads);
            Ok(Some(Wanted::Key(key, at)))
        }
        None => Ok(None),
    }
}

/// Goes on with a program from where it stands, with its list first, where that is due, to what is to be fetched. `None` where its run has come to
/// its end, which is kept.
///
/// Where an allocation fails, the program stands where it came to, from where the call can be repeated: it answers then
/// what it would have answered.
pub(crate) fn come_on(
    alloc: Global,
    program: &Program,
    level: Level,
    prefetched: &ReadSet,
    reads: &mut ReadSet,
    progress: &mut Progress,
) -> Result<Option<Wanted>, AllocError>
    requires distinct { HaveDistinctKeys prefetched.now }
    requires come { HasCome program.now reads.old progress.old }
    ensures come { HasCome program.now reads.new progress.new }
    ensures settles { gone_on program.now (known_of reads.new prefetched.now) ≡ gone_on program.now (known_of reads.old prefetched.now) }
    ensures extends { Extends reads.old reads.new }
    ensures reads { OnOk result (reads.new ≡ gone_on program.now (known_of reads.old prefetched.now)) }
    ensures next { IfOk result (λ found. IfSome found (λ w. next_wanted w ≡ next_of program.now level (known_of reads.old prefetched.now))) }
    ensures ended { IfOk result (λ found. found ≡ None → HasEnded progress.new) }
    ensures at_end { IfOk result (λ found. found ≡ None →
        next_of program.now level (known_of reads.old prefetched.now) ≡ next_after program.now level reads.new (run_on program.now reads.new)) }
{
    let due = enter(alloc, program, prefetched, reads, progress)?;
    if due {
        let keys = program.list(alloc)?;
        return Ok(Some(Wanted::List(keys)));
    }
    let found = come_after_list(alloc, program, level, prefetched, reads, progress)?;
    Ok(found)
}

/// Goes on with a program from where it stands, to what is to be fetched, or to its end.
///
/// Where an allocation fails, the program stands where it came to, from where the call can be repeated: it answers then
/// what it would have answered.
pub(crate) fn go_on(
    alloc: Global,
    program: &Program,
    level: Level,
    prefetched: &ReadSet,
    reads: &mut ReadSet,
    progress: &mut Progress,
) -> Result<Next, AllocError>
    requires distinct { HaveDistinctKeys prefetched.now }
    requires come { HasCome program.now reads.old progress.old }
    ensures come { HasCome program.now reads.new progress.new }
    ensures settles { gone_on program.now (known_of reads.new prefetched.now) ≡ gone_on program.now (known_of reads.old prefetched.now) }
    ensures extends { Extends reads.old reads.new }
    ensures reads { OnOk result (reads.new ≡ gone_on program.now (known_of reads.old prefetched.now)) }
    ensures next { IfOk result (λ next. next ≡ next_of program.now level (known_of reads.old prefetched.now)) }
{
    match come_on(alloc, program, level, prefetched, reads, progress)? {
        Some(wanted) => Ok(wanted.into_next()),
        None => {
            let next = report_end(alloc, program, level, reads, progress)?;
            Ok(next)
        }
    }
}

/// The last writes of a run as copies; `None` where they are its writes. Out of memory is the only refusal.
fn latest_if_others(alloc: Global, run: &Run) -> Result<Option<WriteBuffer>, AllocError>
    ensures { IfOk result (AreLatest run.now.writes) }
{
    let writes = run.writes.as_slice();
    if WriteBuffer::are_latest(writes) {
        return Ok(None);
    }
    Ok(Some(WriteBuffer::of(alloc, writes)?))
}

/// The last writes of a run: these, or, where there are no others, its writes. It takes no memory.
fn latest_from(latest: Option<WriteBuffer>, writes: Sequence<Write>) -> WriteBuffer
    requires { AreLatest writes latest }
    ensures { result ≡ latest_writes writes }
{
    match latest {
        Some(latest) => latest,
        None => WriteBuffer::of_latest(writes),
    }
}

/// A run that is done, ready to commit: with its program, what that read, and its last writes, which are its writes where there are no others. It
/// takes no memory.
fn ready_from(
    program: Program,
    level: Level,
    answers: ReadSet,
    latest: Option<WriteBuffer>,
    run: Run,
) -> Ready
    requires come { run_on program answers ≡ EndedRun run }
    requires done { run.end ≡ Done }
    requires latest { AreLatest run.writes latest }
    ensures { result ≡ ready_run program level answers run }
{
    let Run {
        end: _,
        output,
        trace,
        writes,
        reads: _,
    } = run;
    let writes = latest_from(latest, writes);
    Ready {
        program,
        level,
        answers,
        output,
        trace,
        writes,
    }
}

/// Takes out the program that an attempt keeps.
fn take_kept(kept: &mut Option<Program>) -> Program
    requires { IsSome kept.old }
    ensures taken { kept.old ≡ Some result }
    ensures left { kept.new ≡ None }
{
    match kept.take() {
        Some(program) => program,
        None => unreachable!(),
    }
}

/// A run that is done goes into what is ready to commit, with the program that is kept and what that read. Out of memory leaves all in its place.
fn give_ready(
    alloc: Global,
    program: &Program,
    level: Level,
    kept: &mut Option<Program>,
    reads: &mut ReadSet,
    progress: &mut Progress,
) -> Result<Ready, AllocError>
    requires kept { kept.old ≡ Some program.now }
    requires ended { HasEnded progress.old }
    requires come { HasCome program.now reads.old progress.old }
    requires done { (run : FinishedRun) → progress.old ≡ Progress.Ended run → run.end ≡ Done }
    ensures ready { IfOk result (λ ready. (run : FinishedRun) → progress.old ≡ Progress.Ended run → ready ≡ ready_run program.now level reads.old run) }
    ensures left { OnOk result (HasGiven kept.new reads.new progress.new) }
    ensures kept_err { OnErr result (kept.new ≡ kept.old) }
    ensures reads_err { OnErr result (reads.new ≡ reads.old) }
    ensures err { OnErr result (progress.new ≡ progress.old) }
{
    let Progress::Ended(run) = &*progress else {
        unreachable!();
    };
    let latest = latest_if_others(alloc, run)?;
    let own = take_kept(kept);
    let answers = mem::replace(reads, ReadSet::new(alloc));
    Ok(ready_from(own, level, answers, latest, take_run(progress)))
}

/// What an attempt answers at the end of its run, for who commits it then: a run that is done goes into the answer, with the program that is kept and
/// what that read. Out of memory leaves all in its place.
pub(crate) fn give_end(
    alloc: Global,
    program: &Program,
    level: Level,
    kept: &mut Option<Program>,
    reads: &mut ReadSet,
    progress: &mut Progress,
) -> Result<Next, AllocError>
    requires kept { kept.old ≡ Some program.now }
    requires ended { HasEnded progress.old }
    requires come { HasCome program.now reads.old progress.old }
    ensures next { IfOk result (λ next. (run : FinishedRun) → progress.old ≡ Progress.Ended run
        → next ≡ next_at_end program.now level reads.old run run.end) }
    ensures left { IfOk result (λ next. IsLeftAtEnd next kept.old reads.old kept.new reads.new progress.new) }
    ensures kept_err { OnErr result (kept.new ≡ kept.old) }
    ensures reads_err { OnErr result (reads.new ≡ reads.old) }
    ensures err { OnErr result (progress.new ≡ progress.old) }
{
    let Progress::Ended(run) = &*progress else {
        unreachable!();
    };
    match &run.end {
        End::Done => {
            let ready = give_ready(alloc, program, level, kept, reads, progress)?;
            Ok(Next::Ready(ready))
        }
        End::Aborted(_) => report_end(alloc, program, level, reads, progress),
        End::Faulted(_) => report_end(alloc, program, level, reads, progress),
    }
}

//! A run in progress.
//!
//! What each read and each write of a run goes through is inlined, so that its values are not copied from call to call.
ghost use Rattle.std.specs.Prelude.{◌≡◌, ◌≤◌, None, IfOk, OnOk, OnErr};
ghost use Rattle.stm_history.specs.declared.revisions.TheConstants.{HIGHEST_NUMBER};
ghost use Rattle.stm_steps.specs.Session.{fresh, variable_in, with_variable, with_output, with_write, with_item, with_read};
ghost use Rattle.stm_steps.specs.Outcome.{begin_turn, given, found_or_wanted};
ghost use Rattle.stm_steps.specs.declared.trace_item.TraceItem.TheVariants.{Get};
ghost use Rattle.stm_steps.specs.Steps.{get_key, rev_key, run_of};

use crate::fault::Fault;
use crate::key_set::KeySet;
use crate::lookup::Lookup;
use crate::run::{End, Run};
use crate::trace_item::TraceItem;
use crate::value::Value;
use crate::variables::Variables;
use crate::write_log::WriteLog;
use std::alloc::{AllocError, Global};
use std::marker::Model;
use stm_history::{Sequence, Text};
use stm_program::{Variable, Write};

/// The turns of all loops of one run, at most.
pub const TURN_LIMIT: u64 = 10_000;

/// The state of a run in progress: its variables, the turns of its loops, what it emitted, saw and wrote, and the
/// keys that it looked up.
///
/// A run is a sequence of these steps over a new session: those below, and what is computed of values between
/// them. Where an allocation fails, a step leaves the session as it was, so that it can be repeated.
#[derive(Debug)]
pub struct Session {
    variables: Variables,
    turns: u64,
    output: Sequence<Value>,
    trace: Vec<TraceItem>,
    writes: WriteLog,
    reads: KeySet,
}

impl Drop for Session {
    fn drop(self) {
        let Session {
            variables: _,
            turns: _,
            output: _,
            trace: _,
            writes: _,
            reads: _,
        } = self;
    }
}

impl Model for Session {
    ghost use Rattle.stm_steps.specs.Session.{Session as Progress};

    ghost Value = { Progress };

    ghost view = { λ s. record {
      variables = s.variables;
      turns = s.turns;
      output = s.output;
      trace = s.trace.items;
      writes = s.writes;
      reads = s.reads;
    } };
}

/// What a `get` of a key that gave this value puts into the trace.
#[inline(always)]
fn get_item(key: &Text, value: &Text) -> Result<TraceItem, AllocError>
    ensures { IfOk result (λ item. item ≡ Get key.now value.now) }
{
    let key = key.clone()?;
    let value = value.clone()?;
    Ok(TraceItem::Get { key, value })
}

impl Session {
    /// What a run begins with: each variable is the number 0.
    #[tactic(auto, unfolding(crate::specs::Session::fresh))]
    pub fn new(alloc: Global) -> Result<Session, AllocError>
        ensures { IfOk result (λ s. s ≡ fresh) }
    {
        let variables = Variables::new(alloc)?;
        Ok(Session {
            variables,
            turns: 0,
            output: Sequence::new(alloc),
            trace: Vec::new(alloc),
            writes: WriteLog::new(alloc),
            reads: KeySet::new(alloc),
        })
    }

    /// The value of a variable.
    pub fn variable(&self, variable: Variable) -> &Value
        ensures { result.now ≡ variable_in self.now variable }
    {
        self.variables.get(variable)
    }

    /// Gives a variable a value.
    pub fn set(&mut self, variable: Variable, value: Value)
        ensures { self.new ≡ with_variable variable value self.old }
    {
        self.variables.set(variable, value);
    }

    /// Emits a value. An allocation failure leaves the session as it was.
    pub fn emit(&mut self, value: Value) -> Result<(), AllocError>
        ensures ok { OnOk result (self.new ≡ with_output value self.old) }
        ensures err { OnErr result (self.new ≡ self.old) }
    {
        self.output.push(value)?;
        Ok(())
    }

    /// Records a write. An allocation failure leaves the session as it was.
    #[inline(always)]
    pub fn write(&mut self, write: Write) -> Result<(), AllocError>
        ensures ok { OnOk result (self.new ≡ with_write write self.old) }
        ensures err { OnErr result (self.new ≡ self.old) }
    {
        self.writes.push(write)?;
        Ok(())
    }

    /// Counts a turn, and then gives the variable of its loop the turn's number.
    ///
    /// `TurnLimit` is answered for turn 10001 of the run, and the session is then as it was. It allocates nothing.
    #[tactic(auto, unfolding(crate::specs::Outcome::begin_turn))]
    pub fn begin_turn(&mut self, variable: Variable, turn: u64) -> Result<(), Fault>
        requires { turn ≤ HIGHEST_NUMBER }
        ensures { begin_turn variable turn self.old ≡ given result self.new }
    {
        if self.turns >= TURN_LIMIT {
            return Err(Fault::TurnLimit);
        }
        self.turns += 1;
        self.set(variable, Value::Number(turn as i64));
        Ok(())
    }

    /// Records what a `get` of a written key gave.
    fn keep_item(&mut self, item: TraceItem) -> Result<(), AllocError>
        ensures ok { OnOk result (self.new ≡ with_item item self.old) }
        ensures err { OnErr result (self.new ≡ self.old) }
    {
        self.trace.push(item)?;
        Ok(())
    }

    /// Records a key that was looked up, and what it gave.
    #[inline(always)]
    fn keep_read(&mut self, key: &Text, item: TraceItem) -> Result<(), AllocError>
        ensures ok { OnOk result (self.new ≡ with_item item (with_read key.now self.old)) }
        ensures err { OnErr result (self.new ≡ self.old) }
    {
        self.trace.reserve(1)?;
        self.reads.insert(key)?;
        self.trace.push_reserved(item);
        Ok(())
    }

    /// What a `get` of a key gives: the last write of the key, and the look-up where there is none.
    ///
    /// `None` where the look-up knows nothing of the key. The session is then as it was, and so it is where an
    /// allocation fails.
    #[tactic(auto, unfolding(crate::specs::Steps::get_key))]
    pub fn get<L: Lookup>(
        &mut self,
        alloc: Global,
        lookup: &L,
        key: &Text,
    ) -> Result<Option<Value>, AllocError>
        ensures ok { IfOk result (λ found. get_key (L.answers lookup.now) key.now self.old ≡ found_or_wanted key.now found self.new) }
        ensures unknown { IfOk result (λ found. found ≡ None → self.new ≡ self.old) }
        ensures err { OnErr result (self.new ≡ self.old) }
    {
        if let Some(write) = self.writes.last(key.as_str()) {
            let value = Text::copy_of(alloc, write.value())?;
            self.keep_item(get_item(key, &value)?)?;
            return Ok(Some(Value::Text(value)));
        }
        let Some(value) = lookup.value(key.as_str()) else {
            return Ok(None);
        };
        let value = Text::copy_of(alloc, value)?;
        self.keep_read(key, get_item(key, &value)?)?;
        Ok(Some(Value::Text(value)))
    }

    /// What a `rev` of a key gives: the look-up's revision, whatever was written.
    ///
    /// `None` where the look-up knows nothing of the key. The session is then as it was, and so it is where an
    /// allocation fails.
    #[tactic(auto, unfolding(crate::specs::Steps::rev_key))]
    pub fn rev<L: Lookup>(&mut self, lookup: &L, key: &Text) -> Result<Option<Value>, AllocError>
        ensures ok { IfOk result (λ found. rev_key (L.answers lookup.now) key.now self.old ≡ found_or_wanted key.now found self.new) }
        ensures unknown { IfOk result (λ found. found ≡ None → self.new ≡ self.old) }
        ensures err { OnErr result (self.new ≡ self.old) }
    {
        let Some(mod_rev) = lookup.mod_rev(key.as_str()) else {
            return Ok(None);
        };
        let seen = key.clone()?;
        self.keep_read(key, TraceItem::Rev { key: seen, mod_rev })?;
        Ok(Some(Value::Number(mod_rev as i64)))
    }

    /// The run that came to this end. It allocates nothing.
    pub fn into_run(self, end: End) -> Run
        ensures { result ≡ run_of end self }
    {
        let Session {
            variables: _,
            turns: _,
            output,
            trace,
            writes,
            reads,
        } = self;
        Run {
            end,
            output,
            trace: Sequence::of(trace),
            writes: writes.into_sequence(),
            reads,
        }
    }
    /// What each `get` and `rev` gave, in order. It allocates nothing.
    pub fn into_trace(self) -> Sequence<TraceItem>
        ensures { result ≡ self.trace }
    {
        let Session {
            variables: _,
            turns: _,
            output: _,
            trace,
            writes: _,
            reads: _,
        } = self;
        Sequence::of(trace)
    }
}

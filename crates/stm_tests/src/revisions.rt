//! The revisions of a key store and their events, by calls that a store does not pass on. What is expected comes from the rules of revisions, and
//! never from a run.
ghost use Rattle.std.specs.Prelude.{[], ◌∷◌};
ghost use Rattle.stm_keys.specs.Keys.{DeletePresent};

use std::alloc::{AllocError, Global};
use std::test::Fail;
use stm_history::{Change, Text};
use stm_keys::{Event, Keys};

fn apply(alloc: Global, keys: &mut Keys, change: Change) -> Result<u64, Fail>
    requires { DeletePresent keys.old.history (change ∷ []) }
{
    let changes = vec![in alloc; change]?;
    match keys.apply(changes.as_slice()) {
        Ok(number) => Ok(number),
        Err(refusal) => Err(Fail::from(refusal.name())),
    }
}

/// Puts "a".
fn put(alloc: Global, keys: &mut Keys) -> Result<u64, Fail> {
    let key = Text::copy_of(alloc, "a")?;
    let value = Text::copy_of(alloc, "1")?;
    apply(
        alloc,
        keys,
        Change::Put {
            key,
            value,
            lease: 0,
        },
    )
}

/// Deletes "a", which is there.
fn delete(alloc: Global, keys: &mut Keys) -> Result<u64, Fail> {
    let key = Text::copy_of(alloc, "a")?;
    if keys.get(key.as_str()).is_none() {
        drop(key);
        return Err(Fail::from("an absent key is deleted"));
    }
    apply(alloc, keys, Change::Del { key })
}

fn report_event(reported: &mut String, event: &Event) -> Result<(), AllocError> {
    match event {
        Event::Put { key, state } => write!(reported, "PUT {} {}; ", key.as_str(), state.mod_rev),
        Event::Delete { key, revision } => {
            write!(reported, "DELETE {} {revision}; ", key.as_str())
        }
    }
}

fn report_events(reported: &mut String, events: &[Event]) -> Result<(), AllocError> {
    for event in events {
        report_event(reported, event)?;
    }
    Ok(())
}

/// The events of a revision, where it has come.
fn report_revision(reported: &mut String, keys: &Keys, revision: u64) -> Result<(), AllocError> {
    if revision > keys.revision() {
        return reported.push_str("not yet; ");
    }
    let events = keys.events_of(revision)?;
    let done = report_events(reported, events.as_slice());
    drop(events);
    done
}

/// What "a" was at a revision.
fn report_read(reported: &mut String, keys: &Keys, revision: u64) -> Result<(), AllocError> {
    match keys.get_at("a", revision) {
        Ok(None) => reported.push_str("absent; "),
        Ok(Some(state)) => write!(reported, "{}; ", state.value),
        Err(refusal) => write!(reported, "{refusal}; "),
    }
}

/// What "a" was at the revisions 1 to 4, and the events of the revisions 0 to 4.
fn read(alloc: Global, keys: &Keys) -> Result<String, AllocError> {
    let mut reported = String::new(alloc);
    for revision in 1..=4 {
        report_read(&mut reported, keys, revision)?;
    }
    for revision in 0..=4 {
        report_revision(&mut reported, keys, revision)?;
    }
    Ok(reported)
}

/// The numbers of the revisions in which "a" was put and deleted, and what is read then.
fn shown(alloc: Global) -> Result<(u64, u64, String), Fail> {
    let mut keys = Keys::new(alloc);
    let second = put(alloc, &mut keys)?;
    let third = delete(alloc, &mut keys)?;
    let read = read(alloc, &keys)?;
    drop(keys);
    Ok((second, third, read))
}

#[test]
fn revisions_have_their_events(rt: HostRuntime) -> Result<(), Fail> {
    let (second, third, read) = shown(rt.alloc())?;
    assert_eq!(rt; second, 2);
    assert_eq!(rt; third, 3);
    assert_eq!(rt;
        read.as_str(),
        "absent; 1; absent; FutureRevision; PUT a 2; DELETE a 3; not yet; "
    );
    Ok(())
}

//! What a log shows of values: texts as texts, and lists by their elements. What is expected comes from Rust's `Debug`, and never from a run.

use std::alloc::{AllocError, Global};
use std::test::Fail;
use stm_history::{Change, Sequence, Text};

fn put(alloc: Global, key: &str, value: &str) -> Result<Change, AllocError> {
    let key = Text::copy_of(alloc, key)?;
    let value = Text::copy_of(alloc, value)?;
    Ok(Change::Put {
        key,
        value,
        lease: 0,
    })
}

/// A put of a short value with a quotation mark, and one of a long value.
fn changes(alloc: Global) -> Result<Sequence<Change>, AllocError> {
    let first = put(alloc, "a", "\"1")?;
    let second = put(alloc, "b", "abcdefghijklmnopqrstuvwxyz")?;
    let mut changes = Sequence::new(alloc);
    changes.push(first)?;
    changes.push(second)?;
    Ok(changes)
}

fn logged(alloc: Global) -> Result<String, AllocError> {
    let changes = changes(alloc)?;
    let logged = format!(in alloc; "{changes:?}");
    drop(changes);
    logged
}

#[test]
fn lists_and_texts_are_logged_by_what_they_have(rt: HostRuntime) -> Result<(), Fail> {
    let logged = logged(rt.alloc())?;
    assert_eq!(rt;
        logged.as_str(),
        "[Put { key: \"a\", value: \"\\\"1\", lease: 0 }, Put { key: \"b\", value: \"abcdefghijklmnopqrstuvwxyz\", lease: 0 }]"
    );
    Ok(())
}

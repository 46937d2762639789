//! The ends to which runs came, as they are said, and how often each did.
ghost use Rattle.std.specs.Prelude.{◌<◌, length, IfSome};

use std::alloc::{AllocError, Global};

/// An end to which runs came, as it is said, and how many did.
#[derive(Drop)]
pub(crate) struct Came {
    how: String,
    times: u64,
}

/// Where such an end is among these.
fn place_of(ends: &[Came], how: &str) -> Option<usize>
    ensures { IfSome result (λ place. place < length ends.now) }
{
    for place in 0..ends.len() {
        if ends[place].how.as_str() == how {
            return Some(place);
        }
    }
    None
}

/// Counts an end to which a run came.
pub(crate) fn count_end(ends: &mut Vec<Came>, how: String) -> Result<(), AllocError> {
    match place_of(ends.as_slice(), how.as_str()) {
        Some(place) => {
            ends[place].times = ends[place].times.saturating_add(1);
            Ok(())
        }
        None => {
            ends.push(Came { how, times: 1 })?;
            Ok(())
        }
    }
}

/// Adds how often each of these ends came.
pub(crate) fn push_ends(alloc: Global, line: &mut String, ends: &[Came]) -> Result<(), AllocError> {
    let mut between = ": ";
    for came in ends {
        let how = came.how.as_str();
        let times = came.times;
        let part = format!(in alloc; "{between}{times} {how}")?;
        line.push_str(part.as_str())?;
        between = ", ";
    }
    Ok(())
}

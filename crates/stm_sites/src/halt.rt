//! What stops an evaluation, and where.
ghost use Rattle.std.specs.Prelude.{◌≡◌, ◌⊎◌, [], ◌∷◌};
ghost use Rattle.stm_steps.specs.declared.stop.Stop.TheVariants.{Faulted};
ghost use Rattle.stm_sites.specs.declared.halt.Halt.TheVariants.{OutOfMemory as OutOfMemoryHere, Stopped};
ghost use Rattle.stm_sites.specs.Returns.{Wraps, Computes, StopsBy, stop_inside};

use crate::site::{Node, Site};
use std::alloc::{AllocError, Global};
use stm_steps::{Fault, Stop, Value};

/// A stop, and where the run stops.
#[derive(Drop)]
pub(crate) struct StopAt {
    /// What stops the run.
    pub(crate) stop: Stop,
    /// Where.
    pub(crate) site: Site,
}

/// What stops an evaluation.
#[derive(Drop)]
pub(crate) enum Halt {
    /// An allocation failed.
    OutOfMemory,
    /// The program stops.
    Stopped(StopAt),
}

impl From<AllocError> for Halt {
    ghost use Rattle.stm_sites.specs.declared.halt.Halt.TheVariants.{OutOfMemory};

    ghost from_gives = { λ _ halt. halt ≡ OutOfMemory };

    fn from(_error: AllocError) -> Halt {
        Halt::OutOfMemory
    }
}

/// A stop of the part at an index of a node, as the node's. Where an allocation for the place fails, it is `OutOfMemory`.
fn stopped_within(index: usize, at: StopAt) -> Halt
    ensures { (result ≡ OutOfMemoryHere) ⊎ (result ≡ Stopped (stop_inside index at)) }
{
    match at.site.within(index) {
        Ok(site) => Halt::Stopped(StopAt {
            stop: at.stop,
            site,
        }),
        Err(_) => {
            drop(at.stop);
            Halt::OutOfMemory
        }
    }
}

/// The result of the part at an index of a node, as the node's: a stop is reported as inside the node. Where an allocation for the place
/// fails, it is `OutOfMemory`.
pub(crate) fn within<X>(index: usize, outcome: Result<X, Halt>) -> Result<X, Halt>
    ensures { Wraps index outcome result }
{
    match outcome {
        Err(Halt::Stopped(at)) => Err(stopped_within(index, at)),
        Err(Halt::OutOfMemory) => Err(Halt::OutOfMemory),
        Ok(value) => Ok(value),
    }
}

/// The stop of a node whose part gave this value.
pub(crate) fn stop_on_one<X>(
    alloc: Global,
    node: Node,
    stop: Stop,
    value: &Value,
) -> Result<X, Halt>
    ensures { StopsBy node (value.now ∷ []) stop result }
{
    match Site::of_one(alloc, node, value) {
        Ok(site) => Err(Halt::Stopped(StopAt { stop, site })),
        Err(_) => {
            drop(stop);
            Err(Halt::OutOfMemory)
        }
    }
}

/// The stop of the node at hand by a fault.
pub(crate) fn faulted(fault: Fault, site: Site) -> Halt
    ensures { result ≡ Stopped (record { stop = Faulted fault; site = site }) }
{
    let stop = Stop::Faulted(fault);
    Halt::Stopped(StopAt { stop, site })
}

/// The fault of a node whose part gave this value.
pub(crate) fn fault_on_one<X>(
    alloc: Global,
    node: Node,
    fault: Fault,
    value: &Value,
) -> Result<X, Halt>
    ensures { StopsBy node (value.now ∷ []) (Faulted fault) result }
{
    stop_on_one(alloc, node, Stop::Faulted(fault), value)
}

/// The fault of a node whose parts gave these two values.
fn fault_on_two<X>(
    alloc: Global,
    node: Node,
    fault: Fault,
    left: &Value,
    right: &Value,
) -> Result<X, Halt>
    ensures { StopsBy node (left.now ∷ right.now ∷ []) (Faulted fault) result }
{
    let site = Site::of_two(alloc, node, left, right)?;
    Err(faulted(fault, site))
}

/// What a node computed of the value of its part.
pub(crate) fn on_one<X>(
    alloc: Global,
    node: Node,
    computed: Result<X, Fault>,
    value: &Value,
) -> Result<X, Halt>
    ensures { Computes node (value.now ∷ []) computed result }
{
    match computed {
        Ok(computed) => Ok(computed),
        Err(fault) => fault_on_one(alloc, node, fault, value),
    }
}

/// What a node computed of the values of its two parts.
pub(crate) fn on_two<X>(
    alloc: Global,
    node: Node,
    computed: Result<X, Fault>,
    left: &Value,
    right: &Value,
) -> Result<X, Halt>
    ensures { Computes node (left.now ∷ right.now ∷ []) computed result }
{
    match computed {
        Ok(computed) => Ok(computed),
        Err(fault) => fault_on_two(alloc, node, fault, left, right),
    }
}

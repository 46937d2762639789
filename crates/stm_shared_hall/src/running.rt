//! Closures that threads call, side by side.
ghost use Rattle.std.specs.Prelude.{◌≡◌, IfOk, vec_len};
ghost use Rattle.stm_shared_hall.specs.Sharing.{MayGive, MayGiveEach, MayReturn, MayReturnEach};

use crate::turns::{SharedHall, Turns};
use std::alloc::{AllocError, Global};
use std::sync::Wait;
use std::thread::{Threads, map_indices};
use stm_closures::Hall;

/// Calls a closure once for each number below `threads`, with what all calls share.
fn call_each<X: Send + Drop, W: Threads + Sync, S: Sync, F: Fn(usize, &S) -> X + Sync>(
    rt: &W,
    alloc: Global,
    threads: usize,
    shared: &S,
    call: &F,
) -> Result<Vec<X>, AllocError>
    requires { F.IsAlwaysCallable call.now }
    ensures count { IfOk result (λ results. vec_len results ≡ threads) }
    ensures each { IfOk result (λ results. MayGiveEach F.Fn call.now threads results.items) }
{
    let one = move |number: usize| -> X
        requires { F.IsAlwaysCallable call.now }
        ensures { MayGive F.Fn call.entry.now number result }
    { call(number, shared) };
    map_indices(rt, alloc, threads, &one)
}

/// Calls a closure once for each number below `threads`, each call in a thread of its own where one can be started, with a way to the hall. Hands back
/// what the calls returned, in the order of the numbers, and the hall.
///
/// `AllocError`: an allocation failed, and the results are dropped. All threads have ended when it returns.
pub fn run_on_threads<
    X: Send + Drop,
    W: Threads + Wait + Sync,
    F: Fn(usize, &mut Turns<W>) -> X + Sync,
>(rt: &W, alloc: Global, hall: Hall, threads: usize, body: &F) -> (Result<Vec<X>, AllocError>, Hall)
    requires { F.IsAlwaysCallable body.now }
    ensures count { IfOk result.0 (λ results. vec_len results ≡ threads) }
    ensures each { IfOk result.0 (λ results. MayReturnEach F.Fn body.now (λ turns. (turns.made ≡ 0) × (turns.sent ≡ 0)) threads results.items) }
{
    let shared = SharedHall::new(hall);
    let call = move |number: usize, shared: &SharedHall| -> X
        requires { F.IsAlwaysCallable body.now }
        ensures { MayReturn F.Fn body.entry.now (λ turns. (turns.made ≡ 0) × (turns.sent ≡ 0)) number result }
    {
        let mut turns = Turns::new(rt, shared);
        body(number, &mut turns)
    };
    let results = call_each(rt, alloc, threads, &shared, &call);
    (results, shared.into_hall())
}

//! The results at all items, from workers in threads.

ghost use Rattle.std.specs.Prelude.{IfOk};
ghost use Rattle.std.specs.Fn.{FnReturnsAt};
ghost use Rattle.std.specs.List.{All, AllZip};
ghost use Rattle.parallel_map.specs.Shares.{IsOfItem};

use crate::joining::all_results;
use crate::share::{Done, share_of};
use rayon::prelude::*;
use std::alloc::{AllocError, Global};
use std::sync::atomic::AtomicUsize;
use std::thread::Threads;

/// The shares of all workers, each in a thread of its own where one can be made.
fn shares_of<R: Threads + Sync, I: Sync, T: Send + Drop, F: Fn(&I) -> T + Sync>(
    alloc: Global,
    rt: &R,
    items: &[I],
    workers: u32,
    f: &F,
) -> Result<Vec<Vec<Done<T>>>, AllocError>
    requires { F.IsAlwaysCallable f.now }
    ensures { IfOk result (λ shares. All (λ share. All (IsOfItem (FnReturnsAt F.Fn f.now) items.now) share.items) shares.items) }
{
    let counter = AtomicUsize::new(0);
    let next = &counter;
    // Each worker is a piece of its own: without `with_min_len` no piece has fewer than 1,024 of them, and all would share one thread.
    (0..workers)
        .into_par_iter()
        .with_min_len(1)
        .map(
            move |_worker: u32| -> Result<Vec<Done<T>>, AllocError>
                requires { F.IsAlwaysCallable f.now }
                ensures { IfOk result (λ share. All (IsOfItem (FnReturnsAt F.Fn f.entry.now) items.entry.now) share.items) }
            { share_of(alloc, items, next, f) },
        )
        .collect::<Result<Vec<Vec<Done<T>>>, AllocError>>(rt, alloc)?
}

/// Returns the results of the function at all items, in their order. Workers take the next item from a counter that they share, so at most as
/// many items are worked on at a time as there are workers; one worker is the caller's thread. `rayon` has the workers' threads:
/// at most two for each processor. That each item is worked on once, and by the workers, is tested.
pub fn map_by_workers<R: Threads + Sync, I: Sync, T: Send + Drop, F: Fn(&I) -> T + Sync>(
    alloc: Global,
    rt: &R,
    items: &[I],
    workers: u32,
    f: &F,
) -> Result<Vec<T>, AllocError>
    requires { F.IsAlwaysCallable f.now }
    ensures { IfOk result (λ results. AllZip (FnReturnsAt F.Fn f.now) items.now results.items) }
{
    let shares = shares_of(alloc, rt, items, workers, f)?;
    all_results(alloc, items, shares, f)
}

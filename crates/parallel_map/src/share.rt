//! What one worker does.

ghost use Rattle.std.specs.Prelude.{IfOk};
ghost use Rattle.std.specs.Fn.{FnReturnsAt};
ghost use Rattle.std.specs.List.{All};
ghost use Rattle.parallel_map.specs.Shares.{IsOfItem};

use std::alloc::{AllocError, Global};
use std::sync::atomic::{AtomicUsize, Ordering};

/// A result, and the place of its item.
#[derive(Drop)]
pub(crate) struct Done<T> {
    pub(crate) place: usize,
    pub(crate) result: T,
}

/// Takes one item after the other, until none is left: the counter is the place of the next one. Returns the results at those that it took. No
/// worker takes more than all items, which bounds the loop. The counter goes past the number of items, by one for each worker that finds none left.
pub(crate) fn share_of<I, T: Drop, F: Fn(&I) -> T>(
    alloc: Global,
    items: &[I],
    next: &AtomicUsize,
    f: &F,
) -> Result<Vec<Done<T>>, AllocError>
    requires { F.IsAlwaysCallable f.now }
    ensures { IfOk result (λ share. All (IsOfItem (FnReturnsAt F.Fn f.now) items.now) share.items) }
{
    let mut share = Vec::new(alloc);
    for _ in 0..items.len() {
        let place = next.fetch_add(1, Ordering::SeqCst);
        if place >= items.len() {
            break;
        }
        let result = f(&items[place]);
        share.push(Done { place, result })?;
    }
    Ok(share)
}

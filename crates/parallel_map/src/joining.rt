//! The results of all workers, each at the place of its item.

ghost use Rattle.std.specs.Prelude.{◌≡◌, ◌<◌, IfOk, IfSome, None, Some, length, replicate, set};
ghost use Rattle.std.specs.Fn.{FnReturnsAt};
ghost use Rattle.std.specs.List.{All, AllZip};
ghost use Rattle.parallel_map.specs.Shares.{IsOfItem};

use crate::share::Done;
use std::alloc::{AllocError, Global};

/// A table of this number of places, with nothing at them.
fn nothing_done<T: Drop>(alloc: Global, places: usize) -> Result<Vec<Option<T>>, AllocError>
    ensures { IfOk result (λ found. found.items ≡ replicate places None) }
{
    let mut found = Vec::with_capacity(alloc, places)?;
    for _ in 0..places {
        found.push(None)?;
    }
    Ok(found)
}

/// Puts a result at its place.
fn put<T: Drop>(found: &mut Vec<Option<T>>, place: usize, found_there: T)
    requires { place < length found.old.items }
    ensures { found.new.items ≡ set found.old.items place (Some found_there) }
{
    found[place] = Some(found_there);
}

/// Puts the results of a share at the places of their items.
fn put_share<I, T: Drop, F: Fn(&I) -> T>(
    found: &mut Vec<Option<T>>,
    share: Vec<Done<T>>,
    _items: &[I],
    _f: &F,
)
    requires share { All (IsOfItem (FnReturnsAt F.Fn _f.now) _items.now) share.items }
    requires found { AllZip (λ item done. IfSome done (FnReturnsAt F.Fn _f.now item)) _items.now found.old.items }
    ensures { AllZip (λ item done. IfSome done (FnReturnsAt F.Fn _f.now item)) _items.now found.new.items }
{
    for done in share {
        put(found, done.place, done.result);
    }
}

/// The results of all shares.
fn joined<I, T: Drop, F: Fn(&I) -> T>(
    alloc: Global,
    items: &[I],
    shares: Vec<Vec<Done<T>>>,
    f: &F,
) -> Result<Vec<Option<T>>, AllocError>
    requires { All (λ share. All (IsOfItem (FnReturnsAt F.Fn f.now) items.now) share.items) shares.items }
    ensures { IfOk result (λ found. AllZip (λ item done. IfSome done (FnReturnsAt F.Fn f.now item)) items.now found.items) }
{
    let mut found = nothing_done(alloc, items.len())?;
    for share in shares {
        put_share(&mut found, share, items, f);
    }
    Ok(found)
}

/// The result at an item: the one that was found, or else what the function returns. In a run the
/// function is called here only if there was no worker: workers leave no item out, but no contract says so.
fn settled<I, T: Drop, F: Fn(&I) -> T>(item: &I, found: Option<T>, f: &F) -> T
    requires f { F.IsAlwaysCallable f.now }
    requires found { IfSome found (FnReturnsAt F.Fn f.now item.now) }
    ensures { FnReturnsAt F.Fn f.now item.now result }
{
    match found {
        Some(result) => result,
        None => f(item),
    }
}

/// The results at all items, in their order: those of the shares, and what the function returns at each item that is in none.
pub(crate) fn all_results<I, T: Drop, F: Fn(&I) -> T>(
    alloc: Global,
    items: &[I],
    shares: Vec<Vec<Done<T>>>,
    f: &F,
) -> Result<Vec<T>, AllocError>
    requires f { F.IsAlwaysCallable f.now }
    requires shares { All (λ share. All (IsOfItem (FnReturnsAt F.Fn f.now) items.now) share.items) shares.items }
    ensures { IfOk result (λ results. AllZip (FnReturnsAt F.Fn f.now) items.now results.items) }
{
    let mut results = Vec::with_capacity(alloc, items.len())?;
    let found = joined(alloc, items, shares, f)?;
    let mut place = 0;
    for done in found {
        results.push(settled(&items[place], done, f))?;
        place += 1;
    }
    Ok(results)
}

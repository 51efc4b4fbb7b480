//! What no clause says: that a call gives results, also such as own memory, how many items are worked on at a time, and that each is worked on once.

ghost use Rattle.std.specs.Prelude.{◌≡◌, ◌*◌, ◌%◌, ◌^◌, IfOk};
ghost use Rattle.std.specs.List.{AllZip};

use crate::map_by_workers;
use std::alloc::{AllocError, Global};
use std::sync::atomic::{AtomicUsize, Ordering};
use std::test::Fail;
use std::thread::Threads;

/// The squares of numbers, which wrap.
fn squares<R: Threads + Sync>(
    alloc: Global,
    rt: &R,
    numbers: &[u64],
    workers: u32,
) -> Result<Vec<u64>, AllocError>
    ensures { IfOk result (λ squares. AllZip (λ x y. y ≡ x * x % 2 ^ 64) numbers.now squares.items) }
{
    let square = |x: &u64| -> u64
        ensures { result ≡ x.now * x.now % 2 ^ 64 }
    { x.wrapping_mul(*x) };
    map_by_workers(alloc, rt, numbers, workers, &square)
}

#[test]
fn results_stand_in_the_order_of_the_items(rt: HostRuntime) -> Result<(), Fail> {
    let alloc = rt.alloc();
    for workers in [0u32, 1, 2, 3, 8] {
        let few = squares(alloc, &rt, [3u64, 1, 2].as_slice(), workers)?;
        assert_eq!(rt; few.as_slice(), [9, 1, 4].as_slice());
        let none = squares(alloc, &rt, [].as_slice(), workers)?;
        assert!(rt; none.is_empty());
    }
    Ok(())
}

#[test]
fn each_item_once_and_as_many_at_a_time_as_workers(rt: HostRuntime) -> Result<(), Fail> {
    let alloc = rt.alloc();
    let numbers = vec![in alloc; 7u32; 300]?;
    for workers in [1u32, 2, 3] {
        let running = AtomicUsize::new(0);
        let too_many = AtomicUsize::new(0);
        let calls = AtomicUsize::new(0);
        let list = |number: &u32| -> Result<Vec<u32>, AllocError> {
            if running.fetch_add(1, Ordering::SeqCst) >= workers as usize {
                too_many.store(1, Ordering::SeqCst);
            }
            calls.fetch_add(1, Ordering::SeqCst);
            let list = vec![in alloc; *number; 100];
            running.fetch_sub(1, Ordering::SeqCst);
            list
        };
        let lists = map_by_workers(alloc, &rt, numbers.as_slice(), workers, &list)?;
        assert_eq!(rt; lists.len(), 300);
        for list in lists {
            let list = list?;
            assert!(rt; list.len() == 100 && list[99] == 7);
        }
        assert_eq!(rt; too_many.load(Ordering::SeqCst), 0);
        assert_eq!(rt; calls.load(Ordering::SeqCst), 300);
    }
    Ok(())
}

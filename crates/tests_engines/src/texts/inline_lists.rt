//! Lists that lie in the value itself while they are short.

use crate::expectations::ample;
use short_lists::inline_list::InlineList;
use short_lists::short_list::ShortList;

#[test]
fn pushes_as_long_as_there_is_room(rt: HostRuntime) {
    let mut list: InlineList<u32, 3> = InlineList::empty();
    assert!(rt; list.as_slice().is_empty() && !list.is_full());
    list.push(7);
    list.push(5);
    assert!(rt; list.as_slice() == [7, 5].as_slice() && !list.is_full());
    list.push(7);
    assert!(rt; list.as_slice() == [7, 5, 7].as_slice() && list.is_full());
}

#[test]
fn copies_elements_into_the_value(rt: HostRuntime) {
    let copied: InlineList<u32, 3> = InlineList::copy_of(&[4, 0]);
    assert!(rt; copied.as_slice() == [4, 0].as_slice() && !copied.is_full());
    let first = InlineList::first_of([4, 0, 9], 2);
    assert!(rt; first.as_slice() == [4, 0].as_slice() && !first.is_full());
    let list = ShortList::of(first);
    assert!(rt; list.as_slice() == [4, 0].as_slice());
}

#[test]
fn copies_short_lists_and_long_ones(rt: HostRuntime) {
    let alloc = rt.alloc();
    let none: ShortList<u32, 2> = ample(&rt, ShortList::from_slice(alloc, &[]));
    let short: ShortList<u32, 2> = ample(&rt, ShortList::from_slice(alloc, &[3, 8]));
    let long: ShortList<u32, 2> = ample(&rt, ShortList::from_slice(alloc, &[3, 8, 1]));
    assert!(rt; none.as_slice().is_empty());
    assert!(rt; short.as_slice() == [3, 8].as_slice());
    assert!(rt; long.as_slice() == [3, 8, 1].as_slice());
}

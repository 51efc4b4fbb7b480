//! Tables that can be read at every place.
//!
//! A search promises nothing of what it finds, so no invariant says that its places are in range. A place past the end of a
//! table reads as a value that the caller names, and a write there does nothing: such code is safe as it stands. For the same
//! reason places are computed by arithmetic that wraps: an overflow is one more place past the end, and no panic.
#![tactic(auto)]

/// Returns the entry at this place, or the other value past the end.
#[inline(always)]
pub fn at<T: Copy>(table: &[T], place: u32, otherwise: T) -> T {
    let place = place as usize;
    if place < table.len() {
        table[place]
    } else {
        otherwise
    }
}

/// Writes the entry at this place. Past the end nothing happens.
#[inline(always)]
pub fn put<T: Copy>(table: &mut [T], place: u32, value: T) {
    let place = place as usize;
    if place < table.len() {
        table[place] = value;
    }
}

/// Returns the entries from one place up to another, that one left out, or none if these are no places of the table.
#[inline(always)]
pub fn piece<T>(table: &[T], from: u32, to: u32) -> &[T] {
    let from = from as usize;
    let to = to as usize;
    if from <= to && to <= table.len() {
        &table[from..to]
    } else {
        &table[..0]
    }
}

/// Returns the place of an entry in a table of rows of this width, which stand one after the other.
#[inline(always)]
pub fn cell(row: u32, width: u32, column: u32) -> u32 {
    row.wrapping_mul(width).wrapping_add(column)
}

/// Returns the number of entries, at most the largest `u32`.
#[inline(always)]
pub fn size<T>(table: &[T]) -> u32 {
    if table.len() <= 0xffff_ffff {
        table.len() as u32
    } else {
        0xffff_ffff
    }
}

/// Returns the first place, from one up to another, that passes, or the end. What stands behind a place that passes has to pass too, so it is found by
/// halving; places have 32 bits, so 32 times are enough.
#[inline(always)]
pub fn first_place<F: Fn(u32) -> bool>(begin: u32, end: u32, passes: F) -> u32
    requires { F.IsAlwaysCallable passes }
{
    let mut low = begin;
    let mut high = end;
    for _ in 0..32 {
        if low >= high {
            break;
        }
        let middle = low.wrapping_add(high.wrapping_sub(low) / 2);
        if passes(middle) {
            high = middle;
        } else {
            low = middle.wrapping_add(1);
        }
    }
    low
}

/// Returns the number of slots of a hash table for this number of entries: a power of two, and at least twice as many, so that a search meets a free slot
/// soon. It is no lower than the first of these two, and no higher than the second, which are powers of two themselves.
pub fn slots_for(entries: u32, fewest: u32, most: u32) -> u32 {
    let mut slots = fewest;
    for _ in 0..32 {
        if slots >= most || slots / 2 >= entries {
            break;
        }
        slots = slots.wrapping_mul(2);
    }
    slots
}

/// Replaces each entry by the sum of those up to it, itself among them. So if the entry at k + 1 counts what k has, the one at k becomes the place where its
/// part begins.
pub fn sum_up(table: &mut [u32]) {
    let mut sum: u32 = 0;
    for place in 0..size(table) {
        sum = sum.wrapping_add(at(table, place, 0));
        put(table, place, sum);
    }
}

//! Lists of which a sentence has the first few.

ghost use Rattle.std.specs.Prelude.{◌≡◌, ◌-◌, ◌++◌, OnOk, decimal, length, take};
ghost use Rattle.reason_notes.specs.Words.{more_text};

use itoa::Buffer;
use std::alloc::AllocError;

/// The most things of a kind that a sentence lists. The contracts of this file and `specs/Words.antt` have the number itself, and
/// `MOST_DISTINCT` in `distinct_orders.rt` is one more.
const MOST_LISTED: usize = 12;

/// The first of these.
pub fn first_of<T>(items: &[T]) -> &[T]
    ensures { result.now ≡ take 12 items.now }
{
    if items.len() <= MOST_LISTED {
        items
    } else {
        &items[..MOST_LISTED]
    }
}

/// The number of those that come after the first of these, and 0 if all are listed.
pub fn count_after<T>(items: &[T]) -> usize
    ensures { result ≡ length items.now - 12 }
{
    items.len().saturating_sub(MOST_LISTED)
}

/// Appends the number in decimal.
pub fn push_number(text: &mut Vec<u8>, number: u64) -> Result<(), AllocError>
    ensures { OnOk result (text.new.items ≡ text.old.items ++ decimal number) }
{
    let mut buffer = Buffer::new();
    text.extend_from_slice(buffer.format(number).as_bytes())?;
    Ok(())
}

/// Appends how many are not listed, between these words, if there are such.
pub fn push_more(text: &mut Vec<u8>, lead: &str, count: usize, tail: &str) -> Result<(), AllocError>
    ensures { OnOk result (text.new.items ≡ text.old.items ++ more_text lead.now tail.now count) }
{
    if count == 0 {
        return Ok(());
    }
    text.extend_from_slice(lead.as_bytes())?;
    push_number(text, count as u64)?;
    text.extend_from_slice(tail.as_bytes())?;
    Ok(())
}

//! The places under which notes name operations.

use crate::named_operations::place_after;
use note_text::{count_words, word_at};
use std::alloc::{AllocError, Global};
use text_lines::lines::cut_line;
use text_lines::words::is_word;
use trace_part::part::TracePart;
use trace_semantics::operation::OpName;
use trace_semantics::place::read_place;
use trace_semantics::process_order::find_process;
use trace_semantics::trace::Trace;

/// The place under which each operation of a trace is named: its own, or, if the trace is a part of another one, its place in the whole.
pub struct ShownPlaces {
    // The numbers at which the operations of each process begin in `places`, by the order of the proc lines. Both are empty if each operation
    // has its own place.
    starts: Vec<usize>,
    places: Vec<u64>,
}

/// Drops the tables in one call. A derived `Drop` would drop each at every exit of a function that owns them, which makes its proof longer.
impl Drop for ShownPlaces {
    fn drop(self) {
        let ShownPlaces {
            starts: _starts,
            places: _places,
        } = self;
    }
}

/// Returns whether the line is an operation.
fn is_operation(line: &[u8]) -> bool {
    let key = word_at(line, 0);
    is_word(key, "R") || is_word(key, "W") || is_word(key, "U")
}

/// Gives the place of the name, as 17 of `P.17`, if it is one of the process.
fn place_in_name(name: &[u8], process: &[u8]) -> Option<u64> {
    let front = name.get(..process.len())?;
    if front != process {
        return None;
    }
    match name.get(process.len()..)? {
        [b'.', place @ ..] => Some(u64::from(read_place(place)?)),
        _ => None,
    }
}

/// Gives the place that a comment line, as `# P.17`, says for the operation of the process below it.
fn place_in_comment(line: &[u8], process: &[u8]) -> Option<u64> {
    if is_word(word_at(line, 0), "#") && count_words(line) == 2 {
        place_in_name(word_at(line, 1), process)
    } else {
        None
    }
}

impl ShownPlaces {
    /// Each operation has its own place.
    pub fn own(alloc: Global) -> ShownPlaces {
        ShownPlaces {
            starts: Vec::new(alloc),
            places: Vec::new(alloc),
        }
    }

    /// Each operation of the part has its place in the whole.
    pub fn of_part(alloc: Global, part: &TracePart) -> Result<ShownPlaces, AllocError> {
        let mut shown = ShownPlaces::own(alloc);
        for number in 0..part.trace().processes().len() {
            shown.starts.push(shown.places.len())?;
            for place in part.places(number) {
                shown.places.push(u64::from(*place))?;
            }
        }
        Ok(shown)
    }

    /// Each operation has the place that a comment directly above it gives, as `vsc part --names` writes them, if all operations of the
    /// text, which spells a trace, have one; else each has its own.
    pub fn of_comments(alloc: Global, text: &[u8]) -> Result<ShownPlaces, AllocError> {
        let mut shown = ShownPlaces::own(alloc);
        let mut process: &[u8] = b"";
        let mut place = None;
        let mut rest = text;
        // The bound is never reached: each turn takes a line away. The checker sees by it that the loop returns.
        for _ in 0..u64::MAX {
            let Some((line, after)) = cut_line(rest) else {
                break;
            };
            if is_word(word_at(line, 0), "proc") {
                process = word_at(line, 1);
                shown.starts.push(shown.places.len())?;
            } else if is_operation(line) {
                let Some(place) = place else {
                    return Ok(ShownPlaces::own(alloc));
                };
                shown.places.push(place)?;
            }
            // Last, so that an operation has the place of the line directly above it, and of no other.
            place = place_in_comment(line, process);
            rest = after;
        }
        Ok(shown)
    }

    /// Returns whether some operation may have another place than its own.
    pub fn are_of_whole(&self) -> bool {
        !self.places.is_empty()
    }

    /// The place under which an operation is named, by the number of its process and its place there, both counted from 0.
    pub fn at(&self, number: usize, k: usize) -> u64 {
        match self.starts.get(number) {
            Some(start) => match self.places.get(start.saturating_add(k)) {
                Some(place) => *place,
                None => place_after(k),
            },
            None => place_after(k),
        }
    }

    /// The place under which the operation of this name is named.
    pub fn of_name(&self, trace: &Trace, name: &OpName) -> u64 {
        let own = u64::from(name.place);
        match find_process(trace.processes(), name.process.as_bytes()) {
            Some(number) if own > 0 => self.at(number, name.place as usize - 1),
            _ => own,
        }
    }
}

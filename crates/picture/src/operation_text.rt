//! What is written into a box.

use crate::shown_names::ShownNames;
use drawn_order::PictureItem;
use note_text::decimal;
use std::alloc::{AllocError, Global};
use trace_semantics::operation::{Op, Origin};

/// The parts of what is written into a box.
#[derive(Drop)]
pub(crate) struct BoxText {
    /// The place in the schedule, counted from 1, and a blank, if it is a schedule's.
    pub position: Vec<u8>,
    /// The name of the operation and a blank, as `P.2 `.
    pub name: Vec<u8>,
    /// The operation as its line in the trace but for its times, as `R x 0`, or a value, as `x = 0`.
    pub words: Vec<u8>,
}

/// Appends the words, one after the other.
fn append(text: &mut Vec<u8>, words: &[&[u8]]) -> Result<(), AllocError> {
    for word in words {
        text.extend_from_slice(word)?;
    }
    Ok(())
}

/// Appends where an operation reads from by its line. A picture of a part names operations by the places that they have in the whole trace, so the place of the
/// line is not the one that is shown.
fn append_origin(
    text: &mut Vec<u8>,
    origin: &Origin,
    names: ShownNames<'_>,
) -> Result<(), AllocError> {
    match origin {
        Origin::Any => Ok(()),
        Origin::Initial => append(text, &[b" from init"]),
        Origin::Operation(name) => {
            let place = decimal(names.place_of(name));
            append(
                text,
                &[b" from ", name.process.as_bytes(), b" ", place.as_slice()],
            )
        }
    }
}

/// Appends a letter, the location, and a value.
fn append_access(
    text: &mut Vec<u8>,
    letter: &[u8],
    location: &[u8],
    value: u64,
) -> Result<(), AllocError> {
    let value = decimal(value);
    append(text, &[letter, b" ", location, b" ", value.as_slice()])
}

/// Appends the operation as its line in a trace, but for its times.
fn append_operation(text: &mut Vec<u8>, op: &Op, names: ShownNames<'_>) -> Result<(), AllocError> {
    match op {
        Op::Read {
            location,
            value,
            origin,
            ..
        } => {
            append_access(text, b"R", location.as_bytes(), *value)?;
            append_origin(text, origin, names)
        }
        Op::Write {
            location,
            value,
            ..
        } => append_access(text, b"W", location.as_bytes(), *value),
        Op::Update {
            location,
            read,
            left,
            origin,
            ..
        } => {
            append_access(text, b"U", location.as_bytes(), *read)?;
            let left = decimal(*left);
            append(text, &[b" ", left.as_slice()])?;
            append_origin(text, origin, names)
        }
    }
}

/// Appends a location and its value: an initial one is left, a final one is read.
fn append_value(text: &mut Vec<u8>, item: &PictureItem<'_>) -> Result<(), AllocError> {
    let value = match item.left {
        Some(left) => left,
        None => item.read.unwrap_or(0),
    };
    let value = decimal(value);
    append(text, &[item.location, b" = ", value.as_slice()])
}

impl BoxText {
    /// Gives what is written into the box, with its position in a schedule or without.
    pub fn of(
        alloc: Global,
        item: &PictureItem<'_>,
        names: ShownNames<'_>,
        has_position: bool,
    ) -> Result<BoxText, AllocError> {
        let mut position = Vec::new(alloc);
        let mut name = Vec::new(alloc);
        let mut words = Vec::new(alloc);
        match item.op {
            Some(op) => {
                if has_position {
                    let number = decimal((item.row as u64).saturating_add(1));
                    append(&mut position, &[number.as_slice(), b" "])?;
                }
                let place = decimal(names.place_of_item(item));
                append(&mut name, &[item.process, b".", place.as_slice(), b" "])?;
                append_operation(&mut words, op, names)?;
            }
            None => append_value(&mut words, item)?,
        }
        Ok(BoxText {
            position,
            name,
            words,
        })
    }

    /// The number of its characters, which are ASCII: names and numbers of a trace are.
    pub fn length(&self) -> u64 {
        let name = self.name.len() as u64;
        let words = self.words.len() as u64;
        (self.position.len() as u64)
            .saturating_add(name)
            .saturating_add(words)
    }
}

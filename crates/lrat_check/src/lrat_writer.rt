//! The writer of a derivation's text.

ghost use Rattle.std.specs.Prelude.{◌≡◌, ◌∷◌, ◌++◌, map, pos, decimal, IfOk, OnOk};
ghost use Rattle.std.specs.Fmt.{signed_decimal};
ghost use Rattle.lrat_check.specs.LratWritten.{list_text, step_line, canonical_derivation};

use crate::derivation::{Derivation, Step};
use dimacs::Lit;
use itoa::Buffer;
use std::alloc::{AllocError, Global};

/// Appends the number.
fn push_number(text: &mut Vec<u8>, number: u64) -> Result<(), AllocError>
    ensures { OnOk result (text.new.items ≡ text.old.items ++ decimal number) }
{
    let mut buffer = Buffer::new();
    text.extend_from_slice(buffer.format(number).as_bytes())
}

/// Appends a space and the literal.
fn push_literal(text: &mut Vec<u8>, literal: Lit) -> Result<(), AllocError>
    ensures { OnOk result (text.new.items ≡ text.old.items ++ 32 ∷ signed_decimal literal) }
{
    let mut buffer = Buffer::new();
    text.push(b' ')?;
    text.extend_from_slice(buffer.format(literal.number()).as_bytes())
}

/// Appends a space and the hint.
fn push_hint(text: &mut Vec<u8>, hint: i64) -> Result<(), AllocError>
    ensures { OnOk result (text.new.items ≡ text.old.items ++ 32 ∷ signed_decimal hint) }
{
    let mut buffer = Buffer::new();
    text.push(b' ')?;
    text.extend_from_slice(buffer.format(hint).as_bytes())
}

/// Appends the literals, each after a space, and 0.
fn push_literals(text: &mut Vec<u8>, literals: &[Lit]) -> Result<(), AllocError>
    ensures { OnOk result (text.new.items ≡ text.old.items ++ list_text literals.now) }
{
    for literal in literals {
        push_literal(text, *literal)?;
    }
    text.extend_from_slice(b" 0")
}

/// Appends the ids, each after a space, and 0.
fn push_ids(text: &mut Vec<u8>, ids: &[u64]) -> Result<(), AllocError>
    ensures { OnOk result (text.new.items ≡ text.old.items ++ list_text (map pos ids.now)) }
{
    for id in ids {
        text.push(b' ')?;
        push_number(text, *id)?;
    }
    text.extend_from_slice(b" 0")
}

/// Appends the hints, each after a space, and 0.
fn push_hints(text: &mut Vec<u8>, hints: &[i64]) -> Result<(), AllocError>
    ensures { OnOk result (text.new.items ≡ text.old.items ++ list_text hints.now) }
{
    for hint in hints {
        push_hint(text, *hint)?;
    }
    text.extend_from_slice(b" 0")
}

/// Appends the step as its line.
fn push_step(alloc: Global, text: &mut Vec<u8>, step: &Step) -> Result<(), AllocError>
    ensures { OnOk result (text.new.items ≡ text.old.items ++ step_line step.now) }
{
    match step {
        Step::Addition {
            id,
            literals,
            hints,
        } => {
            push_number(text, *id)?;
            push_literals(text, literals.as_slice())?;
            push_hints(text, hints.to_vec(alloc)?.as_slice())?;
        }
        Step::Deletion { first, ids } => {
            push_number(text, *first)?;
            text.extend_from_slice(b" d")?;
            push_ids(text, ids.as_slice())?;
        }
    }
    text.push(b'\n')?;
    Ok(())
}

/// The canonical text of the derivation: one step a line, words parted by single spaces, each line ended by a line feed. `read_lrat` reads the
/// same steps from it if their ids and hints are within the range of ids (`is_lrat_step`).
pub fn write_lrat(alloc: Global, derivation: &Derivation) -> Result<Vec<u8>, AllocError>
    ensures { IfOk result (λ text. text.items ≡ canonical_derivation derivation.now) }
{
    let mut text = Vec::new(alloc);
    for step in derivation.steps() {
        push_step(alloc, &mut text, step)?;
    }
    Ok(text)
}

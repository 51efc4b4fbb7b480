//! The reader of a derivation's text.

ghost use Rattle.std.specs.Prelude.{◌≡◌, [], ◌∷◌, map, pos, codes, false, Some, MatchOption, MatchResult, IfOk, IfErr};
ghost use Rattle.std.specs.Option.{option_or};
ghost use Rattle.dimacs.specs.Literal.{is_literal};
ghost use Rattle.lrat_check.specs.LratFaults.{literal_fault, hint_fault, id_fault, first_fault, behind_fault, addition_fault, deletion_fault, is_deletion, line_fault, HasLratFault};
ghost use Rattle.lrat_check.specs.LratRead.{BeginsWithList, IsSkippedLine, IsLineOf, IsWrittenStep};
ghost use Rattle.lrat_check.specs.LratText.{SpellsDerivation, is_id_number};
ghost use Rattle.lrat_check.specs.ListFault.{HasListFault};
ghost use Rattle.text_lines.specs.Fault.{IsRefusal, IsRefusalAt};
ghost use Rattle.text_lines.specs.Numbers.{solver_number};
ghost use Rattle.text_lines.specs.Words.{words_of};

use crate::derivation::{Derivation, Step};
use crate::hints::Hints;
use crate::ids::Ids;
use crate::listed_number::ListedNumber;
use crate::lrat_fault::{LratCause, LratFault};
use crate::lrat_number::read_first;
use crate::short_numbers::behind_zero;
use dimacs::{Clause, Lit};
use std::alloc::Global;
use text_lines::comments::begins_dimacs_comment;
use text_lines::lines::cut_line;
use text_lines::numbers::read_solver_number;
use text_lines::words::cut_word;

/// Lists of the numbers of a line, which all lines of a text use one after the other.
#[derive(Drop)]
struct LineRooms {
    ids: Vec<u64>,
    hints: Vec<i64>,
    literals: Vec<Lit>,
}

/// Reads the numbers up to the first 0 of the line of this number into the list, and gives what follows. Almost all words are short numbers with
/// one blank between them, which `push_short` reads at once; the loop is for each other word (more digits, more blanks, faults, a hint with a
/// minus), and for a 0 behind one.
fn read_list<'x, N: ListedNumber>(
    numbers: &mut Vec<N>,
    line: &'x [u8],
    place: usize,
) -> Result<&'x [u8], LratFault>
    ensures { MatchResult result
        (λ behind. BeginsWithList N.fault N.passes (words_of line.now) (map N.number numbers.new.items) (words_of behind.now))
        (λ fault. IsRefusalAt (λ cause. HasListFault N.fault (words_of line.now) cause) place fault) }
{
    N::recall_right();
    numbers.clear();
    let mut rest = N::push_short(numbers, line)?;
    if let Some(behind) = behind_zero(rest) {
        return Ok(behind);
    }
    while let Some((word, after)) = cut_word(rest) {
        match N::read(word) {
            Ok(Some(number)) => numbers.push(number)?,
            Ok(None) => return Ok(after),
            Err(cause) => return Err(LratFault::At(cause, place)),
        }
        rest = N::push_short(numbers, after)?;
    }
    Err(LratFault::At(LratCause::Unended, place))
}

/// The ids up to the first 0 of the line of this number, and what follows.
fn read_ids<'x>(
    alloc: Global,
    ids: &mut Vec<u64>,
    line: &'x [u8],
    number: usize,
) -> Result<(Ids, &'x [u8]), LratFault>
    ensures { MatchResult result
        (λ read. BeginsWithList id_fault is_id_number (words_of line.now) (map pos read.0) (words_of read.1.now))
        (λ fault. IsRefusalAt (λ cause. HasListFault id_fault (words_of line.now) cause) number fault) }
{
    let behind = read_list(ids, line, number)?;
    Ok((Ids::from_slice(alloc, ids.as_slice())?, behind))
}

/// The hints up to the first 0 of the line of this number, and what follows.
fn read_hints<'x>(
    alloc: Global,
    hints: &mut Vec<i64>,
    line: &'x [u8],
    number: usize,
) -> Result<(Hints, &'x [u8]), LratFault>
    ensures { MatchResult result
        (λ read. BeginsWithList hint_fault is_id_number (words_of line.now) read.0 (words_of read.1.now))
        (λ fault. IsRefusalAt (λ cause. HasListFault hint_fault (words_of line.now) cause) number fault) }
{
    let behind = read_list(hints, line, number)?;
    Ok((Hints::compact(alloc, hints.as_slice())?, behind))
}

/// The literals up to the first 0 of the line of this number, and what follows.
fn read_literals<'x>(
    alloc: Global,
    literals: &mut Vec<Lit>,
    line: &'x [u8],
    number: usize,
) -> Result<(Clause, &'x [u8]), LratFault>
    ensures { MatchResult result
        (λ read. BeginsWithList literal_fault is_literal (words_of line.now) read.0 (words_of read.1.now))
        (λ fault. IsRefusalAt (λ cause. HasListFault literal_fault (words_of line.now) cause) number fault) }
{
    let behind = read_list(literals, line, number)?;
    Ok((Clause::from_slice(alloc, literals.as_slice())?, behind))
}

/// Checks that no word follows. A word that is no number is the fault `BadNumber` here too, as everywhere on the line.
fn end_line(rest: &[u8], number: usize) -> Result<(), LratFault>
    ensures { MatchResult result
        (λ _. words_of rest.now ≡ [])
        (λ fault. IsRefusalAt (λ cause. behind_fault (words_of rest.now) ≡ Some cause) number fault) }
{
    match cut_word(rest) {
        None => Ok(()),
        Some((word, _)) => {
            if read_solver_number(word).is_some() {
                Err(LratFault::At(LratCause::BadLine, number))
            } else {
                Err(LratFault::At(LratCause::BadNumber, number))
            }
        }
    }
}

/// The addition whose id is this word and whose other words follow. Ids begin at 1; the first number of a deletion names no clause, so that one may be 0.
fn read_addition(
    alloc: Global,
    rooms: &mut LineRooms,
    word: &[u8],
    rest: &[u8],
    number: usize,
) -> Result<Step, LratFault>
    ensures { MatchResult result
        (λ step. IsWrittenStep (word.now ∷ words_of rest.now) step)
        (λ fault. IsRefusalAt (λ cause. option_or (first_fault 1 (solver_number word.now)) (addition_fault (words_of rest.now)) ≡ Some cause) number fault) }
{
    let id = match read_first(word, 1) {
        Ok(id) => id,
        Err(cause) => return Err(LratFault::At(cause, number)),
    };
    let (literals, after) = read_literals(alloc, &mut rooms.literals, rest, number)?;
    let (hints, behind) = read_hints(alloc, &mut rooms.hints, after, number)?;
    end_line(behind, number)?;
    Ok(Step::Addition {
        id,
        literals,
        hints,
    })
}

/// The deletion whose first number is this word and whose ids follow.
fn read_deletion(
    alloc: Global,
    rooms: &mut LineRooms,
    word: &[u8],
    rest: &[u8],
    number: usize,
) -> Result<Step, LratFault>
    ensures { MatchResult result
        (λ step. IsWrittenStep (word.now ∷ (codes "d" ∷ words_of rest.now)) step)
        (λ fault. IsRefusalAt (λ cause. option_or (first_fault 0 (solver_number word.now)) (deletion_fault (words_of rest.now)) ≡ Some cause) number fault) }
{
    let first = match read_first(word, 0) {
        Ok(first) => first,
        Err(cause) => return Err(LratFault::At(cause, number)),
    };
    let (ids, behind) = read_ids(alloc, &mut rooms.ids, rest, number)?;
    end_line(behind, number)?;
    Ok(Step::Deletion { first, ids })
}

/// Gives what follows the `d`, if the next word is one.
fn behind_letter(rest: &[u8]) -> Option<&[u8]>
    ensures { MatchOption result (is_deletion (words_of rest.now) ≡ false) (λ after. words_of rest.now ≡ codes "d" ∷ words_of after.now) }
{
    let (word, after) = cut_word(rest)?;
    if word == b"d".as_slice() {
        Some(after)
    } else {
        None
    }
}

/// The step on the line of this number; nothing if the line is skipped. The first word is a number in both kinds of step, and the second is
/// `d` in a deletion alone.
fn read_line(
    alloc: Global,
    rooms: &mut LineRooms,
    line: &[u8],
    number: usize,
) -> Result<Option<Step>, LratFault>
    ensures { MatchResult result
        (λ found. MatchOption found (IsSkippedLine line.now) (λ step. IsLineOf line.now step))
        (λ fault. IsRefusalAt (λ cause. line_fault [] line.now ≡ Some cause) number fault) }
{
    let Some((word, rest)) = cut_word(line) else {
        return Ok(None);
    };
    if begins_dimacs_comment(word) {
        return Ok(None);
    }
    let step = match behind_letter(rest) {
        Some(after) => read_deletion(alloc, rooms, word, after, number)?,
        None => read_addition(alloc, rooms, word, rest, number)?,
    };
    Ok(Some(step))
}

/// The derivation that the text spells, in one pass.
///
/// Each line is a step, and lines without words and those whose first word begins with `c` are skipped. The error is the
/// first fault of the text, with its line, counted from 1, or `OutOfMemory`, which says nothing of the text.
pub fn read_lrat(alloc: Global, text: &[u8]) -> Result<Derivation, LratFault>
    ensures spelled { IfOk result (λ derivation. SpellsDerivation text.now derivation) }
    ensures faulty { IfErr result (λ fault. IsRefusal (HasLratFault text.now) fault) }
{
    let mut steps = Vec::new(alloc);
    let mut rooms = LineRooms {
        ids: Vec::new(alloc),
        hints: Vec::new(alloc),
        literals: Vec::new(alloc),
    };
    let mut number = 0usize;
    let mut rest = text;
    while let Some((line, after)) = cut_line(rest) {
        number += 1;
        if let Some(step) = read_line(alloc, &mut rooms, line, number)? {
            steps.push(step)?;
        }
        rest = after;
    }
    steps.shrink_to_fit();
    Ok(Derivation::new(steps))
}

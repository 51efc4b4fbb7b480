//! What a line of a certificate takes of the sources of a reader, or of the last writers of a location.
//!
//! A piece that takes a source adds orders to the line's clause, of which one would stand if the reader had its value from there; of a last writer likewise.
//! Pieces are named by their letters in the certificate's text (docs/REASONS.md): `H` is `MainPiece::Witness`, and `L` is `MainPiece::Between`.

ghost use Rattle.std.specs.Prelude.{◌≡◌, ◌≢◌, ◌==◌, ◌≤◌, ◌⊎◌, [], None, Some, length, IfOk, IsSome, OnOk};
ghost use Rattle.std.specs.Bool.{MatchBool};
ghost use Rattle.std.specs.List.{Contains, find};
ghost use Rattle.reason_clauses.specs.PieceOf.{AreBefore, AreNotBefore, AreSorted, nothing_of, piece_of};
ghost use Rattle.reason_clauses.specs.TakenPieces.{HasPiece, Hides, TakesLater};
ghost use Rattle.reason_clauses.specs.declared.barring.MainPiece.TheVariants.{Plain};

use crate::barring::MainPiece;
use std::alloc::{AllocError, Global};
use writer_table::operation_place::OperationPlace;

/// What pieces take of one process: up to the bound by the witness, and from the limit on. Places are counted from 1, and a bound
/// or limit of 0 is none. A place that both take is taken by the witness.
#[derive(Clone, Copy, Debug, PartialEq, Eq)]
pub struct ProcessPieces {
    pub process: u32,
    pub bound: u32,
    pub witness: Option<OperationPlace>,
    pub limit: u32,
}

/// No piece of the process.
fn nothing_of(process: u32) -> ProcessPieces
    ensures { result ≡ nothing_of process }
{
    ProcessPieces {
        process,
        bound: 0,
        witness: None,
        limit: 0,
    }
}

/// The number of those that come before the process.
fn count_before(pieces: &[ProcessPieces], process: u32) -> usize
    requires { AreSorted pieces.now }
    ensures within { result ≤ length pieces.now }
    ensures before { AreBefore pieces.now result process }
    ensures others { AreNotBefore pieces.now result process }
{
    pieces.partition_point(|p| p.process < process)
}

/// The first pieces that are listed of the process, if there are any.
fn find_process(pieces: &[ProcessPieces], process: u32) -> Option<ProcessPieces>
    requires { AreSorted pieces.now }
    ensures { result ≡ find (λ p. p.process == process) pieces.now }
{
    let place = count_before(pieces, process);
    if place >= pieces.len() {
        return None;
    }
    let piece = pieces[place];
    if piece.process != process {
        return None;
    }
    Some(piece)
}

/// Puts the pieces of a process in the place of those that are listed of it, or between those of the processes before and after it.
fn put(pieces: &mut Vec<ProcessPieces>, piece: ProcessPieces) -> Result<(), AllocError>
    requires { AreSorted pieces.old.items }
    ensures sorted { AreSorted pieces.new.items }
    ensures has { OnOk result (HasPiece pieces.old.items pieces.new.items piece) }
{
    let place = count_before(pieces.as_slice(), piece.process);
    if place < pieces.len() && pieces[place].process == piece.process {
        pieces[place] = piece;
    } else {
        pieces.insert(place, piece)?;
    }
    Ok(())
}

/// The pieces of a line: for each process, by rising numbers, those that take a stretch of it, the witness against the initial value, and the main piece.
#[derive(Drop)]
pub struct SourcePieces {
    processes: Vec<ProcessPieces>,
    initial: Option<OperationPlace>,
    /// How all others are barred: `Plain` if the line has no main piece.
    main: MainPiece,
    ghost sorted: { AreSorted processes.items },
}

impl SourcePieces {
    /// No pieces.
    pub fn new(alloc: Global) -> SourcePieces
        ensures processes { result.processes.items ≡ [] }
        ensures initial { result.initial ≡ None }
        ensures main { result.main ≡ Plain }
    {
        SourcePieces {
            processes: Vec::new(alloc),
            initial: None,
            main: MainPiece::Plain,
        }
    }

    /// Forgets all pieces.
    pub fn clear(&mut self)
        ensures processes { self.new.processes.items ≡ [] }
        ensures initial { self.new.initial ≡ None }
        ensures main { self.new.main ≡ Plain }
    {
        self.processes.clear();
        self.initial = None;
        self.main = MainPiece::Plain;
    }

    /// Takes what is up to the bound in its process by the witness (`h`), and returns whether it did: a process has one such piece.
    pub fn hide(
        &mut self,
        witness: OperationPlace,
        bound: OperationPlace,
    ) -> Result<bool, AllocError>
        ensures { IfOk result (λ done. MatchBool done (Hides self.old.processes.items self.new.processes.items witness bound × (self.new.initial ≡ self.old.initial) × (self.new.main ≡ self.old.main)) (IsSome (piece_of self.old.processes.items bound.process).witness)) }
    {
        let piece = self.of_process(bound.process);
        if piece.witness.is_some() {
            return Ok(false);
        }
        let hiding = ProcessPieces {
            process: bound.process,
            bound: bound.place,
            witness: Some(witness),
            limit: piece.limit,
        };
        put(&mut self.processes, hiding)?;
        Ok(true)
    }

    /// Takes what is from the limit on in its process (`f`), and returns whether it did: a process has one such piece.
    pub fn take_later(&mut self, limit: OperationPlace) -> Result<bool, AllocError>
        ensures { IfOk result (λ done. MatchBool done (TakesLater self.old.processes.items self.new.processes.items limit × (self.new.initial ≡ self.old.initial) × (self.new.main ≡ self.old.main)) (1 ≤ (piece_of self.old.processes.items limit.process).limit)) }
    {
        let piece = self.of_process(limit.process);
        if piece.limit != 0 {
            return Ok(false);
        }
        let limited = ProcessPieces {
            process: limit.process,
            bound: piece.bound,
            witness: piece.witness,
            limit: limit.place,
        };
        put(&mut self.processes, limited)?;
        Ok(true)
    }

    /// Takes the initial value by the witness (`i`), and returns whether it did: there is one such piece.
    pub fn take_initial(&mut self, witness: OperationPlace) -> bool
        ensures { MatchBool result ((self.old.initial ≡ None) × (self.new.initial ≡ Some witness) × (self.new.processes.items ≡ self.old.processes.items) × (self.new.main ≡ self.old.main)) (IsSome self.old.initial) }
    {
        if self.initial.is_some() {
            return false;
        }
        self.initial = Some(witness);
        true
    }

    /// Takes all that no other piece takes (`H` or `L`), and returns whether it did: there is one main piece.
    pub fn take_others(&mut self, main: MainPiece) -> bool
        ensures { MatchBool result ((self.old.main ≡ Plain) × (self.new.main ≡ main) × (self.new.processes.items ≡ self.old.processes.items) × (self.new.initial ≡ self.old.initial)) (self.old.main ≢ Plain) }
    {
        if self.main != MainPiece::Plain {
            return false;
        }
        self.main = main;
        true
    }

    /// The pieces of the process.
    pub fn of_process(&self, process: u32) -> ProcessPieces
        ensures listed { Contains self.now.processes.items result ⊎ (result.witness ≡ None) }
        ensures is { result ≡ piece_of self.now.processes.items process }
    {
        match find_process(self.processes.as_slice(), process) {
            Some(piece) => piece,
            None => nothing_of(process),
        }
    }

    /// The pieces of all processes, in the order of these.
    pub fn processes(&self) -> &[ProcessPieces]
        ensures { result.now ≡ self.now.processes.items }
    {
        self.processes.as_slice()
    }

    /// The witness against the initial value.
    pub fn initial(&self) -> Option<OperationPlace>
        ensures { result ≡ self.now.initial }
    {
        self.initial
    }

    /// The main piece.
    pub fn others(&self) -> MainPiece
        ensures { result ≡ self.now.main }
    {
        self.main
    }
}

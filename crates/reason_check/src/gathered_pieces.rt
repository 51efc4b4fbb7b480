//! The pieces of a line, gathered by process.

ghost use Rattle.std.specs.Prelude.{◌≡◌, ◌++◌, ◌∷◌, [], List, IfErr, IfOk, OnOk, is_some};
ghost use Rattle.std.specs.Bool.{MatchBool};
ghost use Rattle.reason_clauses.specs.RefusedBy.{IsRefusedBy};
ghost use Rattle.reason_clauses.specs.declared.cause.ReasonCause.TheVariants.{SecondPiece};
ghost use Rattle.reason_text.specs.declared.source_piece.SourcePiece.{SourcePiece as Piece};
ghost use Rattle.reason_text.specs.declared.member_part.MemberPart.{MemberPart as Part};
ghost use Rattle.reason_text.specs.declared.member_part.MemberPart.TheVariants.{Piece as PieceOf, Reads};
ghost use Rattle.reason_check.specs.Gathered.{AreGathered, HasOfKind, HasSecond, IsLateRefused, is_late_piece, main_of};
ghost use Rattle.reason_check.specs.Members.{AreMembers, AreMembersRefused, AreWaiters, AreWaitersRefused, IsMemberOf, IsMemberPartRefused, IsPieceRefused, IsRefusedBehind, IsWaiterOf, IsWaiterPartRefused};

use reason_clauses::barring::MainPiece;
use reason_clauses::cause::{ReasonCause, ReasonRefusal};
use reason_clauses::pieces::SourcePieces;
use reason_counting::counted_members::CountedMember;
use reason_counting::waiting::{Waiter, WaitsFor};
use reason_text::member_part::MemberPart;
use reason_text::source_piece::SourcePiece;
use std::alloc::{AllocError, Global};
use writer_table::operation_place::OperationPlace;

/// Takes the piece, and returns whether it is the first one of its kind. Each process has at most one `Hidden` piece and at most
/// one `Later` piece, and all of them together at most one `Initial` piece and one that takes all others: `Others` or `Apart`.
fn take_piece(pieces: &mut SourcePieces, piece: SourcePiece) -> Result<bool, AllocError>
    ensures { IfOk result (λ done. (front : List Piece) → AreGathered front pieces.old → MatchBool done (AreGathered (front ++ piece ∷ []) pieces.new) (HasOfKind front piece)) }
{
    match piece {
        SourcePiece::Hidden(witness, bound) => pieces.hide(witness, bound),
        SourcePiece::Later(limit) => pieces.take_later(limit),
        SourcePiece::Initial(witness) => Ok(pieces.take_initial(witness)),
        SourcePiece::Others(witness) => Ok(pieces.take_others(MainPiece::Witness(witness))),
        SourcePiece::Apart(operation) => Ok(pieces.take_others(MainPiece::Between(operation))),
    }
}

/// Takes the piece, or refuses it if it is not the first one of its kind.
fn take_first(pieces: &mut SourcePieces, piece: SourcePiece) -> Result<(), ReasonRefusal>
    ensures gathered { OnOk result ((front : List Piece) → AreGathered front pieces.old → AreGathered (front ++ piece ∷ []) pieces.new) }
    ensures refused { IfErr result (IsRefusedBy (λ cause. (front : List Piece) → AreGathered front pieces.old → HasOfKind front piece × (cause ≡ SecondPiece))) }
{
    if take_piece(pieces, piece)? {
        Ok(())
    } else {
        Err(ReasonRefusal::For(ReasonCause::SecondPiece))
    }
}

/// The pieces of a reader, of which each is the first one of its kind.
pub fn gather(alloc: Global, listed: &[SourcePiece]) -> Result<SourcePieces, ReasonRefusal>
    ensures gathered { IfOk result (AreGathered listed.now) }
    ensures refused { IfErr result (IsRefusedBy (λ cause. HasSecond listed.now × (cause ≡ SecondPiece))) }
{
    let mut pieces = SourcePieces::new(alloc);
    for piece in listed {
        take_first(&mut pieces, *piece)?;
    }
    Ok(pieces)
}

/// Returns whether the piece may be one of last writers: those come after each reader, and the initial value is none of them.
fn is_late(piece: SourcePiece) -> bool
    ensures late { result ≡ is_late_piece piece }
{
    match piece {
        SourcePiece::Hidden(_witness, _bound) => true,
        SourcePiece::Later(_limit) => false,
        SourcePiece::Initial(_witness) => false,
        SourcePiece::Others(_witness) => true,
        SourcePiece::Apart(_operation) => false,
    }
}

/// Returns whether the piece takes all that no other one does.
fn is_of_others(piece: SourcePiece) -> bool
    ensures others { result ≡ is_some (main_of piece) }
{
    match piece {
        SourcePiece::Hidden(_witness, _bound) => false,
        SourcePiece::Later(_limit) => false,
        SourcePiece::Initial(_witness) => false,
        SourcePiece::Others(_witness) => true,
        SourcePiece::Apart(_operation) => true,
    }
}

/// The pieces of last writers, of which each is the first one of its kind.
pub fn gather_late(alloc: Global, listed: &[SourcePiece]) -> Result<SourcePieces, ReasonRefusal>
    ensures gathered { IfOk result (AreGathered listed.now) }
    ensures refused { IfErr result (IsRefusedBy (IsLateRefused listed.now)) }
{
    let mut pieces = SourcePieces::new(alloc);
    for piece in listed {
        if !is_late(*piece) {
            return Err(ReasonRefusal::For(ReasonCause::BadLine));
        }
        take_first(&mut pieces, *piece)?;
    }
    Ok(pieces)
}

/// An operation that reads, with no pieces yet.
fn reader(alloc: Global, operation: OperationPlace) -> Waiter
    ensures waits { IsWaiterOf (Reads operation) [] result }
{
    Waiter {
        operation,
        awaited: WaitsFor::Source(SourcePieces::new(alloc)),
    }
}

/// Takes the piece of one that waits, which has to read.
fn take_piece_of_waiter(waiter: &mut Waiter, piece: SourcePiece) -> Result<(), ReasonRefusal>
    ensures gathered { OnOk result ((head : Part) (listed : List Piece) → IsWaiterOf head listed waiter.old → IsWaiterOf head (listed ++ piece ∷ []) waiter.new) }
    ensures refused { IfErr result (IsRefusedBy (λ cause. (head : Part) (listed : List Piece) → IsWaiterOf head listed waiter.old → IsRefusedBehind head listed piece cause)) }
{
    match &mut waiter.awaited {
        WaitsFor::Operation(_other) => Err(ReasonRefusal::For(ReasonCause::BadLine)),
        WaitsFor::Source(pieces) => take_first(pieces, piece),
    }
}

/// Takes the piece of the last of those that wait. A piece that takes all others is none of its.
fn take_piece_of_last(waiters: &mut Vec<Waiter>, piece: SourcePiece) -> Result<(), ReasonRefusal>
    ensures gathered { OnOk result ((front : List Part) → AreWaiters front waiters.old.items → AreWaiters (front ++ PieceOf piece ∷ []) waiters.new.items) }
    ensures refused { IfErr result (IsRefusedBy (λ cause. (front : List Part) → AreWaiters front waiters.old.items → IsPieceRefused front piece cause)) }
{
    let count = waiters.len();
    if count == 0 || is_of_others(piece) {
        return Err(ReasonRefusal::For(ReasonCause::BadLine));
    }
    take_piece_of_waiter(&mut waiters[count - 1], piece)
}

/// Takes a part of a line of operations that wait.
fn take_waiting(
    alloc: Global,
    waiters: &mut Vec<Waiter>,
    part: MemberPart<'_>,
) -> Result<(), ReasonRefusal>
    ensures gathered { OnOk result ((front : List Part) → AreWaiters front waiters.old.items → AreWaiters (front ++ part.entry ∷ []) waiters.new.items) }
    ensures refused { IfErr result (IsRefusedBy (λ cause. (front : List Part) → AreWaiters front waiters.old.items → IsWaiterPartRefused front part.entry cause)) }
{
    match part {
        MemberPart::Reads(operation) => {
            waiters.push(reader(alloc, operation))?;
            Ok(())
        }
        MemberPart::Waits(pair) => {
            waiters.push(Waiter {
                operation: pair.first,
                awaited: WaitsFor::Operation(pair.second),
            })?;
            Ok(())
        }
        MemberPart::Ends(_location) => Err(ReasonRefusal::For(ReasonCause::BadLine)),
        MemberPart::Piece(piece) => take_piece_of_last(waiters, piece),
    }
}

/// The operations that wait, each with its pieces.
pub fn gather_waiters(alloc: Global, parts: &[MemberPart<'_>]) -> Result<Vec<Waiter>, ReasonRefusal>
    ensures gathered { IfOk result (λ waiters. AreWaiters parts.now waiters.items) }
    ensures refused { IfErr result (IsRefusedBy (AreWaitersRefused parts.now)) }
{
    let mut waiters = Vec::new(alloc);
    for part in parts {
        take_waiting(alloc, &mut waiters, *part)?;
    }
    Ok(waiters)
}

/// Takes the piece of a member. An end has those of last writers alone.
fn take_piece_of_counted(
    member: &mut CountedMember<'_>,
    piece: SourcePiece,
) -> Result<(), ReasonRefusal>
    ensures gathered { OnOk result ((head : Part) (listed : List Piece) → IsMemberOf head listed member.old → IsMemberOf head (listed ++ piece ∷ []) member.new) }
    ensures refused { IfErr result (IsRefusedBy (λ cause. (head : Part) (listed : List Piece) → IsMemberOf head listed member.old → IsRefusedBehind head listed piece cause)) }
{
    match member {
        CountedMember::Update(_n, pieces) => take_first(pieces, piece),
        CountedMember::End(_location, pieces) => {
            if !is_late(piece) {
                return Err(ReasonRefusal::For(ReasonCause::BadLine));
            }
            take_first(pieces, piece)
        }
    }
}

/// Takes the piece of the last member. A piece that takes all others is none of its.
fn take_piece_of_member(
    members: &mut Vec<CountedMember<'_>>,
    piece: SourcePiece,
) -> Result<(), ReasonRefusal>
    ensures gathered { OnOk result ((front : List Part) → AreMembers front members.old.items → AreMembers (front ++ PieceOf piece ∷ []) members.new.items) }
    ensures refused { IfErr result (IsRefusedBy (λ cause. (front : List Part) → AreMembers front members.old.items → IsPieceRefused front piece cause)) }
{
    let count = members.len();
    if count == 0 || is_of_others(piece) {
        return Err(ReasonRefusal::For(ReasonCause::BadLine));
    }
    take_piece_of_counted(&mut members[count - 1], piece)
}

/// Takes a part of a line of members.
fn take_member<'a>(
    alloc: Global,
    members: &mut Vec<CountedMember<'a>>,
    part: MemberPart<'a>,
) -> Result<(), ReasonRefusal>
    ensures gathered { OnOk result ((front : List Part) → AreMembers front members.old.items → AreMembers (front ++ part.entry ∷ []) members.new.items) }
    ensures refused { IfErr result (IsRefusedBy (λ cause. (front : List Part) → AreMembers front members.old.items → IsMemberPartRefused front part.entry cause)) }
{
    match part {
        MemberPart::Reads(n) => {
            members.push(CountedMember::Update(n, SourcePieces::new(alloc)))?;
            Ok(())
        }
        MemberPart::Ends(location) => {
            members.push(CountedMember::End(location, SourcePieces::new(alloc)))?;
            Ok(())
        }
        MemberPart::Waits(_pair) => Err(ReasonRefusal::For(ReasonCause::BadLine)),
        MemberPart::Piece(piece) => take_piece_of_member(members, piece),
    }
}

/// The members, each with its pieces.
pub fn gather_members<'a>(
    alloc: Global,
    parts: &[MemberPart<'a>],
) -> Result<Vec<CountedMember<'a>>, ReasonRefusal>
    ensures gathered { IfOk result (λ members. AreMembers parts.now members.items) }
    ensures refused { IfErr result (IsRefusedBy (AreMembersRefused parts.now)) }
{
    let mut members = Vec::new(alloc);
    for part in parts {
        take_member(alloc, &mut members, *part)?;
    }
    Ok(members)
}

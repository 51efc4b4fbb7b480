//! Blocks of pieces, which are decided side by side.

ghost use Rattle.std.specs.Prelude.{◌≡◌, ◌+◌, ◌≤◌, [], true, IfOk, length};
ghost use Rattle.batch_report.specs.Blocks.{AreCutOff};

use crate::piece_verdict::PieceVerdict;
use std::alloc::{AllocError, Global};
use trace_pieces::cut_piece;

/// A piece of a text, and how many lines stand before it.
#[derive(Clone, Copy)]
pub struct PlacedPiece<'a> {
    /// The piece.
    pub text: &'a [u8],
    /// The number of lines before it.
    pub before: usize,
}

/// The first pieces of a text, and what follows them.
#[derive(Drop)]
pub struct Block<'a> {
    /// The pieces, in their order.
    pub pieces: Vec<PlacedPiece<'a>>,
    /// What follows them.
    pub rest: &'a [u8],
    /// The number of lines before that.
    pub before: usize,
}

/// A piece that is decided.
#[derive(Clone, Copy)]
pub struct DecidedPiece<'a> {
    /// The piece.
    pub piece: PlacedPiece<'a>,
    /// The verdict on it.
    pub verdict: PieceVerdict,
}

/// A piece that is decided, and where it stands.
#[derive(Clone, Copy)]
pub struct NumberedPiece<'a> {
    /// The file as its lines name it.
    pub file: &'a str,
    /// The number of the piece in the file, from 1.
    pub number: usize,
    /// The piece and its verdict.
    pub found: DecidedPiece<'a>,
}

/// The verdicts on the first pieces of a text, and what follows them.
#[derive(Drop)]
pub struct DecidedBlock<'a> {
    /// The pieces, in their order.
    pub pieces: Vec<PlacedPiece<'a>>,
    /// The verdicts, in the order of the pieces.
    pub verdicts: Vec<PieceVerdict>,
    /// What follows the pieces.
    pub rest: &'a [u8],
    /// The number of lines before that.
    pub before: usize,
}

/// Cuts off the first pieces of a text behind a number of lines of the file: all that end in the text, which may go on unless it is the last one. A piece
/// ends where the header of the next one is read, so the last piece of a text that may go on is left in the rest.
pub(crate) fn cut_block(
    alloc: Global,
    text: &[u8],
    is_last: bool,
    before: usize,
) -> Result<Block<'_>, AllocError>
    requires few { before + length text.now ≤ 9000000000000000000 }
    ensures cut { IfOk result (λ block. AreCutOff is_last before text.now block.pieces.items block.before block.rest.now) }
    ensures few { IfOk result (λ block. length block.pieces.items + length block.rest.now ≤ length text.now) }
    ensures all { is_last ≡ true → IfOk result (λ block. block.rest.now ≡ []) }
{
    let mut pieces = Vec::new(alloc);
    let mut rest = text;
    let mut passed = before;
    while let Some(cut) = cut_piece(rest, is_last) {
        pieces.push(PlacedPiece {
            text: cut.piece,
            before: passed,
        })?;
        passed += cut.lines;
        rest = cut.rest;
    }
    Ok(Block {
        pieces,
        rest,
        before: passed,
    })
}

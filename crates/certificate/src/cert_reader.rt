//! The reader of a certificate's text.

ghost use Rattle.std.specs.Prelude.{◌≡◌, ◌<◌, ◌≤◌, ◌+◌, ◌*◌, ◌^◌, length, IfOk, IfErr};
ghost use Rattle.text_lines.specs.Fault.{IsRefusal};
ghost use Rattle.cube_tree.specs.TreeText.{SpellsTree, tree_lines};
ghost use Rattle.certificate.specs.CertFaults.{LacksHeader, HasCertFault};
ghost use Rattle.certificate.specs.CertText.{IsHeaded, SpellsCertificate};
ghost use Rattle.certificate.specs.CertCause.{of_tree};
ghost use Rattle.certificate.specs.CertRead.{BeginsWithTree, HasTreeFaultBehind};

use crate::cert_fault::{CertCause, CertFault};
use crate::cert_line::is_header_line;
use crate::certificate::Certificate;
use crate::section_reader::read_sections;
use cube_tree::tree_laws::other_lines_are_behind;
use cube_tree::{Tree, TreeCause, read_tree};
use std::alloc::Global;
use text_lines::comments::is_dimacs_skipped_line;
use text_lines::fault::PlacedFault;
use text_lines::lines::cut_line;

/// Gives what follows the header, and the number of its line. If there is none, the fault stands at the first line that is neither the
/// header nor skipped, or after the last line.
fn read_header(text: &[u8]) -> Result<(&[u8], usize), CertFault>
    ensures headed { IfOk result (λ read. IsHeaded text.now read.0.now read.1) }
    ensures shorter { IfOk result (λ read. read.1 + length read.0.now ≤ length text.now) }
    ensures faulty { IfErr result (λ fault. IsRefusal (LacksHeader text.now) fault) }
{
    let mut number = 0usize;
    let mut rest = text;
    while let Some((line, after)) = cut_line(rest) {
        number += 1;
        if is_header_line(line) {
            return Ok((after, number));
        }
        if !is_dimacs_skipped_line(line) {
            return Err(CertFault::At(CertCause::Header, number));
        }
        rest = after;
    }
    Err(CertFault::At(CertCause::Header, number + 1))
}

/// Gives what is wrong with the tree, as it is reported of the certificate.
fn cause_of_tree(cause: TreeCause) -> CertCause
    ensures { result ≡ of_tree cause }
{
    match cause {
        TreeCause::BadLine => CertCause::BadTree,
        TreeCause::TooDeep => CertCause::TooDeep,
        TreeCause::TooManyLeaves => CertCause::TooManyLeaves,
    }
}

/// The tree at the beginning of the text, which stands after `before` lines of the certificate, and the number of bytes that it takes.
fn read_tree_behind(alloc: Global, text: &[u8], before: usize) -> Result<(Tree, usize), CertFault>
    requires { before + length text.now + 2 < 2 ^ 64 }
    ensures spelled { IfOk result (λ read. SpellsTree text.now read.0 read.1) }
    ensures faulty { IfErr result (λ fault. IsRefusal (HasTreeFaultBehind before text.now) fault) }
{
    match read_tree(alloc, text) {
        Ok(read) => Ok(read),
        Err(PlacedFault::OutOfMemory) => Err(CertFault::OutOfMemory),
        Err(PlacedFault::At(cause, place)) => Err(CertFault::At(
            cause_of_tree(cause),
            before + place,
        )),
    }
}

/// The number of lines of the tree: one for each node, and a tree has one split fewer than leaves.
fn count_lines(tree: &Tree) -> usize
    ensures lines { result ≡ length (tree_lines tree.now) }
    ensures few { result < 2048 }
{
    tree.recall_cover();
    2 * tree.leaves() as usize - 1
}

/// The tree of a certificate's text, what follows it, and the number of lines before that. What follows is a copy, so that the whole text can
/// be dropped.
fn read_start(alloc: Global, text: &[u8]) -> Result<(Tree, Vec<u8>, usize), CertFault>
    ensures begun { IfOk result (λ read. BeginsWithTree text.now read.0 read.2 read.1.items) }
    ensures room { IfOk result (λ read. read.2 + length read.1.items + 2 < 2 ^ 64) }
    ensures faulty { IfErr result (λ fault. IsRefusal (HasCertFault text.now) fault) }
{
    // A law, which does nothing when run: the tree's bytes are within the text, and the lines behind them are the others of the text.
    other_lines_are_behind();
    let (behind, header) = read_header(text)?;
    let (tree, bytes) = read_tree_behind(alloc, behind, header)?;
    let lines = count_lines(&tree);
    let rest = Vec::from_slice(alloc, &behind[bytes..])?;
    Ok((tree, rest, header + lines))
}

/// Reads as `read_start` does. The text is dropped.
fn take_start(alloc: Global, text: Vec<u8>) -> Result<(Tree, Vec<u8>, usize), CertFault>
    ensures begun { IfOk result (λ read. BeginsWithTree text.items read.0 read.2 read.1.items) }
    ensures room { IfOk result (λ read. read.2 + length read.1.items + 2 < 2 ^ 64) }
    ensures faulty { IfErr result (λ fault. IsRefusal (HasCertFault text.items) fault) }
{
    read_start(alloc, text.as_slice())
}

/// The certificate that the text spells, as [`read_cert`] reads it. The text, which may be long, is dropped while it is read.
pub fn take_cert(alloc: Global, text: Vec<u8>) -> Result<Certificate, CertFault>
    ensures spelled { IfOk result (λ certificate. SpellsCertificate text.items certificate) }
    ensures faulty { IfErr result (λ fault. IsRefusal (HasCertFault text.items) fault) }
{
    let (tree, rest, lines) = take_start(alloc, text)?;
    let sections = read_sections(alloc, rest, lines)?;
    Ok(Certificate { tree, sections })
}

/// The certificate that the text spells.
///
/// Its first line that is not skipped is `vsc-cert 1`. At once after it stands a tree, and after that one section after the other: a
/// line `proof` with a leaf's number, a derivation (LRAT, CADE 2017), and a line `end`. Lines without words and those whose first word
/// begins with `c` are skipped outside the tree. The error is the first fault of the text, with its line, counted from 1, or
/// `OutOfMemory`, which says nothing of the text. Whether the certificate shows anything is for [`recheck`](crate::recheck).
pub fn read_cert(alloc: Global, text: &[u8]) -> Result<Certificate, CertFault>
    ensures spelled { IfOk result (λ certificate. SpellsCertificate text.now certificate) }
    ensures faulty { IfErr result (λ fault. IsRefusal (HasCertFault text.now) fault) }
{
    take_cert(alloc, Vec::from_slice(alloc, text)?)
}

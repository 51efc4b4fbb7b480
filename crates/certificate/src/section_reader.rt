//! The reader of the sections of a certificate's text.

ghost use Rattle.std.specs.Prelude.{◌≡◌, ◌<◌, ◌+◌, ◌-◌, ◌^◌, length, nat_le, IfOk, IfErr};
ghost use Rattle.text_lines.specs.Fault.{IsRefusal};
ghost use Rattle.text_lines.specs.Lines.{lines_of};
ghost use Rattle.lrat_check.specs.LratText.{SpellsDerivation};
ghost use Rattle.certificate.specs.CertText.{AreSections};
ghost use Rattle.certificate.specs.CertRead.{AreReadUpTo, HasLratFaultBehind, HasSectionFaultBehind};

use crate::cert_fault::{CertCause, CertFault};
use crate::cert_line::read_begin;
use crate::certificate::Section;
use crate::section_text::cut_section;
use lrat_check::derivation::Derivation;
use lrat_check::lrat_fault::LratFault;
use lrat_check::lrat_reader::read_lrat;
use plain_lists::PlainList;
use std::alloc::Global;
use text_lines::comments::is_dimacs_skipped_line;
use text_lines::lines::cut_line;

/// The derivation that the lines spell, which stand after `before` lines of the certificate.
fn read_steps(alloc: Global, lines: &[u8], before: usize) -> Result<Derivation, CertFault>
    requires { before + length lines.now + 1 < 2 ^ 64 }
    ensures spelled { IfOk result (λ derivation. SpellsDerivation lines.now derivation) }
    ensures faulty { IfErr result (λ fault. IsRefusal (HasLratFaultBehind before lines.now) fault) }
{
    match read_lrat(alloc, lines) {
        Ok(derivation) => Ok(derivation),
        Err(LratFault::OutOfMemory) => Err(CertFault::OutOfMemory),
        Err(LratFault::At(_, place)) => Err(CertFault::At(CertCause::BadLrat, before + place)),
    }
}

/// Returns whether no more of the text is left than was read. Each copy of a rest then takes at most half the bytes of the text before it, and
/// all copies together take at most the bytes of the first text.
fn is_past_half(rest: &[u8], text: &[u8]) -> bool
    ensures { result ≡ nat_le (length rest.now) (length text.now - length rest.now) }
{
    rest.len() <= text.len().saturating_sub(rest.len())
}

/// The sections of the first half of the text, which stands after `before` lines of the certificate, the rest of the text, and the number
/// of lines before it. The section in which the half ends is read whole.
fn read_half(
    alloc: Global,
    text: &[u8],
    before: usize,
) -> Result<(Vec<Section>, &[u8], usize), CertFault>
    requires room { before + length text.now + 2 < 2 ^ 64 }
    requires some { 0 < length text.now }
    ensures spelled { IfOk result (λ read. AreReadUpTo before text.now read.2 read.1.now read.0.items) }
    ensures shorter { IfOk result (λ read. length read.1.now < length text.now) }
    ensures faulty { IfErr result (λ fault. IsRefusal (HasSectionFaultBehind before (lines_of text.now)) fault) }
{
    let mut sections = Vec::new(alloc);
    let mut number = before;
    let mut rest = text;
    while let Some((line, after)) = cut_line(rest) {
        number += 1;
        rest = after;
        if is_dimacs_skipped_line(line) {
            continue;
        }
        let Some(leaf) = read_begin(line) else {
            return Err(CertFault::At(CertCause::BadLine, number));
        };
        let (inside, from_end, count) = cut_section(after);
        // The steps are read before the `end` is looked for, since a fault in them stands on an earlier line.
        let derivation = read_steps(alloc, inside, number)?;
        number += count + 1;
        let Some((_, behind)) = cut_line(from_end) else {
            return Err(CertFault::At(CertCause::BadLine, number));
        };
        sections.push(Section { leaf, derivation })?;
        rest = behind;
        if is_past_half(rest, text) {
            return Ok((sections, rest, number));
        }
    }
    Ok((sections, rest, number))
}

/// Reads as `read_half` does, and drops what was read: the rest is a copy.
fn take_half(
    alloc: Global,
    text: Vec<u8>,
    before: usize,
) -> Result<(Vec<Section>, Vec<u8>, usize), CertFault>
    requires room { before + length text.items + 2 < 2 ^ 64 }
    requires some { 0 < length text.items }
    ensures spelled { IfOk result (λ read. AreReadUpTo before text.items read.2 read.1.items read.0.items) }
    ensures shorter { IfOk result (λ read. length read.1.items < length text.items) }
    ensures faulty { IfErr result (λ fault. IsRefusal (HasSectionFaultBehind before (lines_of text.items)) fault) }
{
    let (sections, rest, number) = read_half(alloc, text.as_slice(), before)?;
    let rest = Vec::from_slice(alloc, rest)?;
    Ok((sections, rest, number))
}

/// The sections that the text spells, which stands after `before` lines of the certificate. The text is dropped by halves while it is
/// read, since it may be long and the derivations take memory too.
pub(crate) fn read_sections(
    alloc: Global,
    text: Vec<u8>,
    before: usize,
) -> Result<PlainList<Section>, CertFault>
    requires { before + length text.items + 2 < 2 ^ 64 }
    ensures spelled { IfOk result (λ sections. AreSections (lines_of text.items) sections) }
    ensures faulty { IfErr result (λ fault. IsRefusal (HasSectionFaultBehind before (lines_of text.items)) fault) }
{
    let mut sections = Vec::new(alloc);
    let mut number = before;
    let mut rest = text;
    while !rest.is_empty() {
        let (mut read, behind, count) = take_half(alloc, rest, number)?;
        sections.append(&mut read)?;
        number = count;
        rest = behind;
    }
    Ok(PlainList::new(sections))
}

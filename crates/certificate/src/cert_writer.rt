//! The writer of a certificate's text.
//!
//! A certificate is a split tree and, for each of its leaves, a section: the derivation that refutes the leaf's cube.

ghost use Rattle.std.specs.Prelude.{◌≡◌, ◌+◌, ◌<◌, ◌++◌, codes, length, IfOk, IfErr, OnOk, OnErr};
ghost use Rattle.std.specs.Fmt.{decimal};
ghost use Rattle.dimacs.specs.Sink.{AppendsFront};
ghost use Rattle.dimacs.specs.SinkFault.{failures_told};
ghost use Rattle.certificate.specs.CertWritten.{front_text, section_text, canonical_certificate, certificate_of};

use cube_tree::{Tree, write_tree};
use dimacs::{Sink, SinkFault, write_whole};
use itoa::Buffer;
use lrat_check::derivation::Derivation;
use lrat_check::lrat_writer::write_lrat;
use std::alloc::{AllocError, Global};

/// The header and the tree.
fn write_front(alloc: Global, tree: &Tree) -> Result<Vec<u8>, AllocError>
    ensures { IfOk result (λ text. text.items ≡ front_text tree.now) }
{
    let nodes = write_tree(alloc, tree)?;
    let mut text = Vec::new(alloc);
    text.extend_from_slice(b"vsc-cert 1\n")?;
    text.extend_from_slice(nodes.as_slice())?;
    Ok(text)
}

/// The first line of the section of this leaf.
fn write_begin(alloc: Global, leaf: usize) -> Result<Vec<u8>, AllocError>
    ensures { IfOk result (λ text. text.items ≡ codes "proof " ++ (decimal leaf ++ codes "\n")) }
{
    let mut buffer = Buffer::new();
    let mut text = Vec::new(alloc);
    text.extend_from_slice(b"proof ")?;
    text.extend_from_slice(buffer.format(leaf).as_bytes())?;
    text.extend_from_slice(b"\n")?;
    Ok(text)
}

/// Writes the section of this leaf. Its derivation's text is made whole, and dropped once the sink has it.
fn write_section<W: Sink>(
    alloc: Global,
    leaf: usize,
    derivation: &Derivation,
    sink: &mut W,
) -> Result<(), SinkFault>
    ensures whole { OnOk result (W.written sink.new ≡ W.written sink.old ++ section_text (record { leaf = leaf; derivation = derivation.now })) }
    ensures well { OnOk result (W.failures sink.new ≡ W.failures sink.old) }
    ensures front { OnErr result (AppendsFront (W.written sink.old) (W.written sink.new) (section_text (record { leaf = leaf; derivation = derivation.now }))) }
    ensures failed { IfErr result (λ fault. W.failures sink.new ≡ W.failures sink.old + failures_told fault) }
    ensures same { W.path sink.new ≡ W.path sink.old }
{
    let begin = write_begin(alloc, leaf)?;
    let steps = write_lrat(alloc, derivation)?;
    write_whole(sink, begin.as_slice())?;
    write_whole(sink, steps.as_slice())?;
    write_whole(sink, b"end\n")?;
    Ok(())
}

/// Writes the text of the certificate of this tree and of these derivations for its leaves, by rising leaf, one section after the other.
/// If memory runs out or the sink fails, the sink has taken a prefix of it. The caller gives one derivation for each leaf: of fewer the text
/// is a certificate too, but `recheck` refuses it as `Missing`.
pub fn write_cert<W: Sink>(
    alloc: Global,
    tree: &Tree,
    derivations: &[Derivation],
    sink: &mut W,
) -> Result<(), SinkFault>
    ensures whole { OnOk result (W.written sink.new ≡ W.written sink.old ++ canonical_certificate (certificate_of tree.now derivations.now)) }
    ensures well { OnOk result (W.failures sink.new ≡ W.failures sink.old) }
    ensures front { OnErr result (AppendsFront (W.written sink.old) (W.written sink.new) (canonical_certificate (certificate_of tree.now derivations.now))) }
    ensures failed { IfErr result (λ fault. W.failures sink.new ≡ W.failures sink.old + failures_told fault) }
    ensures same { W.path sink.new ≡ W.path sink.old }
{
    let front = write_front(alloc, tree)?;
    write_whole(sink, front.as_slice())?;
    for leaf in 0..derivations.len() {
        write_section(alloc, leaf, &derivations[leaf], sink)?;
    }
    Ok(())
}

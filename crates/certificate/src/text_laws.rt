//! Laws of a certificate's text.
//!
//! A law's body is empty, or calls other laws: what it says is proved in the folder of its name in `proofs/text_laws`, or needs no
//! answer. Who calls it has what it says in proofs; the call does nothing when run.

ghost use Rattle.std.specs.Prelude.{◌≡◌, ◌≤◌, ◌⊎◌, ℕ, List, length, true};
ghost use Rattle.std.specs.List.{list_all};
ghost use Rattle.cube_tree.specs.CubeTree.{CubeTree, IsCubeTree};
ghost use Rattle.lrat_check.specs.LratText.{is_lrat_step};
ghost use Rattle.lrat_check.specs.declared.derivation.Step.{Step};
ghost use Rattle.certificate.specs.CertFaults.{HasCertFault};
ghost use Rattle.certificate.specs.CertText.{SpellsCertificate};
ghost use Rattle.certificate.specs.CertWritten.{canonical_certificate, certificate_of, AreWritable};
ghost use Rattle.certificate.specs.declared.cert_fault.CertCause.{CertCause};
ghost use Rattle.certificate.specs.declared.certificate.Certificate.{Certificate};

/// A text spells at most one certificate.
pub fn one_certificate()
    ensures { (text : List ℕ) (c d : Certificate) → SpellsCertificate text c → SpellsCertificate text d → c ≡ d }
{}

/// A text has at most one first fault.
pub fn one_cert_fault()
    ensures { (text : List ℕ) (c d : CertCause) (p q : ℕ) → HasCertFault text c p → HasCertFault text d q → (c ≡ d) × (p ≡ q) }
{}

/// A text that spells a certificate has no fault.
pub fn never_spelled_and_faulty()
    ensures { (text : List ℕ) (certificate : Certificate) (cause : CertCause) (line : ℕ) →
        SpellsCertificate text certificate → HasCertFault text cause line → ⊥ }
{}

/// Each text spells a certificate or has a first fault.
pub fn spelled_or_faulty()
    ensures { (text : List ℕ) →
        ((certificate : Certificate) × SpellsCertificate text certificate) ⊎ ((cause : CertCause) × (line : ℕ) × HasCertFault text cause line) }
{}

/// The canonical text of a certificate that can be written spells it.
pub fn canonical_spells()
    ensures { (certificate : Certificate) → IsCubeTree certificate.tree → AreWritable certificate.sections → SpellsCertificate (canonical_certificate certificate) certificate }
{}

/// What is written of a tree and derivations is read back if their steps can be written.
pub fn written_is_read()
    ensures { (tree : CubeTree) (derivations : List (List Step)) → IsCubeTree tree → length derivations ≤ 1024 → list_all (λ steps. list_all is_lrat_step steps) derivations ≡ true →
        SpellsCertificate (canonical_certificate (certificate_of tree derivations)) (certificate_of tree derivations) }
{}

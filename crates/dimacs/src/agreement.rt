//! The two clauses that say that three literals agree: if the first two are alike, the third is what they are.
ghost use Rattle.std.specs.Prelude.{◌≡◌, ◌+◌, ◌≤◌, [], ◌∷◌, ◌++◌, length, take, neg_ℤ, IfSome};
ghost use Rattle.std.specs.List.{flat_map};
ghost use Rattle.dimacs.specs.CnfText.{clause_line, literal_text};

use crate::line_buffer::{put_bytes, put_short_clause};
use crate::literal::Lit;
use crate::variable_table::{VariableTable, VariableText};
use std::marker::Model;

/// Maximum length of both lines, in bytes. It is twice `SHORT_LINE`, since `put_short_clause` asks for that room for each line; six literals and
/// two ends need less.
pub(crate) const AGREEMENT: usize = 84;

/// Three literals that agree.
#[derive(Clone, Copy)]
pub(crate) struct AgreeingLiterals {
    pub(crate) first: Lit,
    pub(crate) second: Lit,
    /// What the first two are, if they are alike.
    pub(crate) third: Lit,
}

impl AgreeingLiterals {
    /// The literals of the clause that says that the third is true if the first two are.
    #[inline(always)]
    pub(crate) fn if_true(&self) -> [Lit; 3]
        ensures { result ≡ neg_ℤ self.now.first ∷ neg_ℤ self.now.second ∷ self.now.third ∷ [] }
    {
        [self.first.negated(), self.second.negated(), self.third]
    }

    /// The literals of the clause that says that the third is false if the first two are.
    #[inline(always)]
    pub(crate) fn if_false(&self) -> [Lit; 3]
        ensures { result ≡ self.now.first ∷ self.now.second ∷ neg_ℤ self.now.third ∷ [] }
    {
        [self.first, self.second, self.third.negated()]
    }
}

/// The texts of the three literals, each of which says that its variable is true.
#[derive(Drop)]
struct AgreementTexts {
    first: VariableText,
    second: VariableText,
    third: VariableText,
}

impl Model for AgreementTexts {
    ghost use Rattle.std.specs.Prelude.{ℕ, List, ◌∷◌, ◌++◌, codes};

    /// The two lines.
    ghost Value = { List ℕ };

    ghost view = { λ texts. (45 ∷ texts.first ++ (45 ∷ texts.second ++ (texts.third ++ codes "0\n"))) ++ (texts.first ++ (texts.second ++ (45 ∷ texts.third ++ codes "0\n"))) };
}

impl AgreementTexts {
    /// The texts of the three literals, if the table has them. It has none of a literal that says that its variable is false.
    #[inline(always)]
    fn of(literals: &AgreeingLiterals, table: &VariableTable) -> Option<AgreementTexts>
        ensures { IfSome result (λ texts. texts ≡ flat_map clause_line ((neg_ℤ literals.now.first ∷ neg_ℤ literals.now.second ∷ literals.now.third ∷ []) ∷ (literals.now.first ∷ literals.now.second ∷ neg_ℤ literals.now.third ∷ []) ∷ [])) }
    {
        Some(AgreementTexts {
            first: table.text_of(literals.first)?,
            second: table.text_of(literals.second)?,
            third: table.text_of(literals.third)?,
        })
    }

    /// Writes both lines.
    #[inline(always)]
    fn put(&self, buffer: &mut [u8], at: usize) -> usize
        requires room { at + AGREEMENT ≤ length buffer.old }
        ensures within { result ≤ length buffer.new }
        ensures written { take result buffer.new ≡ take at buffer.old ++ self.now }
    {
        let end = self.first.put_negated(buffer, at);
        let end = self.second.put_negated(buffer, end);
        let end = self.third.put(buffer, end);
        let end = put_bytes(b"0\n", buffer, end);
        let end = self.first.put(buffer, end);
        let end = self.second.put(buffer, end);
        let end = self.third.put_negated(buffer, end);
        put_bytes(b"0\n", buffer, end)
    }
}

/// Writes the lines one after the other.
#[inline(never)]
fn put_one_by_one(
    literals: &AgreeingLiterals,
    table: &VariableTable,
    buffer: &mut [u8],
    at: usize,
) -> usize
    requires { at + AGREEMENT ≤ length buffer.old }
    ensures within { result ≤ length buffer.new }
    ensures written { take result buffer.new ≡ take at buffer.old ++ flat_map clause_line ((neg_ℤ literals.now.first ∷ neg_ℤ literals.now.second ∷ literals.now.third ∷ []) ∷ (literals.now.first ∷ literals.now.second ∷ neg_ℤ literals.now.third ∷ []) ∷ []) }
{
    let end = put_short_clause(&literals.if_true(), table, buffer, at);
    put_short_clause(&literals.if_false(), table, buffer, end)
}

/// Writes the lines of both clauses: at once, if the table has the variables' texts.
#[inline(always)]
pub(crate) fn put_both_lines(
    literals: AgreeingLiterals,
    table: &VariableTable,
    buffer: &mut [u8],
    at: usize,
) -> usize
    requires { at + AGREEMENT ≤ length buffer.old }
    ensures within { result ≤ length buffer.new }
    ensures written { take result buffer.new ≡ take at buffer.old ++ flat_map clause_line ((neg_ℤ literals.first ∷ neg_ℤ literals.second ∷ literals.third ∷ []) ∷ (literals.first ∷ literals.second ∷ neg_ℤ literals.third ∷ []) ∷ []) }
{
    match AgreementTexts::of(&literals, table) {
        Some(texts) => texts.put(buffer, at),
        None => put_one_by_one(&literals, table, buffer, at),
    }
}

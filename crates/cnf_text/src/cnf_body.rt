//! The clauses of a formula's text, word by word.

ghost use Rattle.std.specs.Prelude.{◌≡◌, ◌≤◌, ◌<◌, [], ◌∷◌, ◌++◌, length, true, OnOk, IfErr, IfOk};
ghost use Rattle.text_lines.specs.Words.{words_of};
ghost use Rattle.cnf_text.specs.CnfProgress.{TakesWord, TakesLine, IsWordRefusal, IsLineRefusal, fault_at_end};
ghost use Rattle.text_lines.specs.declared.fault.PlacedFault.TheVariants.{OutOfMemory};

use crate::cnf_fault::{CnfCause, CnfFault};
use crate::cnf_header::Counts;
use crate::cnf_words::read_literal;
use dimacs::{Clause, Lit, MAX_VARIABLE};
use std::alloc::{AllocError, Global};
use text_lines::fault::PlacedFault;
use text_lines::words::cut_word;

/// The clauses so far, and the literals of one that is not ended yet.
#[derive(Drop)]
pub(crate) struct Body {
    /// The clauses.
    pub clauses: Vec<Clause>,
    /// The literals of the next one.
    pub begun: Vec<Lit>,
}

impl Body {
    /// No clause and no literal.
    pub fn new(alloc: Global) -> Body
        ensures clauses { result.clauses.items ≡ [] }
        ensures begun { result.begun.items ≡ [] }
    {
        Body {
            clauses: Vec::new(alloc),
            begun: Vec::new(alloc),
        }
    }

    /// Ends the clause that was begun. If no literal was begun, that is the empty clause.
    fn end_clause(&mut self, alloc: Global) -> Result<(), CnfFault>
        ensures clauses { OnOk result (self.new.clauses.items ≡ self.old.clauses.items ++ self.old.begun.items ∷ []) }
        ensures begun { OnOk result (self.new.begun.items ≡ []) }
        ensures refused { IfErr result (λ fault. fault ≡ OutOfMemory) }
    {
        let clause = Clause::from_slice(alloc, self.begun.as_slice())?;
        self.clauses.push(clause)?;
        self.begun.clear();
        Ok(())
    }

    /// Takes the word of that line, if it goes on with the clauses that the header announces.
    fn take_word(
        &mut self,
        alloc: Global,
        counts: Counts,
        number: usize,
        word: &[u8],
    ) -> Result<(), CnfFault>
        requires { counts.variables ≤ MAX_VARIABLE }
        ensures taken { OnOk result (TakesWord (record { variables = counts.variables; clauses = counts.clauses }) word.now self.old.clauses.items self.old.begun.items self.new.clauses.items self.new.begun.items) }
        ensures refused { IfErr result (λ fault. IsWordRefusal (record { variables = counts.variables; clauses = counts.clauses }) (length self.old.clauses.items) number word.now fault) }
    {
        // first, since any word after the last clause is `Trailing`, also one that is no number
        if self.clauses.len() >= counts.clauses as usize {
            return Err(PlacedFault::At(CnfCause::Trailing, number));
        }
        match read_literal(word, counts.variables) {
            Ok(Some(literal)) => {
                self.begun.push(literal)?;
                Ok(())
            }
            Ok(None) => self.end_clause(alloc),
            Err(cause) => Err(PlacedFault::At(cause, number)),
        }
    }

    /// Takes the words of the line of that number.
    pub fn take_line(
        &mut self,
        alloc: Global,
        counts: Counts,
        number: usize,
        line: &[u8],
    ) -> Result<(), CnfFault>
        requires { counts.variables ≤ MAX_VARIABLE }
        ensures taken { OnOk result (TakesLine (record { variables = counts.variables; clauses = counts.clauses }) number line.now self.old.clauses.items self.old.begun.items self.new.clauses.items self.new.begun.items) }
        ensures refused { IfErr result (λ fault. IsLineRefusal (record { variables = counts.variables; clauses = counts.clauses }) number line.now self.old.clauses.items self.old.begun.items fault) }
    {
        let mut rest = line;
        while let Some((word, after)) = cut_word(rest) {
            self.take_word(alloc, counts, number, word)?;
            rest = after;
        }
        Ok(())
    }

    /// Gives what is wrong if the text ends here.
    pub fn fault_at_end(&self, counts: Counts) -> Option<CnfCause>
        ensures { result ≡ fault_at_end (record { variables = counts.variables; clauses = counts.clauses }) self.now.clauses.items self.now.begun.items }
    {
        if !self.begun.is_empty() {
            return Some(CnfCause::Unended);
        }
        if self.clauses.len() < counts.clauses as usize {
            return Some(CnfCause::CountMismatch);
        }
        None
    }

    /// The clauses.
    pub fn into_clauses(self) -> Vec<Clause>
        ensures { result.items ≡ self.clauses.items }
    {
        self.clauses
    }
}

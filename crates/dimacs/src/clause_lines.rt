//! Lines of clauses, made in memory.
ghost use Rattle.std.specs.Prelude.{◌≡◌, ◌+◌, ◌≤◌, [], ◌∷◌, ◌++◌, length, take, neg_ℤ, OnOk, OnErr};
ghost use Rattle.std.specs.List.{flat_map};
ghost use Rattle.dimacs.specs.CnfText.{clause_line};

use crate::agreement::{AGREEMENT, AgreeingLiterals, put_both_lines};
use crate::literal::Lit;
use crate::variable_table::VariableTable;
use std::alloc::{AllocError, Global};
use std::marker::Model;

/// By how many bytes a buffer grows at once, whatever they are. They are more than `AGREEMENT`, so one growth is room enough for two lines.
static GROWTH: [u8; 4096] = [0; 4096];

/// The lines of some clauses, one after the other. Several threads can make lines side by side, which a `CnfWriter` then sends.
#[derive(Drop)]
pub struct ClauseLines {
    /// The bytes of the lines, and after them room whose bytes have no meaning.
    buffer: Vec<u8>,
    /// The number of bytes of the lines.
    end: usize,
}

impl Model for ClauseLines {
    ghost use Rattle.std.specs.Prelude.{◌≤◌, ℕ, List, length, take};

    /// The bytes of the lines.
    ghost Value = { List ℕ };

    ghost view = { λ lines. take lines.end lines.buffer.items };

    ghost invariant = { λ lines. lines.end ≤ length lines.buffer.items };
}

/// Makes the buffer longer, if it has no room for two lines after its first bytes.
#[inline]
fn make_room(buffer: &mut Vec<u8>, end: usize) -> Result<(), AllocError>
    requires { end ≤ length buffer.old.items }
    ensures room { OnOk result (end + AGREEMENT ≤ length buffer.new.items) }
    ensures within { end ≤ length buffer.new.items }
    ensures kept { take end buffer.new.items ≡ take end buffer.old.items }
{
    if buffer.len() - end >= AGREEMENT {
        return Ok(());
    }
    buffer.extend_from_slice(&GROWTH)
}

impl ClauseLines {
    /// No lines yet.
    pub fn new(alloc: Global) -> ClauseLines
        ensures { result ≡ [] }
    {
        ClauseLines {
            buffer: Vec::new(alloc),
            end: 0,
        }
    }

    /// Gives the lines up, and keeps the memory for the next ones.
    pub fn clear(&mut self)
        ensures { self.new ≡ [] }
    {
        self.end = 0;
    }

    /// Appends the lines of the two clauses which say that the third literal is what the first two are, where these are alike. If memory
    /// runs out, the lines stay as they are.
    #[inline]
    pub fn put_agreement(
        &mut self,
        first: Lit,
        second: Lit,
        third: Lit,
        table: &VariableTable,
    ) -> Result<(), AllocError>
        ensures appended { OnOk result (self.new ≡ self.old ++ flat_map clause_line ((neg_ℤ first ∷ neg_ℤ second ∷ third ∷ []) ∷ (first ∷ second ∷ neg_ℤ third ∷ []) ∷ [])) }
        ensures unchanged { OnErr result (self.new ≡ self.old) }
    {
        make_room(&mut self.buffer, self.end)?;
        let literals = AgreeingLiterals {
            first,
            second,
            third,
        };
        let end = put_both_lines(literals, table, self.buffer.as_mut_slice(), self.end);
        self.end = end;
        Ok(())
    }

    /// The bytes of the lines.
    pub fn as_slice(&self) -> &[u8]
        ensures { result.now ≡ self.now }
    {
        &self.buffer.as_slice()[..self.end]
    }
}

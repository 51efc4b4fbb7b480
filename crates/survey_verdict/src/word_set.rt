//! Sets of words.

use std::alloc::{AllocError, Global};
use std::collections::HashMap;

/// Some words: the keys of a table, whose values say nothing. Contracts ask of it which it has. In `named_operations` these are the words of a
/// certificate of reasons, in which each operation of the trace is then looked up.
#[derive(Drop)]
pub(crate) struct WordSet<'a> {
    members: HashMap<&'a [u8], bool>,
}

impl<'a> WordSet<'a> {
    ghost use Rattle.std.specs.Prelude.{◌≡◌, List, ℕ, false, OnOk, ◌||◌};
    ghost use Rattle.std.specs.Str.{bytes_eq};
    ghost use Rattle.survey_verdict.specs.WordSet.{has};

    /// The set of no words.
    pub(crate) fn new(alloc: Global) -> WordSet<'a>
        ensures { (word : List ℕ) → has result word ≡ false }
    {
        WordSet {
            members: HashMap::new(alloc),
        }
    }

    /// Returns whether the word is in the set.
    pub(crate) fn contains(&self, word: &[u8]) -> bool
        ensures { result ≡ has self.now word.now }
    {
        self.members.get(&word).is_some()
    }

    /// Puts the word into the set.
    pub(crate) fn insert(&mut self, word: &'a [u8]) -> Result<(), AllocError>
        ensures { OnOk result ((other : List ℕ) → has self.new other ≡ (bytes_eq word.now other || has self.old other)) }
    {
        self.members.insert(word, true)?;
        Ok(())
    }
}

//! Laws of the stop word.
//!
//! A law's body is empty, or calls other laws: what it says is proved in the folder of its name in `proofs/laws`, or needs no
//! answer. Who calls it has what it says in proofs; the call does nothing when run.

ghost use Rattle.std.specs.Prelude.{ℕ, List};
ghost use Rattle.stop_word.specs.declared.views.View.{View};
ghost use Rattle.stop_word.specs.WordRule.{IsStopWord, MeetsRule};

/// If the word rule is met, the word is nothing if and only if no seat has marked; else it is the mark of some seat; and no seat has marked
/// or been shown a lower number.
pub fn word_is_a_mark()
    ensures { (word : ℕ) (views : List View) → MeetsRule word views → IsStopWord word views }
{}

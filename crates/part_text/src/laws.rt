//! Laws of the texts of parts.
//!
//! A law's body is empty, or calls other laws: what it says is proved in the folder of its name in `proofs/laws`, or needs no
//! answer. Who calls it has what it says in proofs; the call does nothing when run.

ghost use Rattle.std.specs.Prelude.{Bool, List};
ghost use Rattle.trace_semantics.specs.declared.operation.OpName.{OpName};
ghost use Rattle.trace_semantics.specs.Trace.{TraceValue, IsTrace};
ghost use Rattle.trace_text.specs.TraceText.{SpellsTrace};
ghost use Rattle.trace_part.specs.TraceParts.{PartValue, IsPart};
ghost use Rattle.part_text.specs.PartText.{part_text};

/// The text of a part spells it, with the names in the whole or without.
pub fn part_text_spells()
    ensures { (t : TraceValue) (names : List OpName) (p : PartValue) (shows_names : Bool) → IsTrace t → IsPart t names p → SpellsTrace (part_text shows_names p) p.trace }
{}

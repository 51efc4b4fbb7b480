//! Laws of a schedule's text.
//!
//! A law's body is empty, or calls other laws: what it says is proved in the folder of its name in `proofs/schedule_laws`, or needs no
//! answer. Who calls it has what it says in proofs; the call does nothing when run.

ghost use Rattle.std.specs.Prelude.{◌≡◌, ◌≤◌, ◌⊎◌, ℕ, List, length, true};
ghost use Rattle.std.specs.List.{list_all};
ghost use Rattle.trace_semantics.specs.declared.limits.Limits.{Limits};
ghost use Rattle.trace_semantics.specs.Limits.{max_operations};
ghost use Rattle.trace_semantics.specs.declared.operation.OpName.{OpName};
ghost use Rattle.schedule_text.specs.declared.schedule_fault.ScheduleCause.{ScheduleCause};
ghost use Rattle.schedule_text.specs.ScheduleText.{SpellsSchedule, HasScheduleFault, is_op_name};
ghost use Rattle.schedule_text.specs.ScheduleWritten.{canonical_schedule};

/// A text spells at most one schedule.
pub fn one_schedule()
    ensures { (limits : Limits) (text : List ℕ) (m n : List OpName) → SpellsSchedule limits text m → SpellsSchedule limits text n → m ≡ n }
{}

/// A text has at most one first fault.
pub fn one_schedule_fault()
    ensures { (limits : Limits) (text : List ℕ) (c d : ScheduleCause) (p q : ℕ) → HasScheduleFault limits text c p → HasScheduleFault limits text d q → (c ≡ d) × (p ≡ q) }
{}

/// A text that spells a schedule has no fault.
pub fn never_spelled_and_faulty()
    ensures { (limits : Limits) (text : List ℕ) (names : List OpName) (cause : ScheduleCause) (line : ℕ) →
        SpellsSchedule limits text names → HasScheduleFault limits text cause line → ⊥ }
{}

/// Each text spells a schedule or has a first fault.
pub fn spelled_or_faulty()
    ensures { (limits : Limits) (text : List ℕ) →
        ((names : List OpName) × SpellsSchedule limits text names) ⊎ ((cause : ScheduleCause) × (line : ℕ) × HasScheduleFault limits text cause line) }
{}

/// The canonical text of names that can be written spells them.
pub fn canonical_spells()
    ensures { (limits : Limits) (names : List OpName) → list_all (is_op_name limits) names ≡ true → length names ≤ max_operations limits →
        SpellsSchedule limits (canonical_schedule names) names }
{}

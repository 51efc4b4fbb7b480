//! What must be known of the earlier lines of a trace text to judge the next one.
//!
//! In the contracts `Notes` says too that the earlier lines make no fault of the new one, and `IsRefusedFor` for which fault it is refused.
//! Values, places and times are not looked at here, so `[]` stands for any, and an untimed `Write` for each operation.

ghost use Rattle.std.specs.Prelude.{◌≡◌, ◌≤◌, [], List, ℕ, Some, None, false, OnOk, IfErr};
ghost use Rattle.trace_semantics.specs.declared.limits.Limits.{Limits as Of};
ghost use Rattle.trace_semantics.specs.Limits.{max_operations, max_locations, max_pairs};
ghost use Rattle.trace_semantics.specs.NameNumbers.{number_of};
ghost use Rattle.text_lines.specs.PlainFault.{IsRefusedFor};
ghost use Rattle.trace_text.specs.Said.{said};
ghost use Rattle.trace_text.specs.Statement.{Untimed, Init, Final, Proc, Write, Before};
ghost use Rattle.trace_text.specs.Seen.{has, IsSeen, Notes, NotesLocation, fault_behind, fault_of_location, fault_of_operation};

use crate::statement::Statement;
use crate::trace_fault::{LineRefusal, TraceCause};
use std::alloc::Global;
use text_lines::plain_fault::PlainFault;
use trace_semantics::limits::{Limits, MAX_PROCESSES};
use trace_semantics::name_table::NameTable;

/// What must be known of the earlier lines to judge the next one: the names that they name, and the number of each kind. The tables are
/// used as sets: the number under a name is not read. Contracts see it field by field; of which lines its fields speak is what `IsSeen` says.
pub struct Seen<'a> {
    initial: NameTable<'a>,
    final_values: NameTable<'a>,
    processes: NameTable<'a>,
    locations: NameTable<'a>,
    /// The tables do not know how many names they have, so names are counted beside them.
    process_count: usize,
    operation_count: usize,
    /// All `before` lines are counted, also those that repeat a pair.
    before_count: usize,
    location_count: usize,
}

/// Drops the tables in one call. A derived `Drop` would drop each at every exit of a function that owns them, which makes its proof longer.
impl Drop for Seen<'_> {
    fn drop(self) {
        let Seen {
            initial: _initial,
            final_values: _final_values,
            processes: _processes,
            locations: _locations,
            process_count: _,
            operation_count: _,
            before_count: _,
            location_count: _,
        } = self;
    }
}

fn has_name<'a>(table: &NameTable<'a>, name: &'a [u8]) -> bool
    ensures { result ≡ has table.now name.now }
{
    table.get(name).is_some()
}

impl<'a> Seen<'a> {
    /// The state before the first line.
    pub fn new(alloc: Global) -> Seen<'a>
        ensures { (limits : Of) → IsSeen limits [] result }
    {
        Seen {
            initial: NameTable::new(alloc),
            final_values: NameTable::new(alloc),
            processes: NameTable::new(alloc),
            locations: NameTable::new(alloc),
            process_count: 0,
            operation_count: 0,
            before_count: 0,
            location_count: 0,
        }
    }

    /// Notes the location of a line, unless it is one too many for these limits.
    fn note_location(&mut self, limits: Limits, location: &'a [u8]) -> Result<(), LineRefusal>
        requires { self.old.location_count ≤ max_locations limits }
        ensures refused { IfErr result (IsRefusedFor (fault_of_location limits self.old location.now)) }
        ensures fine { OnOk result (fault_of_location limits self.old location.now ≡ None) }
        ensures noted { OnOk result (NotesLocation limits self.old self.new (Some location.now)) }
        ensures initial { self.new.initial ≡ self.old.initial }
        ensures final_values { self.new.final_values ≡ self.old.final_values }
        ensures processes { self.new.processes ≡ self.old.processes }
        ensures process_count { self.new.process_count ≡ self.old.process_count }
        ensures operation_count { self.new.operation_count ≡ self.old.operation_count }
        ensures before_count { self.new.before_count ≡ self.old.before_count }
    {
        if has_name(&self.locations, location) {
            return Ok(());
        }
        if self.location_count >= limits.max_locations() {
            return Err(PlainFault::For(TraceCause::TooManyLocations));
        }
        self.locations.insert(location, 0)?;
        self.location_count += 1;
        Ok(())
    }

    /// Notes that a line gives this location an initial value, and refuses a second such line.
    fn note_initial(&mut self, limits: Limits, location: &'a [u8]) -> Result<(), LineRefusal>
        requires { self.old.location_count ≤ max_locations limits }
        ensures refused { IfErr result (IsRefusedFor (fault_behind limits self.old (Init location.now []))) }
        ensures noted { OnOk result (Notes limits self.old self.new (Init location.now [])) }
    {
        if has_name(&self.initial, location) {
            return Err(PlainFault::For(TraceCause::InitTwice));
        }
        self.initial.insert(location, 0)?;
        self.note_location(limits, location)
    }

    /// Notes that a line gives this location a final value, and refuses a second such line.
    fn note_final(&mut self, limits: Limits, location: &'a [u8]) -> Result<(), LineRefusal>
        requires { self.old.location_count ≤ max_locations limits }
        ensures refused { IfErr result (IsRefusedFor (fault_behind limits self.old (Final location.now []))) }
        ensures noted { OnOk result (Notes limits self.old self.new (Final location.now [])) }
    {
        if has_name(&self.final_values, location) {
            return Err(PlainFault::For(TraceCause::FinalTwice));
        }
        self.final_values.insert(location, 0)?;
        self.note_location(limits, location)
    }

    /// Notes that a process of this name begins, and refuses a second one and one too many.
    fn note_process(&mut self, limits: Limits, name: &'a [u8]) -> Result<(), LineRefusal>
        requires { self.old.location_count ≤ max_locations limits }
        ensures refused { IfErr result (IsRefusedFor (fault_behind limits self.old (Proc name.now))) }
        ensures noted { OnOk result (Notes limits self.old self.new (Proc name.now)) }
    {
        if has_name(&self.processes, name) {
            return Err(PlainFault::For(TraceCause::ProcTwice));
        }
        if self.process_count >= MAX_PROCESSES {
            return Err(PlainFault::For(TraceCause::TooManyProcs));
        }
        self.processes.insert(name, 0)?;
        self.process_count += 1;
        Ok(())
    }

    /// Notes that a line is an operation on this location, and refuses one too many.
    fn note_operation(&mut self, limits: Limits, location: &'a [u8]) -> Result<(), LineRefusal>
        requires { self.old.location_count ≤ max_locations limits }
        ensures refused { IfErr result (IsRefusedFor (fault_behind limits self.old (Write location.now [] Untimed))) }
        ensures noted { OnOk result (Notes limits self.old self.new (Write location.now [] Untimed)) }
    {
        if self.operation_count >= limits.max_operations() {
            return Err(PlainFault::For(TraceCause::TooManyOps));
        }
        self.operation_count += 1;
        self.note_location(limits, location)
    }

    /// Notes that a line is a `before` line, and refuses one too many.
    fn note_before(&mut self, limits: Limits) -> Result<(), LineRefusal>
        requires { self.old.location_count ≤ max_locations limits }
        ensures refused { IfErr result (IsRefusedFor (fault_behind limits self.old (Before [] [] [] []))) }
        ensures noted { OnOk result (Notes limits self.old self.new (Before [] [] [] [])) }
    {
        if self.before_count >= limits.max_pairs() {
            return Err(PlainFault::For(TraceCause::TooManyBefore));
        }
        self.before_count += 1;
        Ok(())
    }

    /// Notes what a line says, unless the lines before it make a fault of it. After a refusal the state may hold half of what the line says: it is
    /// not used again, as the reading ends.
    pub fn take(&mut self, limits: Limits, statement: Statement<'a>) -> Result<(), LineRefusal>
        requires { self.old.location_count ≤ max_locations limits }
        ensures refused { IfErr result (IsRefusedFor (fault_behind limits self.old (said statement.entry))) }
        ensures noted { OnOk result (Notes limits self.old self.new (said statement.entry)) }
    {
        match statement {
            Statement::Init(location, _) => self.note_initial(limits, location),
            Statement::Final(location, _) => self.note_final(limits, location),
            Statement::Proc(name) => self.note_process(limits, name),
            Statement::Read(location, _, _, _) => self.note_operation(limits, location),
            Statement::Write(location, _, _) => self.note_operation(limits, location),
            Statement::Update(location, _, _, _, _) => self.note_operation(limits, location),
            Statement::Before(_, _, _, _) => self.note_before(limits),
        }
    }
}

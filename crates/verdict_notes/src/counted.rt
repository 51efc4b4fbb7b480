//! Updates that are more than the operations from which they can read.

use crate::sentence::Sentence;
use crate::shown_places::ShownPlaces;
use note_text::{Notes, decimal};
use std::alloc::{AllocError, Global};
use std::collections::HashMap;
use trace_semantics::operation::Op;
use trace_semantics::trace::Trace;

/// The most operations that are named.
const MAX_NAMED: u64 = 20;

/// A value at a location.
#[derive(Clone, Copy)]
struct CountedValue<'t> {
    location: &'t [u8],
    value: u64,
}

/// Those that need the value, each from a source of its own, and those that give it.
#[derive(Clone, Copy)]
struct Balance {
    /// Updates that read it.
    updates: u64,
    /// 1 if it is the final value: the last source is one that no update reads.
    finals: u64,
    /// 1 if it is the initial value.
    initials: u64,
    /// Operations that leave it.
    writers: u64,
}

impl<'t> CountedValue<'t> {
    /// Gives what the operation reads, if it is an update.
    fn of_update(op: &'t Op) -> Option<CountedValue<'t>> {
        match op {
            Op::Update { location, read, .. } => Some(CountedValue {
                location: location.as_bytes(),
                value: *read,
            }),
            _ => None,
        }
    }

    /// Returns whether the operation is an update that reads the value here.
    fn is_read_by(self, op: &Op) -> bool {
        match op {
            Op::Update { location, read, .. } => {
                *read == self.value && location.as_bytes() == self.location
            }
            _ => false,
        }
    }

    /// Returns whether the operation leaves the value here.
    fn is_left_by(self, op: &Op) -> bool {
        op.written_value() == Some(self.value) && op.location().as_bytes() == self.location
    }
}

/// What an operation or the trace adds to a balance.
#[derive(Clone, Copy)]
enum BalanceEntry {
    Update,
    Final,
    Initial,
    Writer,
}

impl Balance {
    /// Nothing needs the value, and nothing gives it.
    fn even() -> Balance {
        Balance {
            updates: 0,
            finals: 0,
            initials: 0,
            writers: 0,
        }
    }

    /// The balance with this entry.
    fn with(self, entry: BalanceEntry) -> Balance {
        let mut balance = self;
        match entry {
            BalanceEntry::Update => balance.updates = balance.updates.saturating_add(1),
            BalanceEntry::Final => balance.finals = 1,
            BalanceEntry::Initial => balance.initials = 1,
            BalanceEntry::Writer => balance.writers = balance.writers.saturating_add(1),
        }
        balance
    }

    /// The number of those that need it.
    fn needed(self) -> u64 {
        self.updates.saturating_add(self.finals)
    }

    /// The number of its sources.
    fn sources(self) -> u64 {
        self.initials.saturating_add(self.writers)
    }

    /// Returns whether some of those that need it have none. Each source serves one of them, whatever the order is, so this rules out each
    /// schedule.
    fn is_short(self) -> bool {
        self.needed() > self.sources()
    }
}

/// The balances of all values that are needed or given. They are made in one walk, since a long trace may have as many values as updates.
#[derive(Drop)]
struct Balances<'t> {
    of_values: HashMap<(&'t [u8], u64), Balance>,
}

impl<'t> Balances<'t> {
    /// The balances of the trace's values.
    fn of(alloc: Global, trace: &'t Trace) -> Result<Balances<'t>, AllocError> {
        let mut balances = Balances {
            of_values: HashMap::new(alloc),
        };
        for entry in trace.initial() {
            balances.add(entry.0.as_bytes(), entry.1, BalanceEntry::Initial)?;
        }
        for entry in trace.final_values() {
            balances.add(entry.0.as_bytes(), entry.1, BalanceEntry::Final)?;
        }
        for process in trace.processes() {
            for op in process.operations.as_slice() {
                balances.add_operation(op)?;
            }
        }
        Ok(balances)
    }

    /// The balance of the value.
    fn balance(&self, location: &'t [u8], value: u64) -> Balance {
        match self.of_values.get(&(location, value)) {
            Some(balance) => *balance,
            None => Balance::even(),
        }
    }

    fn add(
        &mut self,
        location: &'t [u8],
        value: u64,
        entry: BalanceEntry,
    ) -> Result<(), AllocError> {
        let balance = self.balance(location, value).with(entry);
        self.of_values.insert((location, value), balance)?;
        Ok(())
    }

    /// Adds what the operation needs, if it is an update, and what it gives.
    fn add_operation(&mut self, op: &'t Op) -> Result<(), AllocError> {
        if let Some(read) = CountedValue::of_update(op) {
            self.add(read.location, read.value, BalanceEntry::Update)?;
        }
        if let Some(left) = op.written_value() {
            self.add(op.location().as_bytes(), left, BalanceEntry::Writer)?;
        }
        Ok(())
    }

    /// Gives the first value that these updates read and of which there are too few, with its balance.
    fn first_short_in(&self, ops: &'t [Op]) -> Option<(CountedValue<'t>, Balance)> {
        for op in ops {
            if let Some(read) = CountedValue::of_update(op) {
                let balance = self.balance(read.location, read.value);
                if balance.is_short() {
                    return Some((read, balance));
                }
            }
        }
        None
    }

    /// Gives the first value that updates read and of which there are too few, with its balance.
    fn first_short(&self, trace: &'t Trace) -> Option<(CountedValue<'t>, Balance)> {
        for process in trace.processes() {
            let short = self.first_short_in(process.operations.as_slice());
            if short.is_some() {
                return short;
            }
        }
        None
    }
}

/// Adds who needs the value, as `3 updates and the final value need`.
fn add_needed(sentence: &mut Sentence, balance: Balance) {
    sentence.add_value(balance.updates);
    let words: &[u8] = match (balance.updates == 1, balance.finals == 0) {
        (true, true) => b" update needs",
        (false, true) => b" updates need",
        (true, false) => b" update and the final value need",
        (false, false) => b" updates and the final value need",
    };
    sentence.add(&[words]);
}

/// Adds which sources there are, as `, and there are 2, the initial value and 1 that operations write`.
fn add_sources(sentence: &mut Sentence, balance: Balance) {
    let words: &[u8] = if balance.sources() == 1 {
        b", and there is "
    } else {
        b", and there are "
    };
    sentence.add(&[words]);
    sentence.add_value(balance.sources());
    if balance.initials == 0 {
        return;
    }
    sentence.add(&[b", the initial value"]);
    if balance.writers > 0 {
        sentence.add(&[b" and "]);
        sentence.add_value(balance.writers);
        sentence.add(&[b" that operations write"]);
    }
}

/// Notes that there are too few of the value.
fn explain_balance(alloc: Global, notes: &mut Notes, short: CountedValue<'_>, balance: Balance) {
    let value = decimal(short.value);
    let mut sentence = Sentence::new(alloc);
    add_needed(&mut sentence, balance);
    sentence.add(&[
        b" a ",
        value.as_slice(),
        b" of their own at ",
        short.location,
    ]);
    add_sources(&mut sentence, balance);
    sentence.note(notes);
}

/// Which operations are named.
#[derive(Clone, Copy)]
enum NamedRole {
    /// Updates that read the value.
    Reader,
    /// Those of them after which no operation of their process leaves it, up to the next one that reads it.
    Keeper,
    /// Operations that leave the value.
    Writer,
}

/// Returns whether no operation of these leaves the value before one reads it, or none does either.
fn is_kept(short: CountedValue<'_>, later: &[Op]) -> bool {
    for op in later {
        if short.is_left_by(op) {
            return false;
        }
        if short.is_read_by(op) {
            return true;
        }
    }
    true
}

impl NamedRole {
    /// Returns whether the operation at this place, counted from 0 among those of its process, has this role for the value.
    fn is_of(self, short: CountedValue<'_>, ops: &[Op], k: usize) -> bool {
        let (Some(op), Some(later)) = (ops.get(k), ops.get(k.saturating_add(1)..)) else {
            return false;
        };
        match self {
            NamedRole::Reader => short.is_read_by(op),
            NamedRole::Keeper => {
                short.is_read_by(op) && !short.is_left_by(op) && is_kept(short, later)
            }
            NamedRole::Writer => short.is_left_by(op),
        }
    }

    /// The number of operations of the trace that have this role.
    fn count(self, trace: &Trace, short: CountedValue<'_>) -> u64 {
        let mut count: u64 = 0;
        for process in trace.processes() {
            let ops = process.operations.as_slice();
            for k in 0..ops.len() {
                if self.is_of(short, ops, k) {
                    count = count.saturating_add(1);
                }
            }
        }
        count
    }

    /// Gives what is said in front of their names.
    fn words(self) -> &'static [u8] {
        match self {
            NamedRole::Reader => b"the updates:",
            NamedRole::Keeper => b"of these, after which their process does not write it again:",
            NamedRole::Writer => b"what writes it:",
        }
    }
}

/// Notes the names of the operations that have this role.
fn explain_names(
    alloc: Global,
    notes: &mut Notes,
    trace: &Trace,
    places: &ShownPlaces,
    short: CountedValue<'_>,
    role: NamedRole,
) {
    let mut sentence = Sentence::new(alloc);
    let mut count: u64 = 0;
    let processes = trace.processes();
    for number in 0..processes.len() {
        let process = &processes[number];
        let ops = process.operations.as_slice();
        for k in 0..ops.len() {
            if role.is_of(short, ops, k) {
                if count < MAX_NAMED {
                    sentence.add(&[b" "]);
                    sentence.add_name(process.name.as_bytes(), places.at(number, k));
                }
                count = count.saturating_add(1);
            }
        }
    }
    if count > MAX_NAMED {
        sentence.add(&[b" .."]);
    }
    if count > 0 {
        sentence.note_after(&[role.words()], notes);
    }
}

/// Notes that updates read a value of which there are too few, each of them from a source that no other one reads, if that is so of a value.
/// The answer is whether it is.
pub fn explain_counted(
    alloc: Global,
    notes: &mut Notes,
    trace: &Trace,
    places: &ShownPlaces,
) -> Result<bool, AllocError> {
    let balances = Balances::of(alloc, trace)?;
    let Some((short, balance)) = balances.first_short(trace) else {
        return Ok(false);
    };
    explain_balance(alloc, notes, short, balance);
    explain_names(alloc, notes, trace, places, short, NamedRole::Reader);
    // Of a lock these are those who do not give it back; of a counter they are all.
    if NamedRole::Keeper.count(trace, short) < balance.updates {
        explain_names(alloc, notes, trace, places, short, NamedRole::Keeper);
    }
    explain_names(alloc, notes, trace, places, short, NamedRole::Writer);
    notes.note(&[b"no two updates read from one source: the first of them overwrites it"]);
    Ok(true)
}

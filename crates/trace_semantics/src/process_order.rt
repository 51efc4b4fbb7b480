//! The order of a trace's processes.

ghost use Rattle.std.specs.Prelude.{◌≡◌, position};
ghost use Rattle.std.specs.Str.{bytes_eq};
ghost use Rattle.trace_semantics.specs.declared.trace.Process.{Process as Listed};
ghost use Rattle.trace_semantics.specs.PairOrder.{order_of};

use crate::trace::Process;

/// Returns the number of the process of this name, counted from 0, if there is one. It goes over the processes one by one, of which a trace has at
/// most 64.
pub fn find_process(processes: &[Process], name: &[u8]) -> Option<usize>
    ensures { result ≡ position (λ (p : Listed). bytes_eq p.name name.now) processes.now }
{
    processes.iter().position(|p| p.name.as_bytes() == name)
}

/// Returns how many processes stand before the one of this name; without such a process, how many there are. Before pairs are sorted and numbered by it; as
/// these name processes of their trace alone, the last case only makes the answer a number for any name.
pub fn order_of(processes: &[Process], name: &[u8]) -> usize
    ensures { result ≡ order_of processes.now name.now }
{
    match find_process(processes, name) {
        Some(place) => place,
        None => processes.len(),
    }
}

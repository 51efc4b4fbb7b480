//! The writer of a schedule's text.

ghost use Rattle.std.specs.Prelude.{◌≡◌, ◌++◌, IfOk, OnOk};
ghost use Rattle.schedule_text.specs.ScheduleWritten.{name_line, canonical_schedule};

use itoa::Buffer;
use std::alloc::{AllocError, Global};
use trace_semantics::operation::OpName;
use trace_semantics::schedule::Schedule;

/// Appends the name as its line: its process, a dot, its place and a line feed.
fn push_name_line(text: &mut Vec<u8>, name: &OpName) -> Result<(), AllocError>
    ensures { OnOk result (text.new.items ≡ text.old.items ++ name_line name.now) }
{
    let mut buffer = Buffer::new();
    text.extend_from_slice(name.process.as_bytes())?;
    text.push(b'.')?;
    text.extend_from_slice(buffer.format(name.place).as_bytes())?;
    text.push(b'\n')?;
    Ok(())
}

/// The canonical text of the schedule: one name a line, each ended by a line feed.
pub fn write_schedule(alloc: Global, schedule: &Schedule) -> Result<Vec<u8>, AllocError>
    ensures { IfOk result (λ text. text.items ≡ canonical_schedule schedule.now) }
{
    let mut text = Vec::new(alloc);
    for name in schedule.names() {
        push_name_line(&mut text, name)?;
    }
    Ok(text)
}

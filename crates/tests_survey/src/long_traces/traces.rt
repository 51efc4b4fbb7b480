//! Traces that the tests survey.

use std::alloc::{AllocError, Global};
use verdict_report::ShortSource;

/// Each of two processes writes, and does not see what the other one wrote.
pub const STORE_BUFFERING: &str =
    "vsc 1\ninit x 0\ninit y 0\nproc P\nW x 1\nR y 0\nproc Q\nW y 1\nR x 0\n";

/// What is read was written before.
pub const HAND_OFF: &str = "vsc 1\ninit x 0\nproc P\nW x 1\nproc Q\nR x 1\n";

/// Two updates read the initial value, of which there is one.
pub const LOST_UPDATE: &str = "vsc 1\ninit l 0\nproc P\nU l 0 1\nU l 0 1\n";

/// A message is read as new, and what was written before it as old. P writes once more.
pub const STALE_MESSAGE: &str =
    "vsc 1\ninit data 0\ninit flag 0\nproc P\nW data 1\nW flag 1\nW z 1\nproc Q\nR flag 1\nR data 0\n";

/// A certificate of that. Its comment has the word of an operation that no line names.
pub const STALE_REASONS: &[u8] =
    b"vsc-reasons 1\n# P.3 is of no help\ns Q.1\ns Q.2 i P.1\nc P.1 P.2 Q.1 Q.2\np\n4 0 1 2 3 0\n";

/// A source of no hint.
pub fn no_hint() -> ShortSource<'static> {
    ShortSource::new(b"", 99)
}

/// A wrong log in which a walk that gives up early has learned what a later one rests on.
pub const LEARNED_BEFORE: &str =
    "vsc 1\ninit x0 0\ninit x1 0\nfinal x0 4\nfinal x1 5\nproc P0\nU x1 0 4\nW x0 3\nW x0 2\nU x0 2 3\nR x0 3\nW x0 4\n\
    W x0 0\nU x0 0 1\nU x0 1 3\nU x1 1 1\nU x0 4 0\nU x1 1 5\nW x0 0\nW x1 5\nW x0 5\nR x1 5\nproc P1\nR x0 4\nW x1 1\n\
    W x0 4\nR x0 4\nW x0 2\nR x0 2\nR x0 0\nU x0 0 2\nR x0 2\nW x0 2\nR x0 0\nW x0 5\nR x0 3\nW x1 5\nR x0 5\nW x0 4\n\
    proc P2\nW x0 4\nW x1 2\nU x1 2 5\nR x0 3\nW x1 1\nU x0 4 3\nU x1 1 5\nW x0 0\nU x1 5 1\nU x1 1 3\nR x0 5\nU x1 3 1\n\
    W x0 2\nU x0 2 4\nU x0 5 5\nW x0 3\nR x0 3\nR x0 3\n";

/// Appends the lines a number of times.
fn push_times(text: &mut String, lines: &str, count: u32) -> Result<(), AllocError> {
    for _ in 0..count {
        text.push_str(lines)?;
    }
    Ok(())
}

/// The text of these lines, each piece of them a number of times.
fn text_of(alloc: Global, pieces: &[(&str, u32)]) -> Result<String, AllocError> {
    let mut text = String::new(alloc);
    for (lines, count) in pieces {
        push_times(&mut text, *lines, *count)?;
    }
    Ok(text)
}

/// The trace with a process of two hundred writes to another location behind it.
pub fn with_many_writes(alloc: Global, trace: &str) -> Result<String, AllocError> {
    let mut text = String::new(alloc);
    text.push_str(trace)?;
    text.push_str("proc R\n")?;
    push_times(&mut text, "W z 1\n", 200)?;
    Ok(text)
}

/// Store buffering, of which the first process has two hundred writes to another location before it.
pub fn after_many_writes(alloc: Global) -> Result<String, AllocError> {
    let pieces = [
        ("vsc 1\ninit x 0\ninit y 0\nproc P\n", 1),
        ("W z 1\n", 200),
        ("W x 1\nR y 0\nproc Q\nW y 1\nR x 0\n", 1),
    ];
    text_of(alloc, &pieces)
}

/// Two processes acquire a lock and release it, a hundred times each; one of the releases is missing.
pub fn counted_lock(alloc: Global) -> Result<String, AllocError> {
    let pieces = [
        ("vsc 1\ninit l 0\nproc P\n", 1),
        ("U l 0 1\nW l 0\n", 100),
        ("proc Q\nU l 0 1\n", 1),
        ("U l 0 1\nW l 0\n", 100),
    ];
    text_of(alloc, &pieces)
}

/// Sixty processes in a ring, of which each reads what the one before it writes twice, and then writes twice itself: none can read first. All
/// of its operations are needed for that, so no part of 160 operations shows it.
pub fn ring(alloc: Global) -> Result<String, AllocError> {
    let mut text = String::new(alloc);
    text.push_str("vsc 1\n")?;
    let processes: u32 = 60;
    for number in 0..processes {
        let line = format!(in alloc; "init m{number} 0\n")?;
        text.push_str(line.as_str())?;
    }
    for number in 0..processes {
        let before = if number == 0 {
            59
        } else {
            number.wrapping_sub(1)
        };
        let lines = format!(in alloc;
            "proc P{number}\nR m{before} 1\nW m{number} 1\nW m{number} 1\n"
        )?;
        text.push_str(lines.as_str())?;
    }
    Ok(text)
}

//! What is noted of each kind of refusal.

use certificate::CertCause;
use cube_jobs::SearchCause;
use lrat_check::refusal::StepFault;
use model_text::ModelCause;
use note_text::{AskedTexts, NamedText, Notes};
use reducer::reduce_fault::ReduceCause;
use refusal_notes::{explain_refusal, refusal_list};
use schedule_text::schedule_fault::ScheduleCause;
use std::alloc::{AllocError, Global};
use trace_part::part_fault::PartCause;
use trace_text::trace_fault::TraceCause;
use verdict_report::Fault;

/// A fault, the texts of the files `t` and `s`, of which the second is for what the fault speaks of, and what is noted.
struct Case {
    fault: Fault,
    first: &'static [u8],
    second: &'static [u8],
    notes: &'static str,
}

/// Faults of texts that are small enough to find them by eye.
static CASES: [Case; 25] = [
    Case {
        fault: Fault::Trace(TraceCause::BadName, 2),
        first: b"vsc 1\nproc thread-1\n",
        second: b"",
        notes: "note: t:2: proc thread-1\n\
            note:           ^\n\
            note: \"thread-1\" is no name: a letter or _, then letters, digits and _, at most 32 bytes\n",
    },
    Case {
        fault: Fault::Trace(TraceCause::BadNumber, 3),
        first: b"vsc 1\nproc P\nU x 1 0xff\n",
        second: b"",
        notes: "note: t:3: U x 1 0xff\n\
            note:            ^\n\
            note: \"0xff\" is no value: decimal, 0 to 18446744073709551615, without a leading zero\n",
    },
    Case {
        fault: Fault::Trace(TraceCause::BadNumber, 2),
        first: b"vsc 2\nbefore P 0 Q 1\n",
        second: b"",
        notes: "note: t:2: before P 0 Q 1\n\
            note:               ^\n\
            note: \"0\" is no place of an operation: decimal, 1 to 65535, without a leading zero\n",
    },
    Case {
        fault: Fault::Trace(TraceCause::UnknownLine, 3),
        first: b"vsc 1\nproc P\nr x 1\n",
        second: b"",
        notes: "note: t:3: r x 1\n\
            note:      ^\n\
            note: a trace has no line of this form\n\
            note: an operation is R, W or U, in capitals\n",
    },
    Case {
        fault: Fault::Trace(TraceCause::UnknownLine, 3),
        first: b"vsc 1\nproc P\nR x 1 # one\n",
        second: b"",
        notes: "note: t:3: R x 1 # one\n\
            note:            ^\n\
            note: a trace has no line of this form\n\
            note: a comment stands on a line of its own\n",
    },
    Case {
        fault: Fault::Trace(TraceCause::UnknownLine, 2),
        first: b"vsc 1\nbefore P 1 Q 1\n",
        second: b"",
        notes: "note: t:2: before P 1 Q 1\n\
            note:      ^\n\
            note: a trace has no line of this form\n\
            note: `before` needs the header `vsc 2` or `vsc 3`\n",
    },
    Case {
        fault: Fault::Trace(TraceCause::UnknownLine, 3),
        first: b"vsc 1\nproc P\nR x 1 from init\n",
        second: b"",
        notes: "note: t:3: R x 1 from init\n\
            note:            ^\n\
            note: a trace has no line of this form\n\
            note: `from` needs the header `vsc 2` or `vsc 3`\n",
    },
    Case {
        fault: Fault::Trace(TraceCause::UnknownLine, 3),
        first: b"vsc 2\nproc P\nR x 1 from at 3 at 5 6\n",
        second: b"",
        notes: "note: t:3: R x 1 from at 3 at 5 6\n\
            note:                      ^\n\
            note: a trace has no line of this form\n\
            note: `at` needs the header `vsc 3`\n",
    },
    Case {
        fault: Fault::Trace(TraceCause::UnknownLine, 3),
        first: b"vsc 3\nproc P\nW x 1 at 5\n",
        second: b"",
        notes: "note: t:3: W x 1 at 5\n\
            note:            ^\n\
            note: a trace has no line of this form\n\
            note: after `at` stand two times, the start and the end, and no word more, as `W x 1 at 5 6`\n",
    },
    Case {
        fault: Fault::Trace(TraceCause::BadNumber, 3),
        first: b"vsc 3\nproc P\nR x 1 from init at 5 0x6\n",
        second: b"",
        notes: "note: t:3: R x 1 from init at 5 0x6\n\
            note:                           ^\n\
            note: \"0x6\" is no time: decimal, 0 to 18446744073709551615, without a leading zero\n",
    },
    Case {
        fault: Fault::Trace(TraceCause::UnknownLine, 3),
        first: b"vsc 1\nproc P\nU x 1\n",
        second: b"",
        notes: "note: t:3: U x 1\n\
            note:      ^\n\
            note: a trace has no line of this form\n\
            note: U takes a location and two values, the one that it reads and the one that it leaves, as `U x 0 1`\n",
    },
    Case {
        fault: Fault::Trace(TraceCause::Header, 1),
        first: b"",
        second: b"",
        notes: "note: t:1: the text ends here\n\
            note: the first line that is no comment is not `vsc 1`, `vsc 2` or `vsc 3`\n\
            note: t is empty\n",
    },
    Case {
        fault: Fault::Trace(TraceCause::Header, 1),
        first: b"P.1\n",
        second: b"vsc 1\nproc P\nW x 1\n",
        notes: "note: t:1: P.1\n\
            note:      ^\n\
            note: the first line that is no comment is not `vsc 1`, `vsc 2` or `vsc 3`\n\
            note: t looks like a schedule, and not like a trace\n\
            note: s looks like a trace: are the files in the right order?\n",
    },
    Case {
        fault: Fault::Trace(TraceCause::Header, 1),
        first: b"proc P\n",
        second: b"",
        notes: "note: t:1: proc P\n\
            note:      ^\n\
            note: the first line that is no comment is not `vsc 1`, `vsc 2` or `vsc 3`\n\
            note: the header is missing: `vsc 1` stands above this line\n",
    },
    Case {
        fault: Fault::Trace(TraceCause::NotAscii, 1),
        first: b"\xef\xbb\xbfvsc 1\n",
        second: b"",
        notes: "note: t:1: ???vsc 1\n\
            note:      ^\n\
            note: a byte is above 127: only comments may have other than ASCII\n\
            note: the file begins with a byte order mark: save it as plain ASCII or UTF-8 without one\n",
    },
    Case {
        fault: Fault::Trace(TraceCause::ProcTwice, 4),
        first: b"vsc 1\nproc P\nproc Q\nproc P\n",
        second: b"",
        notes: "note: t:4: proc P\n\
            note:      ^\n\
            note: a process has one `proc` line, and all its operations stand below it\n\
            note: its first `proc` line is at t:2\n",
    },
    Case {
        fault: Fault::Trace(TraceCause::LateHeaderLine, 3),
        first: b"vsc 1\nproc P\ninit x 0\n",
        second: b"",
        notes: "note: t:3: init x 0\n\
            note:      ^\n\
            note: `init` and `final` lines stand above the first `proc` line\n\
            note: the first `proc` line is at t:2\n",
    },
    Case {
        fault: Fault::Trace(TraceCause::NoSuchOp, 4),
        first: b"vsc 2\nproc P\nW x 1\nbefore P 1 P 2\n",
        second: b"",
        notes: "note: t:4: before P 1 P 2\n\
            note:      ^\n\
            note: the trace has no operation that the line names\n\
            note: the number of operations of process \"P\" is 1\n",
    },
    Case {
        fault: Fault::Schedule(ScheduleCause::BadName, 1),
        first: b"vsc 1\n",
        second: b"CONSISTENT\nP.1\n",
        notes: "note: s:1: CONSISTENT\n\
            note:      ^\n\
            note: a line has one word, the name of an operation: its process, a dot and its place, as P.1\n\
            note: s looks like what vsc verify prints, and not like a schedule\n\
            note: the first line of what verify prints is no part of the schedule\n",
    },
    Case {
        fault: Fault::Part(PartCause::UnknownOp, 2),
        first: b"vsc 1\nproc P\nW x 1\n",
        second: b"P.1\nQ.1\n",
        notes: "note: s:2: Q.1\n\
            note:      ^\n\
            note: the trace has no operation of this name\n\
            note: the trace has no process \"Q\"\n",
    },
    Case {
        fault: Fault::Model(ModelCause::BadLine, 1),
        first: b"vsc 1\n",
        second: b"SAT\n1 0\n",
        notes: "note: s:1: SAT\n\
            note:      ^\n\
            note: a line of a model is `s SATISFIABLE`, begins with `v` or `c`, or is blank, and nothing follows the 0 that ends the model\n\
            note: this is the form of minisat: `s SATISFIABLE` stands in place of SAT, and `v ` before the numbers\n",
    },
    Case {
        fault: Fault::Check(StepFault::UnknownHint, 2),
        first: b"",
        second: b"c one\n0 d 2 0\n3 0 1 2 0\n",
        notes: "note: s:3: 3 0 1 2 0\n\
            note: a hint is the number of no active clause: it was deleted, or never added\n",
    },
    Case {
        fault: Fault::Cert(CertCause::Derivation, 1),
        first: b"vsc 1\n",
        second: b"vsc-cert 1\nsplit 3\nleaf\nleaf\nproof 0\nend\nproof 1\nend\n",
        notes: "note: s:7: proof 1\n\
            note: this is of leaf 1, counted from 0\n\
            note: the proof of a leaf is not accepted for this trace\n\
            note: s:8: end\n\
            note: the derivation ends without the empty clause\n\
            note: a certificate is of one trace: it has to be the one for which it was made, in each line that is no comment\n",
    },
    Case {
        fault: Fault::Reduce(ReduceCause::StillTooLarge, 1000),
        first: b"vsc 1\n",
        second: b"",
        notes: "note: 1000 operations are left after reduction, 160 at most; vsc survey and vsc part take larger traces, vsc recheck --part their certificates\n",
    },
    Case {
        fault: Fault::Search(SearchCause::NoThread),
        first: b"vsc 1\n",
        second: b"",
        notes: "note: no thread could be started for a worker, for lack of memory or by a limit of the system\n\
            note: --workers 1 needs no thread\n",
    },
];

/// The files of a case.
fn texts_of(case: &Case) -> AskedTexts<'static> {
    let mut texts = AskedTexts::none();
    texts.trace = Some(NamedText {
        name: "t",
        bytes: Some(case.first),
        failure: None,
    });
    let second = Some(NamedText {
        name: "s",
        bytes: Some(case.second),
        failure: None,
    });
    match case.fault {
        Fault::Part(_, _) => texts.names = second,
        Fault::Model(_, _) => texts.model = second,
        Fault::Check(_, _) => texts.proof = second,
        Fault::Cert(_, _) => texts.certificate = second,
        _ => texts.schedule = second,
    }
    texts
}

/// Returns whether these are the notes on the fault of the case.
fn is_explained(alloc: Global, case: &Case) -> Result<bool, AllocError> {
    let mut notes = Notes::new(alloc);
    explain_refusal(alloc, &mut notes, &case.fault, &texts_of(case))?;
    Ok(notes.as_slice() == case.notes.as_bytes())
}

#[test]
fn explains_refusals(rt: HostRuntime) -> Result<(), AllocError> {
    for number in 0..CASES.len() {
        assert!(rt;
            is_explained(rt.alloc(), &CASES[number])?,
            "in case {number}"
        );
    }
    Ok(())
}

/// The notes on a file that could not be read, and on one that could not be made.
const UNREAD: &str = "note: n: cannot be opened: no such file\n\
    note: c: cannot be made\n";

/// Returns whether the file that could not be read is named, and one that was written, and no other: not one that was never opened.
fn names_unread(alloc: Global) -> Result<bool, AllocError> {
    let mut texts = AskedTexts::none();
    texts.trace = Some(NamedText {
        name: "t",
        bytes: Some(b"vsc 1"),
        failure: None,
    });
    texts.schedule = Some(NamedText {
        name: "s",
        bytes: None,
        failure: None,
    });
    texts.names = Some(NamedText {
        name: "n",
        bytes: None,
        failure: Some(b"cannot be opened: no such file"),
    });
    texts.written = Some(b"c: cannot be made");
    let mut notes = Notes::new(alloc);
    explain_refusal(alloc, &mut notes, &Fault::Device, &texts)?;
    Ok(notes.as_slice() == UNREAD.as_bytes())
}

/// Returns whether the list begins with the first cause of a trace and has a line for each refusal.
fn lists_all(alloc: Global) -> bool {
    let mut notes = Notes::new(alloc);
    refusal_list(&mut notes);
    let first = b"trace 2 NotAscii: a byte is above 127: only comments may have other than ASCII\n";
    let count = notes
        .as_slice()
        .iter()
        .filter(|byte| **byte == b'\n')
        .count();
    notes.as_slice().starts_with(first) && count == 79
}

#[test]
fn names_files_and_lists_refusals(rt: HostRuntime) -> Result<(), AllocError> {
    assert!(rt; names_unread(rt.alloc())?);
    assert!(rt; lists_all(rt.alloc()));
    Ok(())
}

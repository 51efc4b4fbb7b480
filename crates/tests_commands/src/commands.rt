//! Command lines over files in memory: what the standard streams take, and the exit status.

use crate::memory_host::MemoryHost;
use command_run::{ProgramRun, run};
use cube_jobs::OpenGate;
use dimacs::ShortSink;
use std::alloc::Global;
use std::process::Abort;
use std::sync::Wait;
use std::thread::Threads;

/// The paths of files and what they hold: a process writes a value and another one reads it, a schedule that explains the read, one that
/// does not, a trace of which nothing explains the read, and a schedule on standard input.
static FILES: [(&str, &[u8]); 5] = [
    ("handed", b"vsc 1\nproc P\nW x 1\nproc Q\nR x 1\n"),
    ("right", b"P.1\nQ.1\n"),
    ("wrong", b"Q.1\nP.1\n"),
    ("unread", b"vsc 1\ninit x 0\nproc P\nR x 1\nproc Q\nW x 0\n"),
    ("-", b"P.1\nQ.1\n"),
];

/// A command line, whether it asks for an explanation, its exit status, and what standard output and standard error take of it.
struct Case {
    words: &'static [&'static str],
    explains: bool,
    status: u8,
    out: &'static str,
    err: &'static str,
}

/// Command lines whose texts are known.
static CASES: [Case; 22] = [
    Case {
        words: &["vsc", "judge", "handed", "right"],
        explains: false,
        status: 0,
        out: "LEGAL\n",
        err: "",
    },
    Case {
        words: &["vsc", "judge", "handed", "wrong"],
        explains: false,
        status: 1,
        out: "ILLEGAL 4 WrongRead at 1\n",
        err: "",
    },
    Case {
        words: &["vsc", "judge", "handed", "absent"],
        explains: false,
        status: 4,
        out: "",
        err: "refused: device\n",
    },
    Case {
        words: &["vsc", "judge", "right", "absent"],
        explains: false,
        status: 4,
        out: "",
        err: "refused: device\n",
    },
    Case {
        words: &["vsc", "judge", "right", "handed"],
        explains: false,
        status: 2,
        out: "",
        err: "refused: trace 3 Header at 1\n",
    },
    Case {
        words: &["vsc", "verify", "handed", "--workers", "1"],
        explains: false,
        status: 0,
        out: "CONSISTENT\nP.1\nQ.1\n",
        err: "",
    },
    Case {
        words: &["vsc", "verify", "handed", "--cert", "handed"],
        explains: false,
        status: 2,
        out: "",
        err: "error: --cert names the file of TRACE\n",
    },
    Case {
        words: &["vsc", "part", "handed", "wrong", "--names"],
        explains: false,
        status: 0,
        out: "vsc 1\nproc P\n# P.1\nW x 1\nproc Q\n# Q.1\nR x 1\n",
        err: "",
    },
    Case {
        words: &["vsc", "decode", "handed", "absent"],
        explains: false,
        status: 4,
        out: "",
        err: "refused: device\n",
    },
    Case {
        words: &["vsc", "lrat", "absent", "right"],
        explains: false,
        status: 4,
        out: "",
        err: "refused: device\n",
    },
    Case {
        words: &["vsc", "judge", "handed", "-"],
        explains: false,
        status: 0,
        out: "LEGAL\n",
        err: "",
    },
    Case {
        words: &["vsc", "judge", "-", "-"],
        explains: false,
        status: 2,
        out: "",
        err: "error: more than one file is '-', standard input\n",
    },
    Case {
        words: &["vsc", "recheck", "-", "handed", "--part", "-"],
        explains: false,
        status: 2,
        out: "",
        err: "error: more than one file is '-', standard input\n",
    },
    Case {
        words: &["vsc", "survey", "handed", "--workers", "1"],
        explains: false,
        status: 0,
        out: "CONSISTENT\nP.1\nQ.1\n",
        err: "",
    },
    Case {
        words: &["vsc", "survey", "right"],
        explains: false,
        status: 2,
        out: "",
        err: "refused: trace 3 Header at 1\n",
    },
    Case {
        words: &["vsc", "survey", "handed", "--part", "handed"],
        explains: false,
        status: 2,
        out: "",
        err: "error: --part names the file of TRACE\n",
    },
    Case {
        words: &[
            "vsc", "survey", "handed", "--cert", "one", "--part", "two", "--names", "two",
        ],
        explains: false,
        status: 2,
        out: "",
        err: "error: --names and --part name one file\n",
    },
    Case {
        words: &[
            "vsc", "survey", "handed", "--part", "one", "--cert", "one", "--names", "one",
        ],
        explains: false,
        status: 2,
        out: "",
        err: "error: --cert and --names name one file\n",
    },
    Case {
        words: &["vsc", "survey", "handed", "--hint", "right"],
        explains: false,
        status: 0,
        out: "CONSISTENT\nP.1\nQ.1\n",
        err: "",
    },
    Case {
        words: &["vsc", "survey", "handed", "--hint", "handed"],
        explains: false,
        status: 2,
        out: "",
        err: "refused: schedule 2 BadName at 1\n",
    },
    Case {
        words: &["vsc", "survey", "-", "--hint", "-"],
        explains: false,
        status: 2,
        out: "",
        err: "error: more than one file is '-', standard input\n",
    },
    Case {
        words: &[
            "vsc", "survey", "handed", "--names", "right", "--hint", "right",
        ],
        explains: false,
        status: 2,
        out: "",
        err: "error: --names and --hint name one file\n",
    },
];

/// Command lines that ask for an explanation: standard error begins with this text.
static EXPLAINED: [Case; 5] = [
    Case {
        words: &["vsc", "judge", "handed", "right", "--explain"],
        explains: true,
        status: 0,
        out: "LEGAL\n",
        err: "",
    },
    Case {
        words: &["vsc", "judge", "handed", "wrong", "--explain"],
        explains: true,
        status: 1,
        out: "ILLEGAL 4 WrongRead at 1\n",
        err: "",
    },
    Case {
        words: &["vsc", "judge", "right", "handed", "--explain"],
        explains: true,
        status: 2,
        out: "",
        err: "refused: trace 3 Header at 1\n",
    },
    Case {
        words: &["vsc", "decode", "--explain", "handed", "absent"],
        explains: true,
        status: 4,
        out: "",
        err: "refused: device\n",
    },
    Case {
        words: &["vsc", "verify", "handed", "--workers", "1", "--explain"],
        explains: true,
        status: 0,
        out: "CONSISTENT\nP.1\nQ.1\n",
        err: "",
    },
];

/// Returns whether the bytes are what standard error takes of the case, or of one with an explanation begin with it.
fn is_error(bytes: &[u8], case: &Case) -> bool {
    if case.explains {
        bytes.starts_with(case.err.as_bytes())
    } else {
        bytes == case.err.as_bytes()
    }
}

/// The exit status of a command line, and what the standard streams took.
#[derive(Drop)]
struct CommandEnding {
    status: u8,
    out: ShortSink,
    err: ShortSink,
}

/// Gives how the command line ends on this host, with streams that take at most this number of bytes a call.
fn ending_of<'p, R: Threads + Wait + Sync>(
    alloc: Global,
    rt: &R,
    host: &mut MemoryHost<'p>,
    words: &'p [&'p str],
    most: usize,
) -> CommandEnding {
    let mut out = ShortSink::new(alloc, most);
    let mut err = ShortSink::new(alloc, most);
    let program = ProgramRun {
        alloc,
        rt,
        progress: &OpenGate,
        is_terminal: false,
    };
    let status = run(&program, host, words, &mut out, &mut err);
    CommandEnding { status, out, err }
}

/// Asserts how the command line of the case ends, with files and streams that move a byte a call.
fn assert_case<R: Threads + Wait + Abort + Sync>(
    alloc: Global,
    rt: &R,
    number: usize,
    case: &Case,
) {
    let mut host = MemoryHost::new(alloc, &FILES, 1);
    let ending = ending_of(alloc, rt, &mut host, case.words, 1);
    assert!(rt; ending.status == case.status, "the status of case {number}");
    assert!(rt;
        ending.out.as_slice() == case.out.as_bytes(),
        "standard output of case {number}"
    );
    assert!(rt;
        is_error(ending.err.as_slice(), case),
        "standard error of case {number}"
    );
}

#[test]
fn ends_as_the_words_ask(rt: HostRuntime) {
    for number in 0..CASES.len() {
        assert_case(rt.alloc(), &rt, number, &CASES[number]);
    }
    for number in 0..EXPLAINED.len() {
        assert_case(rt.alloc(), &rt, number, &EXPLAINED[number]);
    }
}

/// Asserts that the command line prints something on one stream only: on standard output with the status 0, on standard error with 2.
fn assert_prints<R: Threads + Wait + Abort + Sync>(
    alloc: Global,
    rt: &R,
    words: &[&str],
    is_answer: bool,
) {
    let mut host = MemoryHost::new(alloc, &FILES, 1);
    let ending = ending_of(alloc, rt, &mut host, words, 100);
    assert!(rt; ending.status == if is_answer { 0 } else { 2 });
    assert!(rt; ending.out.as_slice().is_empty() != is_answer);
    assert!(rt; ending.err.as_slice().is_empty() == is_answer);
}

#[test]
fn prints_help_or_what_is_wrong(rt: HostRuntime) {
    assert_prints(rt.alloc(), &rt, &["vsc", "--help"], true);
    assert_prints(rt.alloc(), &rt, &["vsc", "--version"], true);
    assert_prints(rt.alloc(), &rt, &["vsc"], false);
    assert_prints(rt.alloc(), &rt, &["vsc", "judge", "handed"], false);
}

/// Asserts that the command line searches with the options of its test, and leaves a certificate in the file that it makes.
fn assert_certifies<R: Threads + Wait + Abort + Sync>(alloc: Global, rt: &R, words: &[&str]) {
    let mut host = MemoryHost::new(alloc, &FILES, 100);
    let ending = ending_of(alloc, rt, &mut host, words, 100);
    assert!(rt; ending.status == 1);
    assert!(rt; ending.err.as_slice().is_empty());
    let Some(search) = host.searched() else {
        panic!(rt; "nothing was searched")
    };
    assert!(rt; search.options.workers() == 2);
    assert!(rt; search.options.split() == 1);
    assert!(rt; search.options.budget() == 70);
    assert!(rt; search.options.rounds() == 3);
    assert!(rt; search.tells_progress);
    let Some(certificate) = host.made() else {
        panic!(rt; "no certificate was given back")
    };
    assert!(rt; certificate.starts_with("vsc-cert 1\n".as_bytes()));
}

#[test]
fn searches_with_the_options_and_writes_the_certificate(rt: HostRuntime) {
    assert_certifies(
        rt.alloc(),
        &rt,
        &[
            "vsc",
            "verify",
            "unread",
            "--cert",
            "made",
            "--workers",
            "2",
            "--split",
            "1",
            "--budget",
            "70",
            "--rounds",
            "3",
            "--progress",
        ],
    );
}

/// Asserts that the command line ends with `Device` if the file of the certificate cannot be made, and that nothing is searched.
fn assert_not_made<R: Threads + Wait + Abort + Sync>(alloc: Global, rt: &R, words: &[&str]) {
    let mut host = MemoryHost::new(alloc, &FILES, 100).read_only();
    let ending = ending_of(alloc, rt, &mut host, words, 100);
    assert!(rt; ending.status == 4);
    assert!(rt; ending.out.as_slice().is_empty());
    assert!(rt; ending.err.as_slice() == "refused: device\n".as_bytes());
    assert!(rt; host.searched().is_none());
}

#[test]
fn answers_device_if_no_file_can_be_made(rt: HostRuntime) {
    assert_not_made(
        rt.alloc(),
        &rt,
        &["vsc", "verify", "unread", "--cert", "made"],
    );
    assert_not_made(
        rt.alloc(),
        &rt,
        &["vsc", "survey", "unread", "--part", "made"],
    );
}

/// Asserts that a survey which writes the file of this option refutes its trace, and leaves a text that begins so in the last file that is
/// given back.
fn assert_surveys<R: Threads + Wait + Abort + Sync>(
    alloc: Global,
    rt: &R,
    option: &str,
    begin: &str,
) {
    let words = [
        "vsc",
        "survey",
        "unread",
        "--budget",
        "7000",
        "--workers",
        "2",
        option,
        "made",
    ];
    let mut host = MemoryHost::new(alloc, &FILES, 100);
    let ending = ending_of(alloc, rt, &mut host, &words, 100);
    assert!(rt; ending.status == 1);
    let out = ending.out.as_slice();
    assert!(rt; out.starts_with("INCONSISTENT operations=1 cubes=".as_bytes()));
    assert!(rt; ending.err.as_slice().is_empty());
    let Some(search) = host.searched() else {
        panic!(rt; "nothing was surveyed")
    };
    assert!(rt; search.options.workers() == 2);
    assert!(rt; search.steps == Some(7000));
    assert!(rt; !search.tells_progress);
    let Some(made) = host.made() else {
        panic!(rt; "no file was given back")
    };
    assert!(rt; made.starts_with(begin.as_bytes()));
}

#[test]
fn surveys_and_writes_the_files(rt: HostRuntime) {
    assert_surveys(rt.alloc(), &rt, "--cert", "vsc-cert 1\n");
    assert_surveys(rt.alloc(), &rt, "--names", "P.1\n");
    assert_surveys(rt.alloc(), &rt, "--part", "vsc 1\n");
}

//! Runs of engines that read a trace and other texts, or a clause list and a proof, over sources and a sink that move a byte a call and fail at one of their calls.

use crate::engines::wanted_runs::{WantedRun, assert_run, cut_off};
use crate::short_devices::{SIZES, failing_at, sink_failing_at, source_of};
use dimacs::ShortSink;
use part_report::{run_part, run_part_recheck};
use std::alloc::Global;
use std::process::Abort;
use verdict_report::{Fault, ShortSource, Status, run_decode, run_lrat, run_recheck};

/// An engine that reads several texts.
#[derive(Clone, Copy)]
pub enum TextEngine {
    /// Checks a certificate of the trace.
    Recheck,
    /// Checks a certificate of the part of some names.
    PartRecheck,
    /// Makes the part of some names, and shows the names if this is true.
    Part(bool),
    /// Decodes a model of the clause list of the trace.
    Decode,
    /// Checks a proof for a clause list.
    Lrat,
}

/// A text that an engine reads.
#[derive(Clone, Copy, PartialEq, Eq)]
pub enum RunText {
    /// The trace, or the clause list.
    Trace,
    /// The certificate, the model or the proof.
    Cert,
    /// The names of operations.
    Names,
}

/// A run of an engine: its texts, of which one that it does not read is empty, what it answers, and what it writes.
pub struct TextRun {
    pub engine: TextEngine,
    pub trace: &'static str,
    pub cert: &'static str,
    pub names: &'static str,
    pub answer: Result<Status, Fault>,
    pub written: &'static [u8],
}

/// The devices of a run.
#[derive(Drop)]
struct Devices {
    trace: ShortSource<'static>,
    cert: ShortSource<'static>,
    names: ShortSource<'static>,
    out: ShortSink,
}

/// A source of the text that hands out a byte a call, and fails at this call if it is the one that fails.
fn source_where(text: &'static str, fails: bool, call: usize) -> ShortSource<'static> {
    if fails {
        failing_at(text, call)
    } else {
        source_of(text)
    }
}

impl TextRun {
    /// Returns devices that move at most this number of bytes a call, and do not fail.
    fn sound_devices(&self, alloc: Global, size: usize) -> Devices {
        Devices {
            trace: ShortSource::new(self.trace.as_bytes(), size),
            cert: ShortSource::new(self.cert.as_bytes(), size),
            names: ShortSource::new(self.names.as_bytes(), size),
            out: ShortSink::new(alloc, size),
        }
    }

    /// Returns devices that move a byte a call, of which the source of this text fails at this call.
    fn failing_devices(&self, alloc: Global, text: RunText, call: usize) -> Devices {
        Devices {
            trace: source_where(self.trace, text == RunText::Trace, call),
            cert: source_where(self.cert, text == RunText::Cert, call),
            names: source_where(self.names, text == RunText::Names, call),
            out: ShortSink::new(alloc, 1),
        }
    }

    /// Returns what is wanted if no device fails.
    fn wanted(&self) -> WantedRun<'_> {
        WantedRun {
            answer: self.answer,
            taken: self.written,
        }
    }

    /// Returns how many bytes this text has.
    fn length(&self, text: RunText) -> usize {
        match text {
            RunText::Trace => self.trace.len(),
            RunText::Cert => self.cert.len(),
            RunText::Names => self.names.len(),
        }
    }
}

/// Asserts what the engine answers over these devices, and what the sink takes.
fn assert_ends(
    alloc: Global,
    rt: &impl Abort,
    engine: TextEngine,
    devices: Devices,
    wanted: WantedRun<'_>,
    number: usize,
) {
    let Devices {
        mut trace,
        mut cert,
        mut names,
        mut out,
    } = devices;
    let answer = match engine {
        TextEngine::Recheck => run_recheck(alloc, &mut trace, &mut cert, &mut out),
        TextEngine::PartRecheck => {
            run_part_recheck(alloc, &mut trace, &mut cert, &mut names, &mut out)
        }
        TextEngine::Part(shows_names) => {
            run_part(alloc, &mut trace, &mut names, shows_names, &mut out)
        }
        TextEngine::Decode => run_decode(alloc, &mut trace, &mut cert, &mut out),
        TextEngine::Lrat => run_lrat(alloc, &mut trace, &mut cert, &mut out),
    };
    assert_run(rt, answer, out.as_slice(), wanted, number);
}

/// Asserts that each run ends so, with single bytes as with whole texts.
pub fn assert_sizes(alloc: Global, rt: &impl Abort, runs: &[TextRun]) {
    for run in runs {
        for size in SIZES {
            let devices = run.sound_devices(alloc, size);
            assert_ends(alloc, rt, run.engine, devices, run.wanted(), size);
        }
    }
}

/// Asserts that nothing is written by any of the runs if the source of this text fails at one of its calls.
pub fn assert_needs(alloc: Global, rt: &impl Abort, runs: &[TextRun], text: RunText) {
    for run in runs {
        for call in 1..=run.length(text).wrapping_add(1) {
            let devices = run.failing_devices(alloc, text, call);
            assert_ends(alloc, rt, run.engine, devices, cut_off(b""), call);
        }
    }
}

/// Asserts that each of the runs ends as ever if the source of this text fails at the call behind the one that reports its end.
pub fn assert_asks_no_more(alloc: Global, rt: &impl Abort, runs: &[TextRun], text: RunText) {
    for run in runs {
        let call = run.length(text).wrapping_add(2);
        let devices = run.failing_devices(alloc, text, call);
        assert_ends(alloc, rt, run.engine, devices, run.wanted(), call);
    }
}

/// Asserts that each run writes a prefix if the sink fails at the call after it.
pub fn assert_prefixes(alloc: Global, rt: &impl Abort, runs: &[TextRun]) {
    for run in runs {
        for count in 0..run.written.len() {
            let mut devices = run.sound_devices(alloc, 1);
            devices.out = sink_failing_at(alloc, count.wrapping_add(1));
            let wanted = cut_off(&run.written[..count]);
            assert_ends(alloc, rt, run.engine, devices, wanted, count);
        }
    }
}

//! Lines that are objects of JSON.

use crate::batch::batches::{THREE, search_by};
use crate::expectations::expect;
use batch_report::{BatchRun, JsonForm, NoMembers, VerdictTally, run_batch_in};
use dimacs::{MemorySink, SinkFault};
use std::alloc::Global;
use std::process::Abort;
use std::sync::Wait;
use std::thread::Threads;
use survey::BySaturation;
use verdict_report::ShortSource;

/// What was counted in a batch of what the source hands out, in a file with a quote in its name.
fn objects_of<R: Threads + Wait + Abort + Sync>(
    alloc: Global,
    rt: &R,
    source: &mut ShortSource<'_>,
    out: &mut MemorySink,
) -> Result<VerdictTally, SinkFault> {
    let search = search_by(rt, 2);
    let surveyor = BySaturation { budget: 1_000_000 };
    let form = JsonForm { members: NoMembers };
    let run = BatchRun {
        alloc,
        rt,
        file: "t\"",
        form: &form,
        search: &search,
        surveyor: &surveyor,
    };
    run_batch_in(&run, &mut (), source, VerdictTally::new(), out)
}

/// The objects of the three traces.
const OBJECTS: &[u8] =
    b"{\"file\":\"t\\\"\",\"number\":1,\"line\":3,\"verdict\":\"CONSISTENT\"}\n{\"file\":\"t\\\"\",\"number\":2,\"line\":6,\"verdict\":\"INCONSISTENT\",\"cubes\":4}\n{\"file\":\"t\\\"\",\"number\":3,\"line\":15,\"verdict\":\"refused\",\"refusal\":{\"area\":\"trace\",\"number\":3,\"name\":\"Header\",\"line\":15}}\n";

/// Asserts which objects are written of the source's text.
fn assert_objects<R: Threads + Wait + Abort + Sync>(
    rt: &R,
    alloc: Global,
    mut source: ShortSource<'_>,
    objects: &[u8],
) {
    let mut out = MemorySink::new(alloc);
    let outcome = objects_of(alloc, rt, &mut source, &mut out);
    expect(rt, outcome.is_ok(), 1);
    expect(rt, out.as_slice() == objects, 2);
}

#[test]
fn writes_an_object_for_each_piece(rt: HostRuntime) {
    assert_objects(&rt, rt.alloc(), ShortSource::new(THREE, 7), OBJECTS);
}

#[test]
fn a_failed_device_has_an_area_alone(rt: HostRuntime) {
    let source = ShortSource::new(THREE, 7).failing_at(3);
    let object =
        b"{\"file\":\"t\\\"\",\"number\":1,\"line\":1,\"verdict\":\"refused\",\"refusal\":{\"area\":\"device\"}}\n";
    assert_objects(&rt, rt.alloc(), source, object);
}

//! Runs from a feed of the caller's, reports that the caller computes alone, and readers and writers that fail.

use crate::bundles::{DEMO, DEMO_REPORT, SETTLES, demo_tally};
use crate::ends::{FailingReader, FailingWriter};
use crate::gates::Crowd;
use census_bundle::{Ticket, read_bundle};
use census_crew::{
    Feed, OpenGate, run, run_bytes, run_keeping, run_keeping_untold, run_on, settle, work,
};
use census_faults::{BytesFault, RunFault};
use std::alloc::Global;
use std::io;
use std::io::Read;
use std::sync::Wait;
use std::test::Fail;
use std::thread::Threads;
use watched::{Output, Streams};

#[test]
fn a_ticket_that_a_hand_took_before_is_worked_by_the_caller(rt: HostRuntime) -> Result<(), Fail> {
    let bundle = read_bundle(rt.alloc(), DEMO)?;
    let (feed, mut hands) = Feed::fill(rt.alloc(), &bundle, 2)?;
    let first = hands.get_mut(0).and_then(|hand| hand.take(&rt));
    let least = Ticket {
        folder: 1,
        number: 1,
    };
    assert!(rt; first == Some(least));
    let gate = Crowd::of(1);
    let mut out = Output::new(Vec::new(rt.alloc()));
    let tally = run_on(
        &rt,
        rt.alloc(),
        &bundle,
        SETTLES,
        feed,
        hands,
        &gate,
        &mut out,
    )?;
    assert!(rt; tally == demo_tally(1) && gate.has_met(4));
    assert!(rt; out.into_inner().as_slice() == DEMO_REPORT);
    Ok(())
}

// Two folders of a blinker each, and their report where the second is settled first.
const TWO_FOLDERS: &[u8] = b"@folder a
@file p
x = 3, y = 1
3o!
@folder b
@file q
x = 3, y = 1
3o!
";

const SECOND_FIRST: &[u8] = b"open 1 1 a
open 2 1 b
line 2 1 ok B3/S23 3 0 2 0 0 xp2_7 q
code 2 B3/S23 xp2_7 1
close 2 1 1 0 0
line 1 1 ok B3/S23 3 0 2 0 0 xp2_7 p
code 1 B3/S23 xp2_7 1
close 1 1 1 0 0
end 2 2
";

#[test]
fn results_are_settled_in_their_order(rt: HostRuntime) -> Result<(), Fail> {
    let bundle = read_bundle(rt.alloc(), TWO_FOLDERS)?;
    let mut results = Vec::new(rt.alloc());
    for folder in [2, 1] {
        let ticket = Ticket { folder, number: 1 };
        let entry = bundle.entry(ticket).ok_or("no such pattern")?;
        results.push(work(rt.alloc(), ticket, entry, SETTLES)?)?;
    }
    let mut out = Output::new(Vec::new(rt.alloc()));
    let tally = settle(rt.alloc(), &bundle, SETTLES, results, &mut out)?;
    assert!(rt; tally.resolved == 2 && tally.caught_up == 0);
    assert!(rt; out.into_inner().as_slice() == SECOND_FIRST);
    Ok(())
}

#[test]
fn with_ample_memory_nothing_is_lost(rt: HostRuntime) -> Result<(), Fail> {
    let alloc = rt.alloc();
    let bundle = read_bundle(alloc, DEMO)?;
    for workers in [1, 4] {
        let mut lost = Vec::new(alloc);
        let mut out = Output::new(Vec::new(alloc));
        let tally = run_keeping(
            &rt,
            alloc,
            &bundle,
            SETTLES,
            workers,
            &mut OpenGate,
            &mut lost,
            &mut out,
        )?;
        assert!(rt; tally == demo_tally(0) && lost.is_empty());
        assert!(rt; out.into_inner().as_slice() == DEMO_REPORT);
    }
    Ok(())
}

#[test]
fn the_tickets_of_an_earlier_run_are_dropped(rt: HostRuntime) -> Result<(), Fail> {
    let alloc = rt.alloc();
    let bundle = read_bundle(alloc, DEMO)?;
    let mut lost = Vec::new(alloc);
    lost.push(Ticket {
        folder: 1,
        number: 1,
    })?;
    let mut out = Output::new(Vec::new(alloc));
    let gate = OpenGate;
    let tally = run_keeping_untold(&rt, alloc, &bundle, SETTLES, 2, &gate, &mut lost, &mut out)?;
    assert!(rt; tally == demo_tally(0) && lost.is_empty());
    assert!(rt; out.into_inner().as_slice() == DEMO_REPORT);
    Ok(())
}

// How a run ends where its writer has room for `room` bytes, and what that has taken.
fn run_into<R: Threads + Wait + Sync>(
    rt: &R,
    alloc: Global,
    room: usize,
) -> Result<(Option<RunFault>, Vec<u8>), Fail> {
    let bundle = read_bundle(alloc, DEMO)?;
    let mut out = Output::new(FailingWriter::after(alloc, room, room));
    let answer = run(rt, alloc, &bundle, SETTLES, 2, &mut OpenGate, &mut out);
    Ok((answer.err(), out.into_inner().written))
}

#[test]
fn a_writer_that_fails_has_taken_a_prefix_of_the_report(rt: HostRuntime) -> Result<(), Fail> {
    let alloc = rt.alloc();
    let bundle = read_bundle(alloc, DEMO)?;
    for room in 0..DEMO_REPORT.len() {
        let (fault, written) = run_into(&rt, alloc, room)?;
        assert!(rt; fault == Some(RunFault::Write) && written.as_slice() == &DEMO_REPORT[..room]);
        // The caller works alone.
        let mut out = Output::new(FailingWriter::after(alloc, room, room));
        let answer = settle(alloc, &bundle, SETTLES, Vec::new(alloc), &mut out);
        assert!(rt; answer == Err(RunFault::Write) && out.failed());
        assert!(rt; out.into_inner().written.as_slice() == &DEMO_REPORT[..room]);
    }
    let mut out = Output::new(FailingWriter::after(alloc, usize::MAX, 1));
    let tally = settle(alloc, &bundle, SETTLES, Vec::new(alloc), &mut out)?;
    assert!(rt; tally == demo_tally(5) && out.into_inner().written.as_slice() == DEMO_REPORT);
    Ok(())
}

// The fault, if any, of a run over the bytes of a reader, and its output to a writer with room for `room` bytes.
fn fault_of<I: Read + Drop, R: Threads + Wait + Sync>(
    rt: &R,
    alloc: Global,
    input: I,
    room: usize,
) -> (Option<BytesFault>, Vec<u8>) {
    let output = FailingWriter::after(alloc, room, room);
    let mut streams = Streams::new(input, output, Vec::new(alloc));
    let answer = run_bytes(rt, alloc, SETTLES, 2, &mut OpenGate, &mut streams);
    let (_, output, _) = streams.into_inner();
    (answer.err(), output.written)
}

#[test]
fn a_text_that_fails_or_never_ends_is_not_run(rt: HostRuntime) {
    for k in 0..DEMO.len() {
        let input = FailingReader { left: &DEMO[..k] };
        let (fault, written) = fault_of(&rt, rt.alloc(), input, usize::MAX);
        assert!(rt; fault == Some(BytesFault::Read) && written.is_empty());
    }
    let (fault, written) = fault_of(&rt, rt.alloc(), io::repeat(b'@'), usize::MAX);
    assert!(rt; fault == Some(BytesFault::TooLong) && written.is_empty());
    let (fault, written) = fault_of(&rt, rt.alloc(), DEMO, 30);
    assert!(rt; fault == Some(BytesFault::Write) && written.as_slice() == &DEMO_REPORT[..30]);
}

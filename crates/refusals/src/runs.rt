//! Calls on feeds and runs.
ghost use Rattle.std.specs.Prelude.{◌≤◌};
ghost use Rattle.census_bundle.specs.Sizes.{worker_limit};

use crate::bundles::bundle_of;
use crate::call;
use crate::calls::promised;
use census_bundle::{Bundle, Ticket, read_bundle};
use census_crew::{Feed, OpenGate, Tally, run, run_bytes, run_keeping};
use census_faults::{BytesFault, RunFault};
use life_answer::Question;
use std::alloc::Global;
use std::sync::Wait;
use std::thread::Threads;
use watched::{Output, Streams};

const SETTLES: Question = Question::Settles {
    bound: 300,
    cells: None,
};

// A bundle in which the first two patterns are quick. The third needs more generations, and the last has a fault.
const TEXT: &[u8] = b"@folder demo
@file block
x = 2, y = 2, rule = B3/S23
2o$2o!
@file glider
x = 3, y = 3, rule = B3/S23
bo$2bo$3o!
@file rpent
x = 3, y = 3, rule = B3/S23
b2o$2o$bo!
@file broken
x = 3, y = 1, rule = B3/S23
3o
";

const REPORT: &[u8] = b"open 1 4 demo
line 1 1 ok B3/S23 4 0 1 0 0 xs4_33 block
line 1 2 ok B3/S23 5 0 4 1 1 xq4_153 glider
line 1 3 none B3/S23 5 rpent
line 1 4 bad 10 broken
code 1 B3/S23 xs4_33 1
code 1 B3/S23 xq4_153 1
close 1 4 2 1 1
end 1 4
";

/// A call that fills a feed, with more patterns than a new deque has room for.
pub fn call_feed(rt: &impl Print, alloc: Global) -> Option<()> {
    let bundle = bundle_of(alloc, 100)?;
    let (feed, hands) = call!(rt, "Feed::fill", Feed::fill(alloc, &bundle, 2))?;
    promised(hands.len() == 2 && feed.close(hands) == 100)
}

// Runs a bundle. `written` becomes its output.
fn report<R: Threads + Wait + Sync>(
    rt: &R,
    alloc: Global,
    bundle: &Bundle,
    workers: u32,
    written: &mut Vec<u8>,
) -> Result<Tally, RunFault>
    requires { (1 ≤ workers) × (workers ≤ worker_limit) }
{
    let mut out = Output::new(Vec::new(alloc));
    let tally = run(rt, alloc, bundle, SETTLES, workers, &mut OpenGate, &mut out);
    *written = out.into_inner();
    tally
}

// Runs a bundle, and loses the patterns for which memory is refused. `written` becomes its output, and `lost` the tickets of
// these patterns.
fn report_keeping<R: Threads + Wait + Sync>(
    rt: &R,
    alloc: Global,
    bundle: &Bundle,
    workers: u32,
    lost: &mut Vec<Ticket>,
    written: &mut Vec<u8>,
) -> Result<Tally, RunFault>
    requires { (1 ≤ workers) × (workers ≤ worker_limit) }
{
    let mut out = Output::new(Vec::new(alloc));
    let tally = run_keeping(
        rt,
        alloc,
        bundle,
        SETTLES,
        workers,
        &mut OpenGate,
        lost,
        &mut out,
    );
    *written = out.into_inner();
    tally
}

// A bundle of one collection in which the texts of these tickets are lost.
fn lossy(alloc: Global, bundle: &Bundle, lost: &[Ticket]) -> Option<Bundle> {
    let folder = bundle.folders().first()?;
    let mut copy = Bundle::empty(alloc);
    copy.add_folder(folder.name.as_slice()).ok()?;
    let mut number = 0u32;
    for entry in folder.entries.as_slice() {
        number = number.saturating_add(1);
        if lost.contains(&Ticket { folder: 1, number }) {
            copy.add_lost(entry.name.as_slice()).ok()?;
        } else {
            copy.add_entry(entry.name.as_slice(), entry.text.as_slice())
                .ok()?;
        }
    }
    Some(copy)
}

// The report of a bundle in which the texts of these tickets are lost.
fn report_losing<R: Threads + Wait + Sync>(
    rt: &R,
    alloc: Global,
    bundle: &Bundle,
    lost: &[Ticket],
) -> Option<Vec<u8>> {
    let copy = lossy(alloc, bundle, lost)?;
    let mut written = Vec::new(alloc);
    report(rt, alloc, &copy, 1, &mut written).ok()?;
    Some(written)
}

// True where this is a prefix of the report of a bundle in which the texts of these tickets are lost, and where `is_whole`, all
// of it.
fn begins<R: Threads + Wait + Sync>(
    rt: &R,
    alloc: Global,
    bundle: &Bundle,
    lost: &[Ticket],
    written: &[u8],
    is_whole: bool,
) -> bool {
    match report_losing(rt, alloc, bundle, lost) {
        Some(report) => {
            report.as_slice().starts_with(written) && (!is_whole || report.len() == written.len())
        }
        None => false,
    }
}

// Runs a bundle's text. `written` becomes its output.
fn report_text<R: Threads + Wait + Sync>(
    rt: &R,
    alloc: Global,
    workers: u32,
    written: &mut Vec<u8>,
) -> Result<Tally, BytesFault>
    requires { (1 ≤ workers) × (workers ≤ worker_limit) }
{
    let mut streams = Streams::new(TEXT, Vec::new(alloc), Vec::new(alloc));
    let tally = run_bytes(rt, alloc, SETTLES, workers, &mut OpenGate, &mut streams);
    let (_, output, _) = streams.into_inner();
    *written = output;
    tally
}

/// Calls that run a bundle and its text, with this number of workers.
pub fn call_runs<R: Print + Threads + Wait + Sync>(
    rt: &R,
    alloc: Global,
    names: [&str; 2],
    workers: u32,
) -> Option<()>
    requires { (1 ≤ workers) × (workers ≤ worker_limit) }
{
    let bundle = read_bundle(alloc, TEXT).ok()?;
    let mut written = Vec::new(alloc);
    call!(
        rt,
        names[0],
        report(rt, alloc, &bundle, workers, &mut written),
        REPORT.starts_with(written.as_slice()),
    )?;
    promised(written.as_slice() == REPORT)?;
    call!(
        rt,
        names[1],
        report_text(rt, alloc, workers, &mut written),
        REPORT.starts_with(written.as_slice()),
    )?;
    promised(written.as_slice() == REPORT)
}

/// A call that runs a bundle with this number of workers, and loses the patterns for which memory is refused.
pub fn call_keeping<R: Print + Threads + Wait + Sync>(
    rt: &R,
    alloc: Global,
    name: &str,
    workers: u32,
) -> Option<()>
    requires { (1 ≤ workers) × (workers ≤ worker_limit) }
{
    let bundle = read_bundle(alloc, TEXT).ok()?;
    let mut lost = Vec::new(alloc);
    let mut written = Vec::new(alloc);
    call!(
        rt,
        name,
        report_keeping(rt, alloc, &bundle, workers, &mut lost, &mut written),
        begins(
            rt,
            alloc,
            &bundle,
            lost.as_slice(),
            written.as_slice(),
            false
        ),
    )?;
    promised(begins(
        rt,
        alloc,
        &bundle,
        lost.as_slice(),
        written.as_slice(),
        true,
    ))
}

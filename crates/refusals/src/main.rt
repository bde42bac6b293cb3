//! Calls that can run out of memory: `checks/refused` refuses each allocation of each call in turn. Whatever a call that ran
//! out of memory promises to leave unchanged must be unchanged, and the same call with memory must succeed.
//!
//! A line names a call, and says whether it was refused memory. The program ends, with status 1, at the first call that breaks
//! a promise.
#![tactic(auto)]

mod bundles;
mod calls;
mod cells;
mod formats;
mod planes;
mod results;
mod runs;

use life_board::Board;
use life_plane::ListPlane;
use life_tile::TilePlane;
use planes::{LONG_WALK, SHORT_WALK, SPREAD, SQUARE, call_plane, call_steps};
use std::alloc::Global;
use std::process::ExitCode;
use std::sync::Wait;
use std::thread::Threads;

const LIST_PLANE: [&str; 3] = [
    "ListPlane::from_cells",
    "ListPlane::cells",
    "ListPlane::copy",
];

const TILE_PLANE: [&str; 3] = [
    "TilePlane::from_cells",
    "TilePlane::cells",
    "TilePlane::copy",
];

const BOARD: [&str; 3] = ["Board::from_cells", "Board::cells", "Board::copy"];

const ONE_WORKER: [&str; 2] = ["run, by one worker", "run_bytes, by one worker"];

const TWO_WORKERS: [&str; 2] = ["run, by two workers", "run_bytes, by two workers"];

// Calls on planes of each kind.
fn call_planes(rt: &impl Print, alloc: Global) -> Option<()> {
    call_plane::<ListPlane>(rt, alloc, LIST_PLANE, SPREAD)?;
    call_steps::<ListPlane>(rt, alloc, "ListPlane::step", &SHORT_WALK)?;
    call_plane::<TilePlane>(rt, alloc, TILE_PLANE, SPREAD)?;
    call_steps::<TilePlane>(rt, alloc, "TilePlane::step", &LONG_WALK)?;
    call_plane::<Board>(rt, alloc, BOARD, SQUARE)?;
    call_steps::<Board>(rt, alloc, "Board::step", &LONG_WALK)
}

// Makes each call.
fn call_all<R: Print + Threads + Wait + Sync>(rt: &R, alloc: Global) -> Option<()> {
    formats::call_texts(rt, alloc)?;
    formats::call_readers(rt, alloc)?;
    cells::call_shapes(rt, alloc)?;
    cells::call_texts(rt, alloc)?;
    call_planes(rt, alloc)?;
    bundles::call_bundles(rt, alloc)?;
    results::call_work(rt, alloc)?;
    results::call_collector(rt, alloc)?;
    runs::call_feed(rt, alloc)?;
    runs::call_runs(rt, alloc, ONE_WORKER, 1)?;
    runs::call_runs(rt, alloc, TWO_WORKERS, 2)?;
    runs::call_keeping(rt, alloc, "run_keeping, by one worker", 1)?;
    runs::call_keeping(rt, alloc, "run_keeping, by four workers", 4)
}

fn main(rt: HostRuntime) -> ExitCode {
    match call_all(&rt, rt.alloc()) {
        Some(()) => ExitCode::SUCCESS,
        None => ExitCode::FAILURE,
    }
}

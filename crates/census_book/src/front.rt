//! The progress of each collection.
ghost use Rattle.std.specs.Prelude.{◌≡◌, ◌≤◌, ◌<◌, length, IfOk};
ghost use Rattle.census_bundle.specs.Sizes.{IsWithinCounts};
ghost use Rattle.census_bundle.specs.Tickets.{no_tickets};
ghost use Rattle.census_book.specs.Front.{IsFront, IsNextOpen};

use census_bundle::Folder;
use std::alloc::{AllocError, Global};

/// For each collection, the number of its patterns that have arrived before the first that has not; and the first collection
/// that has not arrived whole, or the number of collections.
#[derive(Drop)]
pub struct Front {
    pub runs: Vec<u32>,
    pub first_open: usize,
}

// The first collection from `from` on that is not whole, if the run of the collection c is m.
pub fn next_open(runs: &[u32], folders: &[Folder], c: u32, m: u32, from: usize) -> usize
    requires each { length runs.now ≡ length folders.now }
    requires within { from ≤ length folders.now }
    requires small { IsWithinCounts folders.now }
    ensures { IsNextOpen folders.now runs.now (record { folder = c; run = m }) from result }
{
    for k in from..folders.len() {
        let run = if k as u32 + 1 == c { m } else { runs[k] };
        if run as usize != folders[k].entries.as_slice().len() {
            return k;
        }
    }
    folders.len()
}

impl Front {
    /// The front before anything has arrived.
    pub fn new(alloc: Global, folders: &[Folder]) -> Result<Front, AllocError>
        requires { IsWithinCounts folders.now }
        ensures { IfOk result (λ f. IsFront folders.now no_tickets f.runs.items f.first_open) }
    {
        let runs = vec![in alloc; 0; folders.len()]?;
        let first_open = next_open(&runs, folders, 0, 0, 0);
        Ok(Front { runs, first_open })
    }
}

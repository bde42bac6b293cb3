//! The text that a result releases.
ghost use Rattle.std.specs.Prelude.{◌≡◌, ◌≤◌, ◌<◌, ◌++◌, ◌-◌, ◌+◌, ℕ, true, false, [], ◌∷◌, length, take, drop, map, OnOk, IfOk, Some};
ghost use Rattle.census_bundle.specs.Sizes.{IsWithinCounts, count_limit};
ghost use Rattle.census_bundle.specs.Tickets.{has_ticket, element_at, ticket};
ghost use Rattle.census_format.specs.Lines.{answers, end_line, pattern_lines, pattern_count, groups_text};
ghost use Rattle.census_book.specs.Collecting.{IsResultOf};
ghost use Rattle.census_book.specs.Front.{IsFront, IsRelease};
ghost use Rattle.census_format.specs.Reports.{folder_out, run_of, text_at_start};

use crate::arrival::Arrival;
use crate::done::Done;
use crate::front::{Front, next_open};
use crate::results::Results;
use census_bundle::{Folder, Ticket};
use census_format::{push_closing, push_end, push_open};
use life_answer::{Answer, Question};
use std::alloc::{AllocError, Global};

// The number of patterns of the collection that have arrived before the first that has not, if the first `from` have.
fn run_count(arrival: &Arrival, c: u32, folder: &Folder, from: usize) -> usize
    requires small { length folder.now.entries ≤ count_limit }
    requires within { from ≤ length folder.now.entries }
    requires before { (j : ℕ) → j < from → has_ticket arrival.now.taken (ticket c (1 + j)) ≡ true }
    ensures run { result ≡ run_of arrival.now.taken c folder.now }
    ensures within { result ≤ length folder.now.entries }
{
    let entries = folder.entries.as_slice();
    for i in from..entries.len() {
        let ticket = Ticket {
            folder: c,
            number: i as u32 + 1,
        };
        if !arrival.holds(ticket) {
            return i;
        }
    }
    entries.len()
}

// Appends the lines of the collection's patterns after the first k, up to the first m.
fn push_patterns(
    text: &mut Vec<u8>,
    arrival: &Arrival,
    c: u32,
    folder: &Folder,
    k: usize,
    m: usize,
) -> Result<(), AllocError>
    requires small { length folder.now.entries ≤ count_limit }
    requires at { element_at arrival.now.bundle c ≡ Some folder.now }
    requires own { c ≡ arrival.now.folder }
    requires run { m ≡ run_of arrival.now.taken c folder.now }
    requires within { m ≤ length folder.now.entries }
    ensures { OnOk result
        (text.new.items ≡
        text.old.items ++
        groups_text (take (m - k)
        (drop k (pattern_lines arrival.now.question c 1 folder.now.entries)))) }
{
    let entries = folder.entries.as_slice();
    for i in k..m {
        let done = arrival.get(Ticket {
            folder: c,
            number: i as u32 + 1,
        });
        done.push_lines(text, &entries[i])?;
    }
    Ok(())
}

// The answers for the patterns of a collection that has arrived whole.
fn folder_answers<'r>(
    alloc: Global,
    arrival: &Arrival<'r, '_>,
    c: u32,
    folder: &Folder,
) -> Result<Vec<&'r Answer>, AllocError>
    requires small { length folder.now.entries ≤ count_limit }
    requires at { element_at arrival.now.bundle c ≡ Some folder.now }
    requires own { c ≡ arrival.now.folder }
    requires whole { length folder.now.entries ≡ run_of arrival.now.taken c folder.now }
    ensures { IfOk result
        (λ v. map (λ a. a.now) v.items ≡ answers arrival.now.question folder.now.entries) }
{
    let len = folder.entries.as_slice().len();
    let mut found = Vec::with_capacity(alloc, len)?;
    for i in 0..len {
        let done = arrival.get(Ticket {
            folder: c,
            number: i as u32 + 1,
        });
        found.push(done.answer())?;
    }
    Ok(found)
}

/// Appends the text that is released before any ticket is taken.
pub fn push_start(
    alloc: Global,
    text: &mut Vec<u8>,
    folders: &[Folder],
    question: Question,
) -> Result<(), AllocError>
    requires { IsWithinCounts folders.now }
    ensures { OnOk result (text.new.items ≡ text.old.items ++ text_at_start folders.now question) }
{
    let mut is_empty = true;
    for i in 0..folders.len() {
        let folder = &folders[i];
        push_open(text, i as u32 + 1, folder)?;
        if folder.entries.as_slice().is_empty() {
            push_closing(alloc, text, question, i as u32 + 1, folder, &[])?;
        } else {
            is_empty = false;
        }
    }
    if is_empty {
        push_end(text, folders)?;
    }
    Ok(())
}

// Appends the lines of a collection whose run grows from k patterns to m. If m is all of them, also appends the lines that
// end its section.
fn push_folder(
    alloc: Global,
    text: &mut Vec<u8>,
    arrival: &Arrival,
    c: u32,
    folder: &Folder,
    k: usize,
    m: usize,
) -> Result<(), AllocError>
    requires small { length folder.now.entries ≤ count_limit }
    requires at { element_at arrival.now.bundle c ≡ Some folder.now }
    requires own { c ≡ arrival.now.folder }
    requires run { m ≡ run_of arrival.now.taken c folder.now }
    requires within { m ≤ length folder.now.entries }
    ensures { OnOk result
        (text.new.items ≡
        text.old.items ++ groups_text (folder_out arrival.now.question c folder.now k m)) }
{
    push_patterns(text, arrival, c, folder, k, m)?;
    if m == folder.entries.as_slice().len() {
        let found = folder_answers(alloc, arrival, c, folder)?;
        push_closing(alloc, text, arrival.question(), c, folder, &found)?;
    }
    Ok(())
}

/// The effect of a result in addition to its text: the run of its collection then, and the first collection that is then
/// open.
#[derive(Clone, Copy)]
pub struct Release {
    pub run: u32,
    pub first_open: usize,
}

/// The collection of this number.
pub fn folder_at(folders: &[Folder], c: u32) -> &Folder
    requires small { IsWithinCounts folders.now }
    requires number { (0 < c) × (c ≤ length folders.now) }
    ensures at { element_at folders.now c ≡ Some result.now }
    ensures small { length result.now.entries ≤ count_limit }
{
    &folders[c as usize - 1]
}

/// Replaces the text by the one that this result releases in addition to those that were taken.
pub fn released<'a>(
    alloc: Global,
    results: &Results<'a>,
    done: &Done<'a>,
    front: &Front,
    text: &mut Vec<u8>,
) -> Result<Release, AllocError>
    requires belongs { IsResultOf results.now.bundle results.now.question done.now }
    requires new { has_ticket results.now.taken done.now.ticket ≡ false }
    requires front { IsFront results.now.bundle results.now.taken front.now.runs.items
        front.now.first_open }
    ensures { IfOk result
        (λ r. IsRelease results.now.bundle results.now.question results.now.taken
        front.now.runs.items front.now.first_open done.now.ticket
        (record { text = text.new.items; run = r.run; first_open = r.first_open })) }
{
    let arrival = Arrival::new(results, done);
    let folders = results.bundle().folders();
    let c = done.ticket().folder;
    let folder = folder_at(folders, c);
    let k = front.runs[c as usize - 1] as usize;
    let m = run_count(&arrival, c, folder, k);
    let first_open = next_open(&front.runs, folders, c, m as u32, front.first_open);
    text.clear();
    push_folder(alloc, text, &arrival, c, folder, k, m)?;
    if first_open == folders.len() {
        push_end(text, folders)?;
    }
    Ok(Release {
        run: m as u32,
        first_open,
    })
}

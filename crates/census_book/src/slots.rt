//! A slot for the result of each pattern of a bundle.
ghost use Rattle.std.specs.Prelude.{◌≡◌, IfSome, IfNone, IfOk, IfErr, OnOk, OnErr, None, Some, is_some, length, map, replicate, slice_set, vec_capacity, ◌-◌, ◌<◌, ◌≤◌};
ghost use Rattle.census_bundle.specs.Tickets.{element_at};
ghost use Rattle.census_book.specs.Slots.{dropped, empty_slots, work_in, padded_row, result_at, work_at, taking_at, with_result, without_results, HasSlot, IsFull, Row};

use crate::done::Done;
use crate::no_room::NoRoom;
use census_bundle::{Folder, Ticket};
use std::alloc::{AllocError, Global};
use std::marker::Model;

/// The slots of a collection. They are seen as the content of each: a result, or only that it was taken. Room for all of
/// them is made with the first result, and memory is first touched where a result is put. Once each is taken the results may
/// be dropped.
#[derive(Drop)]
pub struct Row<'a> {
    slots: Vec<Option<Done<'a>>>,
    len: usize,
    is_dropped: bool,
}

impl<'a> Model for Row<'a> {
    ghost use Rattle.std.specs.Prelude.{◌≡◌, ◌≤◌, [], true, length};
    ghost use Rattle.census_book.specs.Slots.{Row, row_of};

    ghost Value = { Row };

    ghost view = { λ r. row_of r.is_dropped r.len r.slots.items };

    ghost invariant = { λ r. (length r.slots.items ≤ r.len)
        × (r.is_dropped ≡ true → r.slots.items ≡ []) };
}

// Appends empty slots up to `len`, and makes room for `all`.
fn fill<'a>(slots: &mut Vec<Option<Done<'a>>>, len: usize, all: usize) -> Result<(), AllocError>
    requires { (len ≤ all) × (length slots.old.items ≤ all) }
    ensures items { OnOk result (slots.new.items ≡ padded_row len slots.old.items) }
    ensures room { OnOk result (all ≤ vec_capacity slots.new) }
    ensures unchanged { OnErr result (slots.new.items ≡ slots.old.items) }
{
    slots.reserve_exact(all - slots.len())?;
    for _ in slots.len()..len {
        slots.push_reserved(None);
    }
    Ok(())
}

// The result in the slot of this number, from 1.
fn result_in<'r, 'a>(slots: &'r [Option<Done<'a>>], number: u32) -> Option<&'r Done<'a>>
    ensures some { IfSome result (λ d. work_in (element_at slots.now number) ≡ Some d.now) }
    ensures none { IfNone result (work_in (element_at slots.now number) ≡ None) }
{
    if number == 0 {
        return None;
    }
    match slots.get(number as usize - 1) {
        Some(slot) => slot.as_ref(),
        None => None,
    }
}

impl<'a> Row<'a> {
    /// `len` empty slots.
    pub fn new(alloc: Global, len: usize) -> Row<'a>
        ensures { result ≡ replicate len None }
    {
        Row {
            slots: Vec::new(alloc),
            len,
            is_dropped: false,
        }
    }

    /// True if the slot of this number, from 1, is taken.
    pub fn holds(&self, number: u32) -> bool
        ensures { result ≡ is_some (work_at self.now number) }
    {
        if self.is_dropped {
            return 0 < number && number as usize <= self.len;
        }
        self.get(number).is_some()
    }

    /// The result that is kept in the slot of this number, from 1.
    pub fn get(&self, number: u32) -> Option<&Done<'a>>
        ensures some { IfSome result (λ d. work_in (work_at self.now number) ≡ Some d.now) }
        ensures none { IfNone result (work_in (work_at self.now number) ≡ None) }
    {
        result_in(self.slots.as_slice(), number)
    }

    /// Puts a result into the slot of this number, from 1, which is empty. When out of memory, the result is given back.
    pub fn put(&mut self, number: u32, done: Done<'a>) -> Result<(), NoRoom<'a>>
        requires within { (0 < number) × (number ≤ length self.old) }
        requires empty { work_at self.old number ≡ None }
        ensures put { OnOk result
            (self.new ≡ slice_set self.old (number - 1) (Some (Some done.entry))) }
        ensures back { IfErr result (λ e. e.done ≡ done.entry) }
        ensures unchanged { OnErr result (self.new ≡ self.old) }
    {
        let at = number as usize - 1;
        if fill(&mut self.slots, at, self.len).is_err() {
            return Err(NoRoom { done });
        }
        if at < self.slots.len() {
            self.slots[at] = Some(done);
            return Ok(());
        }
        self.slots.push_reserved(Some(done));
        Ok(())
    }

    /// Drops the results, and frees their memory. Each slot stays taken.
    pub fn drop_results(&mut self)
        requires { IsFull self.old }
        ensures { self.new ≡ map dropped self.old }
    {
        self.slots.clear();
        self.slots.shrink_to_fit();
        self.is_dropped = true;
    }
}

/// A slot for each pattern of a bundle. They are seen as the content of each, collection by collection.
#[derive(Drop)]
pub struct Slots<'a> {
    rows: Vec<Row<'a>>,
}

impl<'a> Model for Slots<'a> {
    ghost use Rattle.std.specs.Prelude.{List};
    ghost use Rattle.census_book.specs.Slots.{Row};

    ghost Value = { List Row };

    ghost view = { λ s. s.rows.items };
}

impl<'a> Slots<'a> {
    /// An empty slot for each pattern.
    pub fn new(alloc: Global, folders: &[Folder]) -> Result<Slots<'a>, AllocError>
        ensures { IfOk result (λ s. s ≡ empty_slots folders.now) }
    {
        let mut rows = Vec::with_capacity(alloc, folders.len())?;
        for folder in folders {
            rows.push(Row::new(alloc, folder.entries.as_slice().len()))?;
        }
        Ok(Slots { rows })
    }

    // The slots of the collection of this number.
    fn row(&self, folder: u32) -> Option<&Row<'a>>
        ensures some { IfSome result (λ r. element_at self.now folder ≡ Some r.now) }
        ensures none { IfNone result (element_at self.now folder ≡ None) }
    {
        if folder == 0 {
            return None;
        }
        self.rows.get(folder as usize - 1)
    }

    /// True if the slot of this ticket is taken.
    pub fn holds(&self, ticket: Ticket) -> bool
        ensures { result ≡ is_some (taking_at self.now ticket) }
    {
        match self.row(ticket.folder) {
            Some(row) => row.holds(ticket.number),
            None => false,
        }
    }

    /// The result that is kept in the slot of this ticket.
    pub fn get(&self, ticket: Ticket) -> Option<&Done<'a>>
        ensures some { IfSome result (λ d. result_at self.now ticket ≡ Some d.now) }
        ensures none { IfNone result (result_at self.now ticket ≡ None) }
    {
        match self.row(ticket.folder) {
            Some(row) => row.get(ticket.number),
            None => None,
        }
    }

    /// Puts a result into the slot of its ticket, which is empty. When out of memory, the result is given back.
    pub fn put(&mut self, done: Done<'a>) -> Result<(), NoRoom<'a>>
        requires slot { HasSlot self.old done.ticket }
        requires empty { taking_at self.old done.ticket ≡ None }
        ensures put { OnOk result (self.new ≡ with_result self.old done.entry) }
        ensures back { IfErr result (λ e. e.done ≡ done.entry) }
        ensures unchanged { OnErr result (self.new ≡ self.old) }
    {
        let ticket = done.ticket();
        self.rows[ticket.folder as usize - 1].put(ticket.number, done)
    }

    /// Drops the results of the collection of this number, all of whose slots are taken, and frees their memory.
    pub fn drop_results(&mut self, folder: u32)
        requires within { (0 < folder) × (folder ≤ length self.old) }
        requires full { (row : Row) → element_at self.old folder ≡ Some row → IsFull row }
        ensures { self.new ≡ without_results self.old folder }
    {
        self.rows[folder as usize - 1].drop_results();
    }
}

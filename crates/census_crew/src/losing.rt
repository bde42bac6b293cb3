//! The tickets that a run could not work, and a copy of the bundle in which their texts are lost.
ghost use Rattle.std.specs.Prelude.{◌≡◌, ◌≤◌, [], OnOk, Some, length};
ghost use Rattle.census_bundle.specs.Growing.{with_entry};
ghost use Rattle.census_bundle.specs.Sizes.{count_limit};
ghost use Rattle.census_bundle.specs.Tickets.{element_at, has_ticket, tickets_of};
ghost use Rattle.census_book.specs.Losses.{lose_all, lose_entries, lose_if};
ghost use Rattle.census_crew.specs.Losing.{Misses, with_entries};

use census_book::Collector;
use census_bundle::{AddFault, Bundle, Entry, Folder, Ticket};
use std::alloc::AllocError;

// Appends the tickets of a collection that were not taken.
fn push_missing_of(
    collector: &Collector,
    c: u32,
    folder: &Folder,
    tickets: &mut Vec<Ticket>,
) -> Result<(), AllocError>
    requires at { element_at collector.now.bundle c ≡ Some folder.now }
    requires small { length folder.now.entries ≤ count_limit }
    requires before { Misses collector.now.bundle collector.now.taken tickets.old.items }
    ensures { OnOk result (Misses collector.now.bundle collector.now.taken tickets.new.items) }
{
    let entries = folder.entries.as_slice();
    for i in 0..entries.len() {
        let ticket = Ticket {
            folder: c,
            number: i as u32 + 1,
        };
        if collector.holds(ticket) {
            continue;
        }
        tickets.push(ticket)?;
    }
    Ok(())
}

/// Replaces the tickets by those that were not taken, in rising order.
pub(crate) fn list_missing(
    collector: &Collector,
    tickets: &mut Vec<Ticket>,
) -> Result<(), AllocError>
    ensures { OnOk result (Misses collector.now.bundle collector.now.taken tickets.new.items) }
{
    tickets.clear();
    let folders = collector.bundle().folders();
    for k in 0..folders.len() {
        push_missing_of(collector, k as u32 + 1, &folders[k], tickets)?;
    }
    Ok(())
}

// True if a ticket is among these.
fn is_among(tickets: &[Ticket], ticket: Ticket) -> bool
    ensures { result ≡ has_ticket (tickets_of tickets.now) ticket }
{
    tickets.contains(&ticket)
}

// Adds an entry at the end of the last folder, as lost, or as it is. An entry of a bundle that is lost has no text; one that
// had would not be added.
fn add_entry(copy: &mut Bundle, entry: &Entry, is_lost: bool) -> Result<(), AddFault>
    ensures { OnOk result (copy.new ≡ with_entry copy.old (lose_if is_lost entry.now)) }
{
    let name = entry.name.as_slice();
    let text = entry.text.as_slice();
    if is_lost {
        return copy.add_lost(name);
    }
    if !entry.is_lost {
        return copy.add_entry(name, text);
    }
    if !text.is_empty() {
        return Err(AddFault::Memory);
    }
    copy.add_lost(name)
}

// Adds the entries of a collection at the end of the last folder, those of these tickets as lost.
fn add_entries(copy: &mut Bundle, c: u32, folder: &Folder, lost: &[Ticket]) -> Result<(), AddFault>
    requires small { length folder.now.entries ≤ count_limit }
    ensures { OnOk result
        (copy.new ≡
        with_entries copy.old
        (lose_entries (λ t. has_ticket (tickets_of lost.now) t) c 1 folder.now.entries)) }
{
    let entries = folder.entries.as_slice();
    for i in 0..entries.len() {
        let ticket = Ticket {
            folder: c,
            number: i as u32 + 1,
        };
        add_entry(copy, &entries[i], is_among(lost, ticket))?;
    }
    Ok(())
}

/// Makes an empty bundle the copy of a bundle, in which the texts of these tickets are lost.
pub(crate) fn copy_losing(
    copy: &mut Bundle,
    bundle: &Bundle,
    lost: &[Ticket],
) -> Result<(), AddFault>
    requires { copy.old ≡ [] }
    ensures { OnOk result (copy.new ≡ lose_all lost.now bundle.now) }
{
    let folders = bundle.folders();
    for k in 0..folders.len() {
        let folder = &folders[k];
        copy.add_folder(folder.name.as_slice())?;
        add_entries(copy, k as u32 + 1, folder, lost)?;
    }
    Ok(())
}

//! Pushing the items of a feed, and dealing its hands.
ghost use Rattle.std.specs.Prelude.{◌≡◌, ℕ, ◌+◌, ◌<◌, List, [], ◌∷◌, ◌++◌, length, All, IfOk, OnOk};
ghost use Rattle.crossbeam_deque.specs.Handles.{worker_deque, worker_view};
ghost use Rattle.census_bundle.specs.declared.bundle.Folder.{Folder};
ghost use Rattle.census_bundle.specs.Sizes.{IsWithinCounts};
ghost use Rattle.census_crew.specs.Items.{folder_tickets, tickets, end_marks, items};
ghost use Rattle.census_crew.specs.Fillings.{IsFilling, CanFollow};
ghost use Rattle.census_crew.specs.Feeds.{IsNew};

use crate::handles::Hand;
use crate::item::Item;
use crate::turns::{Begins, Owner, Pushes};
use census_bundle::{Bundle, Ticket};
use std::alloc::{AllocError, Global};

// Pushes one item.
fn push(owner: &mut Owner, item: Item) -> Result<(), AllocError>
    requires filling { IsFilling owner.old 0 }
    requires next { CanFollow (worker_view owner.old).filled (item ∷ []) }
    ensures filling { OnOk result (IsFilling owner.new 0) }
    ensures pushed { OnOk result
        ((worker_view owner.new).filled ≡ (worker_view owner.old).filled ++ item ∷ []) }
{
    owner.push_as::<Pushes>(item).map_err(|_| AllocError)
}

// Pushes the tickets of one folder.
fn push_folder(owner: &mut Owner, folder: u32, count: u32) -> Result<(), AllocError>
    requires filling { IsFilling owner.old 0 }
    requires next { CanFollow (worker_view owner.old).filled (folder_tickets folder count) }
    ensures filling { OnOk result (IsFilling owner.new 0) }
    ensures pushed { OnOk result
        ((worker_view owner.new).filled ≡
        (worker_view owner.old).filled ++ folder_tickets folder count) }
{
    for before in 0..count {
        let number = before + 1;
        push(owner, Item::Work(Ticket { folder, number }))?;
    }
    Ok(())
}

// Pushes all tickets of a bundle.
pub(crate) fn push_tickets(owner: &mut Owner, bundle: &Bundle) -> Result<(), AllocError>
    requires filling { IsFilling owner.old 0 }
    requires first { (worker_view owner.old).filled ≡ [] }
    ensures filling { OnOk result (IsFilling owner.new 0) }
    ensures pushed { OnOk result ((worker_view owner.new).filled ≡ tickets bundle.now) }
    ensures small { IsWithinCounts bundle.now }
{
    let folders = bundle.folders();
    let mut number = 1;
    for folder in folders {
        push_folder(owner, number, folder.entries.as_slice().len() as u32)?;
        number += 1;
    }
    Ok(())
}

// Pushes an end mark for each hand.
pub(crate) fn push_marks(owner: &mut Owner, workers: u32) -> Result<(), AllocError>
    requires filling { IsFilling owner.old 0 }
    requires next { CanFollow (worker_view owner.old).filled (end_marks workers) }
    ensures filling { OnOk result (IsFilling owner.new 0) }
    ensures pushed { OnOk result
        ((worker_view owner.new).filled ≡ (worker_view owner.old).filled ++ end_marks workers) }
{
    for before in 0..workers {
        push(owner, Item::Mark(before + 1))?;
    }
    Ok(())
}

// A new hand, with a part of the filler's view.
fn begin(owner: &mut Owner) -> Result<Hand, AllocError>
    requires filling { IsFilling owner.old (worker_view owner.old).begun }
    requires room { (bundle : List Folder) × (workers : ℕ) ×
        (items bundle workers ≡ (worker_view owner.old).filled) ×
        ((worker_view owner.old).begun < workers) }
    ensures filling { OnOk result (IsFilling owner.new ((worker_view owner.old).begun + 1)) }
    ensures same { OnOk result
        (((worker_view owner.new).filled ≡ (worker_view owner.old).filled) ×
        (worker_deque owner.new ≡ worker_deque owner.old)) }
    ensures hand { IfOk result (λ h. IsNew owner.new h) }
{
    let stealer = owner.stealer()?;
    let pass = owner.another::<Begins>();
    Ok(Hand {
        stealer,
        pass,
        finished: false,
    })
}

// A hand for each worker.
pub(crate) fn deal(owner: &mut Owner, alloc: Global, workers: u32) -> Result<Vec<Hand>, AllocError>
    requires filling { IsFilling owner.old 0 }
    requires filled { (bundle : List Folder) ×
        (items bundle workers ≡ (worker_view owner.old).filled) }
    ensures filling { OnOk result (IsFilling owner.new workers) }
    ensures same { OnOk result
        (((worker_view owner.new).filled ≡ (worker_view owner.old).filled) ×
        (worker_deque owner.new ≡ worker_deque owner.old)) }
    ensures hands { IfOk result
        (λ hands. (length hands.items ≡ workers) × All (IsNew owner.new) hands.items) }
{
    let mut hands = Vec::new(alloc);
    for _begun in 0..workers {
        let hand = begin(owner)?;
        hands.push(hand)?;
    }
    Ok(hands)
}

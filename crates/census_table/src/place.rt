//! Places in reports.
ghost use Rattle.std.specs.Prelude.{◌≡◌, ◌<◌, ◌≤◌, Bool, drop, false, filter, length, slice_index_or, take, true, IfOk};
ghost use Rattle.std.specs.List.{prefix_len};
ghost use Rattle.std.specs.List.Sorted.{IsPermutation};
ghost use Rattle.std.specs.Ordering.{is_eq, is_gt, ordering_then};
ghost use Rattle.std.specs.declared.cmp.Ordering.TheVariants.{Equal};
ghost use Rattle.census_table.specs.Places.{place_cmp, AreRising, Rises};
ghost use Rattle.census_table.specs.declared.place.Place.{Place as ModelPlace};

use std::alloc::AllocError;
use std::cmp::Ordering;

/// The place where something is reported, in 12 bytes. Each index counts from 0.
#[derive(Clone, Copy)]
pub struct Place {
    /// The index of the collection.
    pub collection: u32,
    /// The index in the collection of the row to which this belongs: the line of its pattern, or the row that opens the
    /// collection.
    pub under: u32,
    /// The index in the collection of the row that reports it, which may be the same.
    pub row: u32,
}

impl Place {
    /// The place that has these indices. The only error is out of memory, where an index is 2^32 or more: that many rows do
    /// not fit into the memory of a report.
    pub fn of(collection: usize, under: usize, row: usize) -> Result<Place, AllocError>
        ensures { IfOk result (λ place.
            place ≡ record { collection = collection; under = under; row = row }) }
    {
        Ok(Place {
            collection: u32::try_from(collection).map_err(|_| AllocError)?,
            under: u32::try_from(under).map_err(|_| AllocError)?,
            row: u32::try_from(row).map_err(|_| AllocError)?,
        })
    }
}

/// The order of two places: by their collections, and then by their rows.
pub fn place_order(one: &Place, other: &Place) -> Ordering
    ensures { result ≡ place_cmp one.now other.now }
{
    let rows = one.row.cmp(&other.row);
    one.collection.cmp(&other.collection).then(rows)
}

/// An order of places, by what is reported there.
pub trait OrderAtPlaces {
    ghost use Rattle.std.specs.Cmp.{IsTotalOrder};
    ghost use Rattle.std.specs.declared.cmp.Ordering.{Ordering};
    ghost use Rattle.census_table.specs.declared.place.Place.{Place};

    /// The order. Places that report the same are equal in it.
    ghost cmp: { Self → Place → Place → Ordering };

    /// The order is total.
    ghost total: { (order : Self) → IsTotalOrder (cmp order) };

    /// The comparison of two places in it.
    fn order(&self, one: &Place, other: &Place) -> Ordering
        ensures { result ≡ cmp self.now one.now other.now };
}

// The number of places at the start that are equal to this one in the order.
fn run_len<O: OrderAtPlaces>(order: &O, places: &[Place], first: &Place) -> usize
    ensures count { result ≡ prefix_len (λ p. is_eq (O.cmp order.now first.now p)) places.now }
    ensures within { result ≤ length places.now }
{
    places
        .iter()
        .take_while(|place| order.order(first, *place) == Ordering::Equal)
        .count()
}

// Sorts the places at the start that are equal to the first in the order by collections and rows. Returns their number.
fn put_run_in_order<O: OrderAtPlaces>(order: &O, places: &mut [Place]) -> usize
    requires { 0 < length places.old }
    ensures count { (first : ModelPlace) → first ≡ slice_index_or places.old 0 first →
        result ≡ prefix_len (λ p. is_eq (O.cmp order.now first p)) places.old }
    ensures within { result ≤ length places.old }
    ensures run { IsPermutation (take result places.old) (take result places.new) }
    ensures sorted { Rises (λ p q. is_gt (place_cmp p q) ≡ false) (take result places.new) }
    ensures others { drop result places.new ≡ drop result places.old }
{
    let first = places[0];
    let count = run_len(order, places, &first);
    let (run, _) = places.split_at_mut(count);
    run.sort_unstable_by(|one, other| place_order(one, other));
    count
}

// Takes places that are sorted by an order. Sorts those that are equal in it by collections and rows.
fn put_runs_in_order<O: OrderAtPlaces>(order: &O, places: &mut [Place])
    requires { Rises (λ p q. is_gt (O.cmp order.now p q) ≡ false) places.old }
    ensures permutation { IsPermutation places.old places.new }
    ensures both { Rises (λ p q. is_gt (ordering_then (O.cmp order.now p q) (place_cmp p q)) ≡ false)
        places.new }
{
    let mut at = 0;
    while at < places.len() {
        let (_, left) = places.split_at_mut(at);
        at += put_run_in_order(order, left);
    }
}

/// Sorts rising places by an order. Places that are equal in it keep their order. No second list is needed: the sort is
/// unstable, and afterwards places that are equal in it are sorted by collections and rows.
pub fn put_in_order<O: OrderAtPlaces>(order: &O, places: &mut [Place])
    requires { AreRising places.old }
    ensures permutation { IsPermutation places.old places.new }
    ensures ordered { Rises (λ p q. is_gt (O.cmp order.now p q) ≡ false) places.new }
    ensures stable { (test : ModelPlace → Bool) → ((p q : ModelPlace) → test p ≡ true → test q ≡ true
        → O.cmp order.now p q ≡ Equal) → filter test places.new ≡ filter test places.old }
{
    places.sort_unstable_by(|one, other| order.order(one, other));
    put_runs_in_order(order, places);
}

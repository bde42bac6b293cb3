//! The cells around a place, and the sets that it joins.
ghost use Rattle.std.specs.Prelude.{◌≡◌, ◌≢◌, ◌⊎◌, ℕ, ◌<◌, ◌≤◌, IfNone, IfSome, false, true, get_or, length};
ghost use Rattle.life_islands.specs.Reach.{IsInReach};
ghost use Rattle.life_islands.specs.Seats.{AreAllSound, AreOfOne, AreSeats, AreTiedBy, IsColouring, IsOf, IsSeat, IsSeatLink, IsSound};
ghost use Rattle.life_islands.specs.Seats.{bears_at, is_born_by, listed, seat, set_at};
ghost use Rattle.life_islands.specs.Labels.{Fits, sets_of};

use crate::around::neighbour;
use crate::colours::{AROUND, Seat, bears_none, count_live, explore, first_bearing, flaw};
use crate::labels::{Labels, index_in_row};
use life_cells::{CellList, Rule};

/// A seat that is not live.
const NOBODY: Seat = Seat {
    live: false,
    island: 0,
    set: 0,
};

/// The number of rows of the cells around the places around a cell.
pub const ROWS: usize = 5;

/// The number of the row of one of the cells around a place whose own row has this number.
pub fn row_of(row: usize, number: usize) -> usize {
    match number {
        0 | 1 | 2 => row.saturating_sub(1),
        3 | 4 => row,
        _ => row.saturating_add(1),
    }
}

/// The seat of one of the cells around a place, whose row has this number. The cell is looked up near where one of its own row
/// was last looked up.
fn seat_at(
    list: &CellList,
    isles: &Labels,
    sets: &Labels,
    place: (i32, i32),
    number: usize,
    near: &mut [usize],
    row: usize,
) -> Seat
    requires reach { IsInReach place }
    requires number { number < 8 }
    requires isles { Fits list.now isles.now }
    requires sets { Fits list.now sets.now }
    ensures { IsSeat list.now (sets_of list.now isles.now) (sets_of list.now sets.now) place number result }
{
    match index_in_row(list, neighbour(place, number), near, row_of(row, number)) {
        Some(at) => Seat {
            live: true,
            island: isles.mark(at),
            set: sets.mark(at),
        },
        None => NOBODY,
    }
}

/// The seats of the eight cells around a place, whose row has this number. They are looked up near where cells of each row were
/// last looked up.
pub fn seats_around(
    list: &CellList,
    isles: &Labels,
    sets: &Labels,
    place: (i32, i32),
    near: &mut [usize],
    row: usize,
) -> [Seat; 8]
    requires reach { IsInReach place }
    requires isles { Fits list.now isles.now }
    requires sets { Fits list.now sets.now }
    ensures { AreSeats list.now (sets_of list.now isles.now) (sets_of list.now sets.now) place result }
{
    let mut seats = [NOBODY; 8];
    for number in 0..AROUND {
        let seat = seat_at(list, isles, sets, place, number, near, row);
        seats[number] = seat;
    }
    seats
}

/// The number of the first live seat.
fn first_live(seats: &[Seat]) -> Option<usize>
    requires { length seats.now ≡ 8 }
    ensures none { IfNone result ((n : ℕ) → n < 8 → (seat seats.now n).live ≡ false) }
    ensures some { IfSome result (λ n. n < 8 × (seat seats.now n).live ≡ true) }
{
    for n in 0..AROUND {
        if seats[n].live {
            return Some(n);
        }
    }
    None
}

/// The sets of the seats.
pub fn colours_of(seats: &[Seat]) -> [usize; 8]
    requires { length seats.now ≡ 8 }
    ensures { (n : ℕ) → n < 8 → listed result n ≡ set_at seats.now n }
{
    let mut sets = [0; 8];
    for n in 0..AROUND {
        sets[n] = seats[n].set;
    }
    sets
}

/// The set of a seat whose group bears, if there is one, otherwise that of the live seat `first`.
fn bearer_of(rule: &Rule, seats: &[Seat], colours: &[usize], first: usize) -> usize
    requires long { length seats.now ≡ 8 × length colours.now ≡ 8 }
    requires first { first < 8 × (seat seats.now first).live ≡ true }
    ensures of { (n : ℕ) × IsOf seats.now result n }
    ensures bears { (n : ℕ) → n < 8 → bears_at rule.now seats.now (listed colours.now) n ≡ true →
        (m : ℕ) × (m < 8) × (bears_at rule.now seats.now (listed colours.now) m ≡ true)
        × ((seat seats.now m).set ≡ result) }
{
    let bearing = first_bearing(rule, seats, colours);
    if bearing < AROUND {
        return seats[bearing].set;
    }
    seats[first].set
}

/// True if a seat is live and not of this set.
fn is_other(seat: &Seat, set: usize) -> bool
    ensures yes { result ≡ true → seat.now.live ≡ true × seat.now.set ≢ set }
    ensures no { result ≡ false → seat.now.live ≡ true → seat.now.set ≡ set }
{
    seat.live && seat.set != set
}

/// The set of a live seat that is not of this set.
fn other_set(seats: &[Seat], set: usize) -> Option<usize>
    requires { length seats.now ≡ 8 }
    ensures none { IfNone result
        ((n : ℕ) → n < 8 → (seat seats.now n).live ≡ true → (seat seats.now n).set ≡ set) }
    ensures some { IfSome result (λ other. other ≢ set × (n : ℕ) × IsOf seats.now other n) }
{
    for n in 0..AROUND {
        if is_other(&seats[n], set) {
            return Some(seats[n].set);
        }
    }
    None
}

/// A set to be joined with the bearer, where the colours are the seats' sets.
fn joined_with(
    rule: &Rule,
    seats: &[Seat],
    colours: &[usize],
    is_born: bool,
    bearer: usize,
    other: usize,
) -> Option<usize>
    requires long { length seats.now ≡ 8 × length colours.now ≡ 8 }
    requires colours { (n : ℕ) → n < 8 → listed colours.now n ≡ set_at seats.now n }
    requires whole { IsColouring seats.now (set_at seats.now) }
    requires bears { (n : ℕ) → n < 8 → bears_at rule.now seats.now (listed colours.now) n ≡ true →
        (m : ℕ) × (m < 8) × (bears_at rule.now seats.now (listed colours.now) m ≡ true)
        × ((seat seats.now m).set ≡ bearer) }
    requires other { other ≢ bearer × (n : ℕ) × IsOf seats.now other n }
    ensures none { IfNone result (AreAllSound rule.now seats.now is_born bearer) }
    ensures some { IfSome result (λ found. found ≢ bearer × ((n : ℕ) × IsOf seats.now found n)
        × AreTiedBy rule.now seats.now is_born bearer found) }
{
    if let Some(found) = flaw(rule, seats, colours, is_born, bearer, other) {
        return Some(found);
    }
    explore(rule, seats, [0; 8], 0, is_born, bearer, other)
}

/// Two sets that a place joins.
pub fn link_at(rule: &Rule, seats: &[Seat]) -> Option<(usize, usize)>
    requires long { length seats.now ≡ 8 }
    requires whole { IsColouring seats.now (set_at seats.now) }
    ensures none { IfNone result (AreOfOne seats.now ⊎ ((bearer : ℕ)
        × AreAllSound rule.now seats.now (is_born_by rule.now seats.now) bearer)) }
    ensures some { IfSome result (IsSeatLink rule.now seats.now) }
{
    let first = first_live(seats)?;
    let count = count_live(seats);
    if bears_none(rule, count) {
        return None;
    }
    let colours = colours_of(seats);
    let bearer = bearer_of(rule, seats, &colours, first);
    let other = other_set(seats, bearer)?;
    let is_born = rule.born(count);
    let found = joined_with(rule, seats, &colours, is_born, bearer, other)?;
    Some((bearer, found))
}

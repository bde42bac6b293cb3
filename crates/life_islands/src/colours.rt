//! Ways to put the cells around a place into groups, each with a colour of its own.
//!
//! A group bears if a cell is born of as many live cells as it has.
ghost use Rattle.std.specs.Prelude.{◌≡◌, ◌≢◌, ◌⊎◌, ◌↔◌, ℕ, ◌+◌, ◌<◌, ◌≤◌, ◌==◌, IfNone, IfSome, IsTrue, false, true, ◌&&◌, get_or, length};
ghost use Rattle.life_model.specs.Rule.{born};
ghost use Rattle.life_islands.specs.Seats.{Agree, AreTried, BeginWith, IsBegun, IsColouring, IsFlaw, IsSound};
ghost use Rattle.life_islands.specs.Seats.{bears_at, count_colour, count_to, listed, seat};

use life_cells::Rule;

/// The number of cells around a place.
pub const AROUND: usize = 8;

/// One of the cells around a place: whether it is live, and the places of its island and of its set.
#[derive(Clone, Copy, Drop)]
pub struct Seat {
    pub live: bool,
    pub island: usize,
    pub set: usize,
}

/// True if two cells with these colours are coloured rightly, which they are unless both are live: cells of one island have
/// one colour, and cells of one colour are of one set.
fn agree(seats: &[Seat], m: usize, n: usize, colour: usize, other: usize) -> bool
    requires { (m < length seats.now) × (n < length seats.now) }
    ensures { IsTrue result ↔ ((seat seats.now m).live ≡ true → (seat seats.now n).live ≡ true →
        Agree seats.now m n colour other) }
{
    if !seats[m].live {
        return true;
    }
    if !seats[n].live {
        return true;
    }
    if seats[m].island == seats[n].island && colour != other {
        return false;
    }
    colour != other || seats[m].set == seats[n].set
}

/// True if a cell may have a colour, given the colours of the cells before it.
fn fits(seats: &[Seat], colours: &[usize], at: usize, colour: usize) -> bool
    requires { (length seats.now ≡ 8) × (length colours.now ≡ 8) × (at < 8) }
    ensures { IsTrue result ↔ ((m : ℕ) → m < at → (seat seats.now m).live ≡ true →
        (seat seats.now at).live ≡ true → Agree seats.now m at (get_or colours.now m 0) colour) }
{
    for m in 0..at {
        if !agree(seats, m, at, colours[m], colour) {
            return false;
        }
    }
    true
}

/// The number of live cells with a colour.
fn count_of(seats: &[Seat], colours: &[usize], colour: usize) -> u32
    requires { (length seats.now ≡ 8) × (length colours.now ≡ 8) }
    ensures value { result ≡ count_colour seats.now (λ n. get_or colours.now n 0) colour }
    ensures few { result ≤ 8 }
{
    let mut count = 0;
    for n in 0..AROUND {
        if seats[n].live && colours[n] == colour {
            count += 1;
        }
    }
    count
}

/// True if a cell is live and its group bears.
fn bears(rule: &Rule, seats: &[Seat], colours: &[usize], n: usize) -> bool
    requires { (length seats.now ≡ 8) × (length colours.now ≡ 8) × (n < 8) }
    ensures { result ≡ bears_at rule.now seats.now (λ n. get_or colours.now n 0) n }
{
    seats[n].live && rule.born(count_of(seats, colours, colours[n]))
}

/// The number of the first live cell whose group bears, or 8 where none does.
pub fn first_bearing(rule: &Rule, seats: &[Seat], colours: &[usize]) -> usize
    requires { (length seats.now ≡ 8) × (length colours.now ≡ 8) }
    ensures within { result ≤ 8 }
    ensures bears { result < 8 → bears_at rule.now seats.now (listed colours.now) result ≡ true }
    ensures none { (k : ℕ) → k < result →
        bears_at rule.now seats.now (listed colours.now) k ≡ false }
{
    for n in 0..AROUND {
        if bears(rule, seats, colours, n) {
            return n;
        }
    }
    AROUND
}

/// True if a live cell with another colour than the cell `first` is in a group that bears.
fn is_borne_twice(rule: &Rule, seats: &[Seat], colours: &[usize], first: usize) -> bool
    requires { (length seats.now ≡ 8) × (length colours.now ≡ 8) × (first < 8) }
    ensures once { result ≡ false → (n : ℕ) → n < 8 →
        bears_at rule.now seats.now (listed colours.now) n ≡ true →
        listed colours.now n ≡ listed colours.now first }
    ensures twice { result ≡ true → (n : ℕ) × (n < 8)
        × (bears_at rule.now seats.now (listed colours.now) n ≡ true)
        × (listed colours.now n ≢ listed colours.now first) }
{
    for n in 0..AROUND {
        if bears(rule, seats, colours, n) && colours[n] != colours[first] {
            return true;
        }
    }
    false
}

/// The set to be joined with the bearer: one that bears in its place, or `other` if the groups are not fair.
pub fn flaw(
    rule: &Rule,
    seats: &[Seat],
    colours: &[usize],
    is_born: bool,
    bearer: usize,
    other: usize,
) -> Option<usize>
    requires long { (length seats.now ≡ 8) × (length colours.now ≡ 8) }
    requires begun { IsBegun seats.now colours.now 8 }
    ensures none { IfNone result
        (IsSound rule.now seats.now is_born bearer (listed colours.now)) }
    ensures some { IfSome result
        (λ found. IsFlaw rule.now seats.now is_born bearer other (listed colours.now) found) }
{
    let first = first_bearing(rule, seats, colours);
    if first >= AROUND {
        if is_born {
            return Some(other);
        }
        return None;
    }
    if !is_born {
        return Some(other);
    }
    if is_borne_twice(rule, seats, colours, first) {
        return Some(other);
    }
    if seats[first].set != bearer {
        return Some(seats[first].set);
    }
    None
}

/// The number of colours that are tried for the cell with number `at`: `at + 1` for a live one, otherwise one.
fn choices(seat: &Seat, at: usize) -> usize
    requires { at < 8 }
    ensures live { seat.now.live ≡ true → result ≡ at + 1 }
    ensures rest { seat.now.live ≡ false → result ≡ 1 }
{
    if seat.live {
        return at + 1;
    }
    1
}

/// The set to be joined with the bearer by some way to colour the cells from `at` on.
pub fn explore(
    rule: &Rule,
    seats: &[Seat],
    colours: [usize; 8],
    at: usize,
    is_born: bool,
    bearer: usize,
    other: usize,
) -> Option<usize>
    requires long { length seats.now ≡ 8 }
    requires at { at ≤ 8 }
    requires begun { IsBegun seats.now colours at }
    ensures none { IfNone result ((colour : ℕ → ℕ) → AreTried seats.now colour →
        BeginWith colours at colour →
        IsSound rule.now seats.now is_born bearer colour) }
    ensures some { IfSome result (λ found. (colour : ℕ → ℕ) × IsColouring seats.now colour
        × IsFlaw rule.now seats.now is_born bearer other colour found) }
{
    if at >= AROUND {
        return flaw(rule, seats, &colours, is_born, bearer, other);
    }
    for colour in 0..choices(&seats[at], at) {
        if fits(seats, &colours, at, colour) {
            let mut more = colours;
            more[at] = colour;
            if let Some(found) = explore(rule, seats, more, at + 1, is_born, bearer, other) {
                return Some(found);
            }
        }
    }
    None
}

/// The number of live cells.
pub fn count_live(seats: &[Seat]) -> u32
    requires { length seats.now ≡ 8 }
    ensures value { result ≡ count_to 8 (λ n. (seat seats.now n).live) }
    ensures few { result ≤ 8 }
{
    let mut count = 0;
    for n in 0..AROUND {
        if seats[n].live {
            count += 1;
        }
    }
    count
}

/// True if no cell is born of `count` live cells, nor of fewer.
pub fn bears_none(rule: &Rule, count: u32) -> bool
    requires { count ≤ 8 }
    ensures { IsTrue result → (k : ℕ) → k ≤ count → born rule.now k ≡ false }
{
    for n in 0..count + 1 {
        if rule.born(n) {
            return false;
        }
    }
    true
}

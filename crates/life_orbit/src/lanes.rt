//! The rounds in which two sets that move along one axis can be near each other.
ghost use Rattle.std.specs.Prelude.{◌≡◌, ℕ, ◌+◌, ◌*◌, ◌<◌, ◌≤◌, ◌^◌, IfNone, IfSome, pos, neg_ℤ, ◌+ℤ◌, ◌<ℤ◌, ◌≤ℤ◌};
ghost use Rattle.std.specs.Bool.{OnTrue};
ghost use Rattle.std.specs.Int.{int_max, int_min};
ghost use Rattle.life_orbit.specs.Passing.{IsOneAhead, IsOnePast, IsPassed, IsYetAhead, passing};

/// The first and the last place of some cells along one axis, and the distance that they move along it in a round.
#[derive(Clone, Copy)]
pub struct Lane {
    pub first: i32,
    pub last: i32,
    pub by: i128,
}

/// The numbers from `from` to before `until`, of rounds or of generations. There may be none.
#[derive(Clone, Copy)]
pub struct Span {
    pub from: u128,
    pub until: u128,
}

/// The least number of rounds that use up more than `places` places, where each uses `each` of them.
fn rounds_over(places: u128, each: u128) -> u128
    requires each { 1 ≤ each }
    requires places { places < 2 ^ 52 }
    ensures over { places < result * each }
    ensures least { (k : ℕ) → k < result → k * each ≤ places }
    ensures few { result ≤ 2 ^ 52 }
{
    places / each + 1
}

/// The difference of two numbers, of which the first is not less.
fn difference(greater: i128, less: i128) -> u128
    requires order { less ≤ℤ greater }
    requires low { neg_ℤ (pos (2 ^ 50)) ≤ℤ less }
    requires high { greater ≤ℤ pos (2 ^ 50 + 3) }
    ensures value { greater ≡ less +ℤ pos result }
    ensures few { result < 2 ^ 52 }
{
    (greater - less) as u128
}

/// The least coordinate over a round of moves that begins at `left`.
fn low_end(left: i32, by: i128) -> i128
    requires low { neg_ℤ (pos (2 ^ 49)) ≤ℤ by }
    ensures end { result ≡ left +ℤ int_min (pos 0) by }
    ensures low { neg_ℤ (pos (2 ^ 50)) ≤ℤ result }
    ensures high { result ≤ℤ pos (2 ^ 50) }
{
    if by < 0 {
        return left as i128 + by;
    }
    left as i128
}

/// The greatest coordinate over a round of moves that begins at `right`.
fn high_end(right: i32, by: i128) -> i128
    requires high { by ≤ℤ pos (2 ^ 49) }
    ensures end { result ≡ right +ℤ int_max (pos 0) by }
    ensures low { neg_ℤ (pos (2 ^ 50)) ≤ℤ result }
    ensures high { result ≤ℤ pos (2 ^ 50) }
{
    if by > 0 {
        return right as i128 + by;
    }
    right as i128
}

/// The number of rounds after which `lane` has passed `other` for good, where it moves further in each.
fn rounds_to_pass(lane: Lane, other: Lane) -> u128
    requires faster { other.by <ℤ lane.by }
    requires low { neg_ℤ (pos (2 ^ 49)) ≤ℤ other.by }
    requires high { lane.by ≤ℤ pos (2 ^ 49) }
    ensures passed { IsPassed (passing lane other result) }
    ensures few { result ≤ 2 ^ 52 }
{
    let low = low_end(lane.first, lane.by);
    let high = high_end(other.last, other.by);
    if high + 3 <= low {
        return 0;
    }
    rounds_over(difference(high + 2, low), difference(lane.by, other.by))
}

/// The number of rounds from the start in which `lane` is still ahead of `other`, which moves further in each.
fn rounds_ahead(lane: Lane, other: Lane) -> u128
    requires slower { lane.by <ℤ other.by }
    requires low { neg_ℤ (pos (2 ^ 49)) ≤ℤ lane.by }
    requires high { other.by ≤ℤ pos (2 ^ 49) }
    ensures ahead { IsYetAhead (passing lane other result) }
    ensures few { result ≤ 2 ^ 52 }
{
    let low = low_end(lane.first, lane.by);
    let high = high_end(other.last, other.by);
    if low < high + 3 {
        return 0;
    }
    rounds_over(difference(low, high + 3), difference(other.by, lane.by))
}

/// The rounds in which the two can be near, where `lane` moves further than `other` in each.
fn rounds_between(lane: Lane, other: Lane) -> Span
    requires faster { other.by <ℤ lane.by }
    requires low { neg_ℤ (pos (2 ^ 49)) ≤ℤ other.by }
    requires high { lane.by ≤ℤ pos (2 ^ 49) }
    ensures ahead { IsYetAhead (passing other lane result.from) }
    ensures passed { IsPassed (passing lane other result.until) }
    ensures first { result.from ≤ 2 ^ 52 }
    ensures last { result.until ≤ 2 ^ 52 }
{
    Span {
        from: rounds_ahead(other, lane),
        until: rounds_to_pass(lane, other),
    }
}

/// True if `lane`, which moves at least as fast as `other`, is past it over a whole round, and so stays past it.
fn stays_past(lane: Lane, other: Lane) -> bool
    requires order { other.by ≤ℤ lane.by }
    requires low { neg_ℤ (pos (2 ^ 49)) ≤ℤ lane.by }
    requires high { other.by ≤ℤ pos (2 ^ 49) }
    ensures { OnTrue result (IsPassed (passing lane other 0)) }
{
    if high_end(other.last, other.by) + 3 <= low_end(lane.first, lane.by) {
        return true;
    }
    false
}

/// The rounds in which the two can be near along an axis, or `None` if both move equally fast and their places are
/// near.
pub fn rounds_along(lane: Lane, other: Lane) -> Option<Span>
    requires low { neg_ℤ (pos (2 ^ 49)) ≤ℤ lane.by }
    requires high { lane.by ≤ℤ pos (2 ^ 49) }
    requires other_low { neg_ℤ (pos (2 ^ 49)) ≤ℤ other.by }
    requires other_high { other.by ≤ℤ pos (2 ^ 49) }
    ensures ahead { IfSome result (λ rounds. IsOneAhead lane other rounds.from) }
    ensures passed { IfSome result (λ rounds. IsOnePast lane other rounds.until) }
    ensures first { IfSome result (λ rounds. rounds.from ≤ 2 ^ 52) }
    ensures last { IfSome result (λ rounds. rounds.until ≤ 2 ^ 52) }
    ensures same { IfNone result (lane.by ≡ other.by) }
{
    if other.by < lane.by {
        return Some(rounds_between(lane, other));
    }
    if lane.by < other.by {
        return Some(rounds_between(other, lane));
    }
    if stays_past(lane, other) {
        return Some(Span { from: 0, until: 0 });
    }
    if stays_past(other, lane) {
        return Some(Span { from: 0, until: 0 });
    }
    None
}

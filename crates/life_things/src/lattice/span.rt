//! Ranges of numbers.
ghost use Rattle.std.specs.Prelude.{◌≡◌, ◌≢◌, ℕ, ◌+◌, ◌*◌, ◌<◌, ◌≤◌, ◌^◌, ℤ, pos, neg_ℤ, ◌+ℤ◌, ◌*ℤ◌, ◌≤ℤ◌};
ghost use Rattle.life_things.specs.Lattice.Short.{IsWithin};

/// The numbers from `from` to before `until`. There may be none.
#[derive(Clone, Copy)]
pub struct Span {
    pub from: u128,
    pub until: u128,
}

/// The amount by which the first number is greater, or 0 if it is not.
fn excess(greater: i128, less: i128) -> u128
    requires greater { IsWithin (2 ^ 124) greater }
    requires less { IsWithin (2 ^ 124) less }
    ensures more { less ≤ℤ greater → greater ≡ less +ℤ pos result }
    ensures none { greater ≤ℤ less → result ≡ 0 }
{
    if greater <= less {
        return 0;
    }
    (greater - less) as u128
}

/// The numbers of times that a number may rise by `gain` to be from `low` to `high`.
fn rising(start: i128, gain: u128, low: i128, high: i128) -> Span
    requires gain { 1 ≤ gain }
    requires start { IsWithin (2 ^ 124) start }
    requires low { IsWithin (2 ^ 124) low }
    requires high { IsWithin (2 ^ 124) high }
    ensures within { (n : ℕ) → low ≤ℤ (start +ℤ pos (n * gain)) → (start +ℤ pos (n * gain)) ≤ℤ high →
        (result.from ≤ n) × (n < result.until) }
    ensures few { (m k : ℕ) → IsWithin m start → IsWithin k high → result.until ≤ m + k + 1 }
{
    if high < start {
        return Span { from: 0, until: 0 };
    }
    Span {
        from: excess(low, start) / gain,
        until: excess(high, start) / gain + 1,
    }
}

/// The numbers of times that a number may change by `gain` to be from `low` to `high`.
pub fn span_to(start: i128, gain: i128, low: i128, high: i128) -> Span
    requires gain { gain ≢ pos 0 }
    requires gain_fits { IsWithin (2 ^ 124) gain }
    requires start { IsWithin (2 ^ 124) start }
    requires low { IsWithin (2 ^ 124) low }
    requires high { IsWithin (2 ^ 124) high }
    ensures within { (n : ℕ) → low ≤ℤ (start +ℤ (pos n *ℤ gain)) → (start +ℤ (pos n *ℤ gain)) ≤ℤ high →
        (result.from ≤ n) × (n < result.until) }
    ensures few { (m k : ℕ) → IsWithin m start → IsWithin k low → IsWithin k high → result.until ≤ m + k + 1 }
{
    if gain > 0 {
        return rising(start, gain as u128, low, high);
    }
    rising(-start, (-gain) as u128, -high, -low)
}

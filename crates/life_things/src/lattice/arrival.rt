//! The number of times that a step has to be made to reach a time, and the place where it leads by then.
ghost use Rattle.std.specs.Prelude.{◌≡◌, ◌≢◌, ℕ, ◌*◌, ◌≤◌, ◌^◌, ◌+ℤ◌, ◌*ℤ◌, pos, IfNone, IfSome};
ghost use Rattle.life_things.specs.Lattice.Short.{IsWithin, way_limit};

/// The number of times that `gain` has to be added for `start` to become 0, if there is one.
fn rounds_up(start: i128, gain: u128) -> Option<u128>
    requires start { IsWithin (2 ^ 126) start }
    requires gain { 1 ≤ gain }
    ensures none { IfNone result ((n : ℕ) → (start +ℤ pos (n * gain)) ≢ pos 0) }
    ensures some { IfSome result (λ n. (start +ℤ pos (n * gain)) ≡ pos 0) }
    ensures few { IfSome result (λ n. n ≤ 2 ^ 126) }
{
    if start > 0 {
        return None;
    }
    let distance = (-start) as u128;
    if distance % gain != 0 {
        return None;
    }
    Some(distance / gain)
}

/// The number of times that `gain`, which may be negative, has to be added for `start` to become 0, if there is one.
pub fn rounds_to_none(start: i128, gain: i128) -> Option<u128>
    requires start { IsWithin (2 ^ 126) start }
    requires gain { IsWithin way_limit gain }
    requires some { gain ≢ pos 0 }
    ensures none { IfNone result ((n : ℕ) → (start +ℤ (pos n *ℤ gain)) ≢ pos 0) }
    ensures some { IfSome result (λ n. (start +ℤ (pos n *ℤ gain)) ≡ pos 0) }
    ensures few { IfSome result (λ n. n ≤ 2 ^ 126) }
{
    if gain > 0 {
        return rounds_up(start, gain as u128);
    }
    rounds_up(-start, (-gain) as u128)
}

/// The place after it is moved `count` times by `by` along an axis, or `None` if that is far away.
pub fn moved(place: i128, count: u128, by: i128) -> Option<i128>
    requires place { IsWithin (2 ^ 126) place }
    requires count { count ≤ 2 ^ 126 }
    ensures none { IfNone result (¬ IsWithin (2 ^ 34) (place +ℤ (pos count *ℤ by))) }
    ensures some { IfSome result (λ there. there ≡ (place +ℤ (pos count *ℤ by))) }
{
    match (count as i128).checked_mul(by) {
        None => None,
        Some(way) => place.checked_add(way),
    }
}

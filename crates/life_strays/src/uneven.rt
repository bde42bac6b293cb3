//! Stretches of generations that have too many cells, compared with others, for a pattern that recurs.
ghost use Rattle.std.specs.Prelude.{◌≡◌, ◌+◌, ◌-◌, ◌*◌, ◌<◌, ℕ, IfSome, IsTrue, length, slice_index_or};
ghost use Rattle.life_strays.specs.Totals.{IsUneven};

/// The number of cells in the `count` stretches from a place on, if the totals do not fall.
fn cells_of(totals: &[u128], place: usize, count: usize) -> Option<u128>
    requires { place + count < length totals.now }
    ensures { IfSome result (λ cells. (d : ℕ) → cells ≡
        slice_index_or totals.now (place + count) d - slice_index_or totals.now place d) }
{
    totals[place + count].checked_sub(totals[place])
}

/// True if `greater` times `count` is more than `lesser` times `count + 1`. False if these products are too large.
fn is_more(count: u128, greater: u128, lesser: u128) -> bool
    ensures { IsTrue result → (count + 1) * lesser < count * greater }
{
    let Some(high) = greater.checked_mul(count) else {
        return false;
    };
    let Some(times) = count.checked_add(1) else {
        return false;
    };
    let Some(low) = lesser.checked_mul(times) else {
        return false;
    };
    low < high
}

/// True if the `count` stretches from the place `greater` on have too many cells, compared with the `count` stretches from
/// `lesser` on.
fn are_uneven(totals: &[u128], count: usize, greater: usize, lesser: usize) -> bool
    requires greater { greater + count < length totals.now }
    requires lesser { lesser + count < length totals.now }
    ensures { IsTrue result → IsUneven totals.now }
{
    let Some(more) = cells_of(totals, greater, count) else {
        return false;
    };
    let Some(less) = cells_of(totals, lesser, count) else {
        return false;
    };
    is_more(count as u128, more, less)
}

/// True if some of the last stretches have too many cells, compared with equally many of the first, for a pattern that recurs
/// within a stretch, or the first compared with the last. The totals are those before each stretch and after the last. A
/// negative answer means nothing.
pub fn is_uneven(totals: &[u128]) -> bool
    ensures { IsTrue result → IsUneven totals.now }
{
    for count in 1..totals.len() {
        let last = totals.len() - 1 - count;
        if are_uneven(totals, count, last, 0) || are_uneven(totals, count, 0, last) {
            return true;
        }
    }
    false
}

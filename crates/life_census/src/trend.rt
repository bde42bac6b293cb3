//! Patterns that seem to grow steadily.
ghost use Rattle.std.specs.Prelude.{◌+◌, ◌*◌, ◌≤◌, length};

use life_cells::Rule;
use life_plane::{AGE_LIMIT, Plane};
use std::alloc::{AllocError, Global};

/// The least number of generations in which to look for a trend.
pub const LEAST_TREND: u32 = 128;

/// True if the counts rise by the same in each period, phase by phase.
fn rise_alike(counts: &[u64], period: usize) -> bool
    requires { 2 * period ≤ length counts.now }
{
    for n in 0..counts.len() - 2 * period {
        let next = u128::from(counts[n + period]);
        if u128::from(counts[n]) + u128::from(counts[n + 2 * period]) != 2 * next {
            return false;
        }
    }
    true
}

/// True if the counts of the second period together are more than those of the first.
fn have_risen(counts: &[u64], period: usize) -> bool
    requires { 2 * period ≤ length counts.now }
{
    let mut first = 0_u64;
    let mut second = 0_u64;
    for n in 0..period {
        first = first.saturating_add(counts[n]);
        second = second.saturating_add(counts[n + period]);
    }
    first < second
}

/// True if the counts rise steadily: they have risen with the least period, up to a third of their number, in which they rise
/// by the same each time, phase by phase.
fn is_rising(counts: &[u64]) -> bool {
    for period in 1..counts.len() / 3 + 1 {
        if rise_alike(counts, period) {
            return have_risen(counts, period);
        }
    }
    false
}

/// True if the counts so far leave a period, up to a third of the `length` counts that there will be, in which they may rise by
/// the same each time. There are at least as many counts as two such periods have.
fn may_rise(counts: &[u64], length: usize) -> bool {
    for period in 1..(length / 3).min(counts.len() / 2) + 1 {
        if rise_alike(counts, period) {
            return true;
        }
    }
    false
}

/// True if the population of a plane's cells seems to rise steadily over the next `length` generations. Neither answer is
/// certain. If three quarters of them show that it does not, the last quarter is skipped.
pub fn rises_steadily<P: Plane>(
    alloc: Global,
    plane: &P,
    rule: &Rule,
    length: u32,
) -> Result<bool, AllocError>
    requires { P.steps_made plane.now + length ≤ AGE_LIMIT }
{
    let mut later = plane.copy()?;
    let mut counts = Vec::new(alloc);
    'steps: for age in 0..length {
        if age == length / 4 * 3 && !may_rise(counts.as_slice(), length as usize) {
            return Ok(false);
        }
        counts.push(later.population())?;
        later.step(rule)?;
    }
    Ok(is_rising(counts.as_slice()))
}

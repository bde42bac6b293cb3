//! Upper bounds on the numbers of cells of sets that recur.
ghost use Rattle.std.specs.Prelude.{◌≤◌, ℕ, IsTrue};
ghost use Rattle.life_model.specs.Evolution.{generation};
ghost use Rattle.life_model.specs.Generation.{size};
ghost use Rattle.life_ash.specs.Later.{total_later};

use life_orbit::Orbit;

/// The number of cells in the largest generation of a set that recurs.
fn largest(orbit: &Orbit) -> u64
    ensures { (n : ℕ) → size (generation orbit.now.rule orbit.now.set n) ≤ result }
{
    let mut most = 0;
    for phase in 0..orbit.period() {
        most = most.max(orbit.phase(phase).len() as u64);
    }
    most
}

/// True if the largest generations of sets that recur have no more cells together than `most`. A negative answer means nothing
/// for any one generation.
pub fn are_few(orbits: &[Orbit], most: u32) -> bool
    ensures { IsTrue result → (n : ℕ) → total_later n orbits.now ≤ most }
{
    let mut left = u64::from(most);
    for orbit in orbits {
        match left.checked_sub(largest(orbit)) {
            Some(rest) => left = rest,
            None => return false,
        }
    }
    true
}

//! The codes of sets that recur.
ghost use Rattle.std.specs.Prelude.{◌≡◌, ◌<◌, ◌≤◌, All, IfOk, OnOk};
ghost use Rattle.std.specs.List.{fold};
ghost use Rattle.life_model.specs.Evolution.{generation};
ghost use Rattle.life_model.specs.Generation.{cells};
ghost use Rattle.life_cells.specs.Limits.{IsWithin};
ghost use Rattle.life_ash.specs.Parts.{ash_age_limit};
ghost use Rattle.life_cells.specs.TextOrder.{least_text};
ghost use Rattle.life_answer.specs.Apgcode.{bodies, code_of, turned_bodies};
ghost use Rattle.life_codes.specs.Least.{with_text};

use life_answer::Code;
use life_codes::{LeastText, prefix};
use life_orbit::{BOUND_LIMIT, Orbit};
use std::alloc::{AllocError, Global};

/// Adds the texts of one phase.
fn add_phase(least: &mut LeastText, orbit: &Orbit, n: u32) -> Result<(), AllocError>
    requires phase { n < orbit.now.period }
    requires within { All (IsWithin ash_age_limit) (cells orbit.now.set) }
    ensures { OnOk result
        (least.new ≡
        fold with_text least.old (turned_bodies (generation orbit.now.rule orbit.now.set n))) }
{
    prove!(orbit.period() <= BOUND_LIMIT);
    least.add(orbit.phase(n))
}

/// The least text of all phases, in all eight orientations.
fn least_body(alloc: Global, orbit: &Orbit) -> Result<Vec<u8>, AllocError>
    requires within { All (IsWithin ash_age_limit) (cells orbit.now.set) }
    ensures { IfOk result
        (λ text. text.items ≡ least_text (bodies orbit.now.rule orbit.now.set orbit.now.period)) }
{
    let mut least = LeastText::new(alloc);
    for n in 0..orbit.period() {
        add_phase(&mut least, orbit, n)?;
    }
    Ok(least.into_text())
}

/// The code of a set that recurs, whose cells are in the field at age 400,000.
pub fn code_of(alloc: Global, orbit: &Orbit) -> Result<Code, AllocError>
    requires within { All (IsWithin ash_age_limit) (cells orbit.now.set) }
    ensures { IfOk result (λ code.
        code ≡ code_of orbit.now.rule orbit.now.set orbit.now.period orbit.now.displacement) }
{
    let period = orbit.period();
    let population = orbit.phase(0).len() as u64;
    let mut text = prefix(alloc, population, period, orbit.displacement())?;
    let body = least_body(alloc, orbit)?;
    text.extend_from_slice(&body)?;
    Code::of(alloc, &text)
}

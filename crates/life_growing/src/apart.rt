//! Deciding whether engines and debris stay apart for ever.
ghost use Rattle.std.specs.Prelude.{◌↔◌, ℕ, ◌<◌, IfOk, IsTrue, length, map};
ghost use Rattle.life_growing.specs.Emissions.{NoneMeets};
ghost use Rattle.life_growing.specs.Meeting.{AreThingsOfEach, GoApart, list_in};

use crate::emission::Engine;
use crate::going::none_meets;
use crate::settling::Settled;
use life_things::Thing;
use std::alloc::{AllocError, Global};

/// The things of the debris, and those of each engine.
fn things_of_each(
    alloc: Global,
    engines: &[Engine],
    debris: &Settled,
) -> Result<Vec<Vec<Thing>>, AllocError>
    ensures { IfOk result (λ lists. AreThingsOfEach engines.now debris.now (map (λ l. l.items) lists.items)) }
{
    let mut lists = Vec::new(alloc);
    lists.push(debris.things(alloc, 0, (0, 0), None)?)?;
    for engine in engines {
        lists.push(engine.things(alloc)?)?;
    }
    Ok(lists)
}

/// True if the things of the list at a place never meet those of the lists before it.
fn meet_none_before(lists: &[Vec<Thing>], n: usize) -> bool
    requires { n < length lists.now }
    ensures { IsTrue result ↔ ((m : ℕ) → m < n → NoneMeets (list_in (map (λ l. l.items) lists.now) m)
        (list_in (map (λ l. l.items) lists.now) n)) }
{
    for other in 0..n {
        if !none_meets(lists[other].as_slice(), lists[n].as_slice()) {
            return false;
        }
    }
    true
}

/// True if the debris and the engines never meet each other.
pub fn stay_apart(alloc: Global, engines: &[Engine], debris: &Settled) -> Result<bool, AllocError>
    ensures { IfOk result (λ go. IsTrue go ↔ GoApart engines.now debris.now) }
{
    let lists = things_of_each(alloc, engines, debris)?;
    for n in 0..lists.len() {
        if !meet_none_before(lists.as_slice(), n) {
            return Ok(false);
        }
    }
    Ok(true)
}

//! The next generation of the bands that may change.
ghost use Rattle.std.specs.Prelude.{◌≡◌, ℕ, ◌+◌, ◌*◌, ◌%◌, ◌/◌, ◌<◌, ◌≤◌, false, length, slice_index};
ghost use Rattle.std.specs.Int.{bit_at};
ghost use Rattle.life_model.specs.Rule.{Rule};
ghost use Rattle.life_plane.specs.Logics.{IsLogicOf};
ghost use Rattle.life_slots.specs.Slots.{nine_linked};
ghost use Rattle.life_slots.specs.Work.{band_mark, IsLinked, IsTileWorkedOut, IsWorkedOut};

use crate::bands::Bands;
use crate::slot::{CENTRE, Slot};
use crate::touched::Touched;
use life_cells::Rule;
use life_plane::{Around, Logic, RulePolynomial, Tile, Window, band};

/// Sets each of the marks to one value.
pub fn mark_all(marks: &mut [Bands], value: Bands)
    ensures length { length marks.new ≡ length marks.old }
    ensures marks { (k band : ℕ) → k < length marks.old →
        band_mark marks.new k band ≡ bit_at value.bits band }
{
    for mark in marks.iter_mut() {
        *mark = value;
    }
}

/// Computes the active bands of the tile in the middle of nine slots, and writes them over the tile of the generation before.
/// Returns the bands of the nine tiles that a cell that changed is in or next to.
#[inline(always)]
fn work_out(
    tile: &mut Tile,
    current: &[Tile],
    links: &[u32; 9],
    active: Bands,
    logic: &Logic,
) -> Touched
    requires { (m : ℕ) → m < 9 → slice_index links.now m < length current.now }
    ensures { (rule : Rule) → IsLogicOf logic.now rule →
        IsTileWorkedOut (record {
          nine = nine_linked current.now links.now;
          active = active;
          rule = rule;
          before = tile.old;
          after = tile.new;
          columns = result.columns;
          done = 8;
        }) }
{
    let here = &current[links[CENTRE] as usize];
    let around = Around {
        north_west: &current[links[0] as usize],
        north: &current[links[1] as usize],
        north_east: &current[links[2] as usize],
        west: &current[links[3] as usize],
        east: &current[links[5] as usize],
        south_west: &current[links[6] as usize],
        south: &current[links[7] as usize],
        south_east: &current[links[8] as usize],
    };
    let mut touched = Touched::NONE;
    let mut index = active.first_from(0);
    while index < 8 {
        let window = Window::of(here, &around, 8 * index);
        let change = band(logic, &window, tile);
        touched = touched.with_band(index, &change);
        index = active.first_from(index + 1);
    }
    touched
}

/// The number of slots that are passed over at once where none of them is active.
const STRIDE: usize = 32;

/// False only where none of `STRIDE` slots is active.
fn is_busy(active: &[Bands], from: usize) -> bool
    requires { from + STRIDE ≤ length active.now }
    ensures { result ≡ false → (k band : ℕ) → from ≤ k → k < from + STRIDE →
        band_mark active.now k band ≡ 0 }
{
    let mut all = Bands::NONE;
    for slot in 0..STRIDE {
        all = all.union(active[from + slot]);
    }
    !all.is_empty()
}

/// The first active slot from a slot on, or one more than the last if none is active.
///
/// It is not inlined: within `next_tiles` compilers would keep the counter of slots in memory.
#[inline(never)]
fn first_busy(active: &[Bands], from: usize) -> usize
    ensures from { from ≤ result }
    ensures idle { (k band : ℕ) → from ≤ k → k < result → band_mark active.now k band ≡ 0 }
{
    let mut slot = from;
    while active.len() >= STRIDE && slot <= active.len() - STRIDE && !is_busy(active, slot) {
        slot += STRIDE;
    }
    while slot < active.len() && active[slot].is_empty() {
        slot += 1;
    }
    slot
}

/// Computes the active bands of all slots but the first, as `next_tiles` does, by a logic.
#[inline(always)]
fn next_tiles_by(
    logic: &Logic,
    slots: &[Slot],
    current: &[Tile],
    previous: &mut [Tile],
    active: &[Bands],
    marks: &mut [Bands],
)
    requires linked { IsLinked slots.now }
    requires current { length current.now ≡ length slots.now }
    requires previous { length previous.old ≡ length slots.now }
    requires active { length active.now ≡ length slots.now }
    requires marks { length marks.old ≡ length slots.now }
    ensures { (rule : Rule) → IsLogicOf logic.now rule →
        IsWorkedOut slots.now (record {
          current = current.now;
          active = active.now;
          rule = rule;
          before = previous.old;
          after = previous.new;
          marks_before = marks.old;
          marks_after = marks.new;
          done = length slots.now;
        }) }
{
    let mut slot = first_busy(active, 1);
    while slot < slots.len() {
        let links = &slots[slot].links;
        let touched = work_out(&mut previous[slot], current, links, active[slot], logic);
        touched.mark(marks, links);
        slot = first_busy(active, slot + 1);
    }
}

/// Computes the active bands of all slots but the first: each becomes the next generation of the band that `current` has there.
/// Marks the bands that a cell that changed is in or next to.
pub fn next_tiles(
    slots: &[Slot],
    current: &[Tile],
    previous: &mut [Tile],
    active: &[Bands],
    marks: &mut [Bands],
    rule: &Rule,
)
    requires linked { IsLinked slots.now }
    requires current { length current.now ≡ length slots.now }
    requires previous { length previous.old ≡ length slots.now }
    requires active { length active.now ≡ length slots.now }
    requires marks { length marks.old ≡ length slots.now }
    ensures { IsWorkedOut slots.now (record {
      current = current.now;
      active = active.now;
      rule = rule.now;
      before = previous.old;
      after = previous.new;
      marks_before = marks.old;
      marks_after = marks.new;
      done = length slots.now;
    }) }
{
    // The logic is chosen here once for all bands, and for Conway's rule without making room for a polynomial.
    if *rule == Rule::life() {
        next_tiles_by(&Logic::Life, slots, current, previous, active, marks);
    } else {
        let logic = Logic::General(RulePolynomial::of(rule));
        next_tiles_by(&logic, slots, current, previous, active, marks);
    }
}

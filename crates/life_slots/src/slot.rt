//! Slots: the place of the tile of each, and the slots around it.
ghost use Rattle.std.specs.Prelude.{◌≡◌, ◌≢◌, ℕ, ◌+◌, ◌-◌, ◌<◌, length, slice_index};
ghost use Rattle.life_slots.specs.Places.{IsInside};
ghost use Rattle.life_slots.specs.Slots.{slot_at, neighbour_at, place_of, link_of};

use std::collections::BTreeMap;

/// The direction from a slot to itself. The nine directions are counted row by row from 0 in the north west to 8 in the
/// south east, so 8 less a direction is the opposite one.
pub const CENTRE: usize = 4;

/// The place of a tile, and in each of the nine directions the slot of the tile there, 0 if there is none.
#[derive(Clone, Copy)]
pub struct Slot {
    pub place: (i32, i32),
    pub links: [u32; 9],
}

/// The slot of a place, 0 if it has none.
pub fn slot_or_none(index: &BTreeMap<(i32, i32), u32>, place: (i32, i32)) -> u32
    ensures { result ≡ slot_at index.now place }
{
    match index.get(&place) {
        Some(slot) => *slot,
        None => 0,
    }
}

/// The place in a direction from a place.
pub fn neighbour(place: (i32, i32), direction: usize) -> (i32, i32)
    requires inside { IsInside place }
    requires direction { direction < 9 }
    ensures { result ≡ neighbour_at place direction }
{
    (
        place.0 + (direction % 3) as i32 - 1,
        place.1 + (direction / 3) as i32 - 1,
    )
}

/// The slots at and around a place.
pub fn links_around(index: &BTreeMap<(i32, i32), u32>, place: (i32, i32)) -> [u32; 9]
    requires { IsInside place }
    ensures { (m : ℕ) → m < 9 → slice_index result m ≡ slot_at index.now (neighbour_at place m) }
{
    let mut links = [0; 9];
    for direction in 0..9 {
        links[direction] = slot_or_none(index, neighbour(place, direction));
    }
    links
}

/// The links with this slot in a direction.
pub fn with_link(mut links: [u32; 9], direction: usize, slot: u32) -> [u32; 9]
    requires { direction < 9 }
    ensures here { slice_index result direction ≡ slot }
    ensures others { (m : ℕ) → m ≢ direction → slice_index result m ≡ slice_index links m }
{
    links[direction] = slot;
    links
}

/// Links each of the slots around a slot to it, in the direction towards it.
pub fn connect(slots: &mut [Slot], links: &[u32; 9], slot: u32)
    requires { (m : ℕ) → m < 9 → slice_index links.now m < length slots.old }
    ensures length { length slots.new ≡ length slots.old }
    ensures place { (k : ℕ) → place_of slots.new k ≡ place_of slots.old k }
    ensures here { (k m : ℕ) → k < length slots.old → m < 9 → slice_index links.now (8 - m) ≡ k →
        link_of slots.new k m ≡ slot }
    ensures others { (k m : ℕ) → m < 9 → slice_index links.now (8 - m) ≢ k →
        link_of slots.new k m ≡ link_of slots.old k m }
{
    for direction in 0..9 {
        let beside = links[direction] as usize;
        let Slot { place, links: old } = slots[beside];
        slots[beside] = Slot {
            place,
            links: with_link(old, 8 - direction, slot),
        };
    }
}

//! A store of tiles in slots, for this generation and the one before.
ghost use Rattle.std.specs.Prelude.{◌≡◌, ◌≢◌, ℕ, ◌+◌, ◌<◌, ◌≤◌, true, All, OnOk, IfOk, length};
ghost use Rattle.life_plane.specs.Area.{tile_cell};
ghost use Rattle.life_model.specs.Evolution.{next};
ghost use Rattle.life_model.specs.Generation.{empty, from_list, insert, size};
ghost use Rattle.life_cells.specs.Limits.{IsWithin, age_limit};
ghost use Rattle.life_slots.specs.Cells.{live_tiles};
ghost use Rattle.life_slots.specs.Ends.{AreEnds, IsMember};
ghost use Rattle.life_slots.specs.Slots.{slot_at, place_of, link_of, tile_of, IsReached};
ghost use Rattle.life_slots.specs.Rims.{IsRimOf, IsStill};

use life_cells::Rule;
use life_plane::Tile;
use life_slots::{
    Bands, CENTRE, Ends, Rim, Slot, clear_all, connect, count_cells, ends_of, is_void,
    links_around, mark_all, mark_near, neighbour, next_tiles, push_seats, seats_by_rows,
    slot_or_none, split, tile_in, with_link,
};
use std::alloc::{AllocError, Global};
use std::collections::BTreeMap;
use std::mem::swap;

/// The number of tiles for which room is reserved at first: the empty one and one more. Such pieces of memory are
/// quick to get.
const FIRST_TILES: usize = 2;

/// Tiles in slots. Slot 0 has the empty tile and no place.
///
/// A slot takes 1,070 bytes: 1,024 for its tile in two generations, 44 for its place and its links, and 2 for its
/// marks. Its entry in the index takes 12 bytes, or about twice that with the spare room in nodes of the index. The
/// vectors grow by doubling, so that room for up to twice as many slots is reserved. A live cell in the corner of its
/// tile needs four slots, three of which have empty tiles.
#[derive(Drop)]
pub struct TileStore {
    /// The slot of the tile at each place.
    pub index: BTreeMap<(i32, i32), u32>,
    pub slots: Vec<Slot>,
    /// The tiles of this generation.
    pub current: Vec<Tile>,
    /// The tiles of the generation before, if there is one. They become the next generation.
    pub previous: Vec<Tile>,
    /// The bands of the slots that may differ between the generation before and the next one. A band of slot 0 is
    /// marked if a place without a slot may get a live cell.
    pub active: Vec<Bands>,
    /// Memory for the marks of the generation after.
    pub next_active: Vec<Bands>,
    /// The rule that made this generation from the one before.
    pub rule: Rule,
    /// True where `previous` is no generation. Then every band is active.
    pub lacks_previous: bool,
    /// The number of steps it has made.
    pub age: u32,
}

impl TileStore {
    ghost use Rattle.life_slots.specs.Work.{IsCalm, IsIdle};
    ghost use Rattle.life_slots.specs.Indexes.{IsClosed, IsSlotOf};
    ghost use Rattle.life_tile.specs.TileStores.{HasRoom, HasTilesOf, IsAlike, IsCompact, IsAppended, IsBegun, IsExtended, IsGrown, IsKept, IsSameBut, IsSet, IsShowing, IsTileAt, cell_of, members_of};

    /// The store without a live cell.
    pub fn new(alloc: Global, age: u32) -> Result<TileStore, AllocError>
        requires { age ≤ age_limit }
        ensures kept { IfOk result IsKept }
        ensures members { IfOk result (λ store. members_of store ≡ empty) }
        ensures age { IfOk result (λ store. store.age ≡ age) }
        ensures lacks_previous { IfOk result (λ store. store.lacks_previous ≡ true) }
        ensures one { IfOk result (λ store. length store.slots.items ≡ 1) }
    {
        let current = Vec::with_capacity(alloc, FIRST_TILES)?;
        let previous = Vec::with_capacity(alloc, FIRST_TILES)?;
        let mut store = TileStore {
            index: BTreeMap::new(alloc),
            slots: Vec::new(alloc),
            current,
            previous,
            active: Vec::new(alloc),
            next_active: Vec::new(alloc),
            rule: Rule::life(),
            lacks_previous: true,
            age,
        };
        store.reserve_one()?;
        store.append(Slot {
            place: (0, 0),
            links: [0; 9],
        });
        Ok(store)
    }

    /// Reserves room for one more slot.
    fn reserve_one(&mut self) -> Result<(), AllocError>
        ensures alike { IsAlike self.old self.new }
        ensures index { self.new.index ≡ self.old.index }
        ensures room { OnOk result (HasRoom self.new) }
    {
        self.slots.reserve(1)?;
        self.current.reserve(1)?;
        self.previous.reserve(1)?;
        self.active.reserve(1)?;
        self.next_active.reserve(1)?;
        Ok(())
    }

    /// Adds one more slot at the end, with the empty tile twice, and all bands active.
    fn append(&mut self, slot: Slot)
        requires { HasRoom self.old }
        ensures { IsAppended self.old self.new slot }
    {
        let _ = self.slots.push(slot);
        let _ = self.current.push(Tile::EMPTY);
        let _ = self.previous.push(Tile::EMPTY);
        let _ = self.active.push(Bands::ALL);
        let _ = self.next_active.push(Bands::NONE);
    }

    /// The number of the next slot to be made. It fits into a link.
    fn next_slot(&self) -> Result<u32, AllocError>
        ensures { IfOk result (λ slot. slot ≡ length self.now.slots.items) }
    {
        u32::try_from(self.slots.len()).map_err(|_| AllocError)
    }

    /// Makes a slot for a place that has none.
    fn add(&mut self, place: (i32, i32)) -> Result<(), AllocError>
        requires kept { IsKept self.old }
        requires reached { IsReached self.old.age place }
        requires absent { slot_at self.old.index place ≡ 0 }
        ensures kept { IsKept self.new }
        ensures extended { IsExtended self.old self.new }
        ensures slot { OnOk result
            (IsSlotOf self.new.slots.items place (length self.old.slots.items)) }
        ensures indexed { OnOk result (slot_at self.new.index place ≡ length self.old.slots.items) }
        ensures count { OnOk result
            (length self.new.slots.items ≡ length self.old.slots.items + 1) }
    {
        let slot = self.next_slot()?;
        let links = with_link(links_around(&self.index, place), CENTRE, slot);
        self.reserve_one()?;
        self.index.insert(place, slot)?;
        self.append(Slot { place, links });
        connect(&mut self.slots, &links, slot);
        Ok(())
    }

    /// The rim of the tile of a slot.
    fn rim_of(&self, slot: usize) -> Rim
        requires { slot < length self.now.current.items }
        ensures { IsRimOf result (tile_of self.now.current.items slot) }
    {
        Rim::of(&self.current[slot])
    }

    /// The slot in a direction from a slot, or 0 if there is none.
    fn link(&self, slot: usize, direction: usize) -> u32
        requires slot { slot < length self.now.slots.items }
        requires direction { direction < 9 }
        ensures { result ≡ link_of self.now.slots.items slot direction }
    {
        self.slots[slot].links[direction]
    }

    fn place(&self, slot: usize) -> (i32, i32)
        requires { slot < length self.now.slots.items }
        ensures { result ≡ place_of self.now.slots.items slot }
    {
        self.slots[slot].place
    }

    /// True only if there is a slot in each direction from a slot.
    fn is_surrounded(&self, slot: usize) -> bool
        requires { slot < length self.now.slots.items }
        ensures { result ≡ true → (m : ℕ) → m < 9 → link_of self.now.slots.items slot m ≢ 0 }
    {
        for direction in 0..9 {
            if self.link(slot, direction) == 0 {
                return false;
            }
        }
        true
    }

    /// Makes a slot for the place in a direction from a slot, if that place has none and a live cell is next to it.
    fn grow_towards(&mut self, slot: usize, rim: &Rim, direction: usize) -> Result<(), AllocError>
        requires kept { IsKept self.old }
        requires later { 0 < slot }
        requires slot { slot < length self.old.slots.items }
        requires rim { IsRimOf rim.now (tile_of self.old.current.items slot) }
        requires direction { direction < 9 }
        ensures kept { IsKept self.new }
        ensures extended { IsExtended self.old self.new }
        ensures grown { OnOk result
            (link_of self.new.slots.items slot direction ≡ 0 →
            IsStill (tile_of self.old.current.items slot) direction) }
    {
        if self.link(slot, direction) == 0 && rim.reaches(direction) {
            self.add(neighbour(self.place(slot), direction))?;
        }
        Ok(())
    }

    /// True only if no band of a slot is marked. Then no cell of its tile changed in the last step.
    pub fn is_idle(&self, slot: usize) -> bool
        requires { slot < length self.now.active.items }
        ensures { result ≡ true → IsIdle self.now.active.items slot }
    {
        self.active[slot].is_empty()
    }

    /// Makes slots for the places around a slot that are next to a live cell of its tile.
    fn grow_around(&mut self, slot: usize) -> Result<(), AllocError>
        requires kept { IsKept self.old }
        requires later { 0 < slot }
        requires slot { slot < length self.old.slots.items }
        ensures kept { IsKept self.new }
        ensures extended { IsExtended self.old self.new }
        ensures closed { OnOk result (IsClosed self.new.slots.items self.new.current.items slot) }
    {
        if self.is_idle(slot) {
            return Ok(());
        }
        if self.is_surrounded(slot) {
            return Ok(());
        }
        let rim = self.rim_of(slot);
        for direction in 0..9 {
            self.grow_towards(slot, &rim, direction)?;
        }
        Ok(())
    }

    /// True only if no place without a slot can have a new live cell next to it.
    fn is_closed(&self) -> bool
        requires { 0 < length self.now.active.items }
        ensures { result ≡ true → IsCalm self.now.active.items }
    {
        self.is_idle(0)
    }

    /// Makes slots for all places with a live cell in them or next to them.
    pub fn grow(&mut self) -> Result<(), AllocError>
        requires { IsKept self.old }
        ensures kept { IsKept self.new }
        ensures members { members_of self.new ≡ members_of self.old }
        ensures rule { self.new.rule ≡ self.old.rule }
        ensures age { self.new.age ≡ self.old.age }
        ensures grown { OnOk result (IsGrown self.new) }
    {
        if self.is_closed() {
            return Ok(());
        }
        for slot in 1..self.slots.len() {
            self.grow_around(slot)?;
        }
        Ok(())
    }

    /// Makes every band active if the last step was by another rule.
    pub fn use_rule(&mut self, rule: &Rule)
        requires { IsKept self.old }
        ensures kept { IsKept self.new }
        ensures members { members_of self.new ≡ members_of self.old }
        ensures rule { self.new.rule ≡ rule.now }
        ensures age { self.new.age ≡ self.old.age }
    {
        if self.rule != *rule {
            self.rule = *rule;
            self.lacks_previous = true;
            mark_all(&mut self.active, Bands::ALL);
        }
    }

    /// Prepares a step. If there is no generation before, an empty one is assumed, so that only bands with a live cell
    /// in them or next to them are active. They are active again in the step after, since the empty generation was not
    /// really the one before.
    fn begin(&mut self)
        requires { IsKept self.old }
        ensures { IsBegun self.old self.new }
    {
        if self.lacks_previous {
            clear_all(&mut self.previous);
            mark_near(&mut self.next_active, &self.slots, &self.current);
            self.active.copy_from_slice(&self.next_active);
        } else {
            mark_all(&mut self.next_active, Bands::NONE);
        }
    }

    /// Makes the next generation.
    pub fn advance(&mut self)
        requires kept { IsKept self.old }
        requires grown { IsGrown self.old }
        requires young { self.old.age < age_limit }
        ensures kept { IsKept self.new }
        ensures members { members_of self.new ≡ next self.old.rule (members_of self.old) }
        ensures age { self.new.age ≡ self.old.age + 1 }
    {
        self.begin();
        next_tiles(
            &self.slots,
            &self.current,
            &mut self.previous,
            &self.active,
            &mut self.next_active,
            &self.rule,
        );
        swap(&mut self.current, &mut self.previous);
        swap(&mut self.active, &mut self.next_active);
        self.lacks_previous = false;
        self.age += 1;
    }

    /// The slot of a place, made if there is none.
    fn slot_for(&mut self, place: (i32, i32)) -> Result<usize, AllocError>
        requires kept { IsKept self.old }
        requires reached { IsReached self.old.age place }
        ensures kept { IsKept self.new }
        ensures extended { IsExtended self.old self.new }
        ensures slot { IfOk result (IsSlotOf self.new.slots.items place) }
        ensures made { IfOk result
            (λ slot. (k : ℕ) → length self.old.slots.items ≤ k → k < length self.new.slots.items →
            k ≡ slot) }
        ensures count { OnOk result
            (slot_at self.old.index place ≡ 0 →
            length self.new.slots.items ≡ length self.old.slots.items + 1) }
    {
        let slot = slot_or_none(&self.index, place);
        if slot != 0 {
            return Ok(slot as usize);
        }
        let slot = self.slots.len();
        self.add(place)?;
        Ok(slot)
    }

    /// Makes the cell in column `x` and row `y` of a slot's tile live.
    fn set(&mut self, slot: usize, x: usize, y: usize)
        requires slot { slot < length self.old.current.items }
        requires column { x < 64 }
        requires row { y < 64 }
        ensures { IsSet self.old self.new slot x y }
    {
        self.current[slot].set(x, y, true);
    }

    /// Makes one cell live.
    fn put(&mut self, cell: (i32, i32)) -> Result<(), AllocError>
        requires kept { IsKept self.old }
        requires lacks_previous { self.old.lacks_previous ≡ true }
        requires within { IsWithin self.old.age cell }
        ensures kept { OnOk result (IsKept self.new) }
        ensures lacks_previous { OnOk result (self.new.lacks_previous ≡ true) }
        ensures age { OnOk result (self.new.age ≡ self.old.age) }
        ensures members { OnOk result (members_of self.new ≡ insert (members_of self.old) cell) }
        ensures compact { OnOk result (IsCompact self.old → IsCompact self.new) }
    {
        let (column, x) = split(cell.0);
        let (row, y) = split(cell.1);
        let slot = self.slot_for((column, row))?;
        self.set(slot, x, y);
        Ok(())
    }

    /// Puts another tile into a slot.
    fn show(&mut self, slot: usize, tile: &Tile)
        requires { slot < length self.old.current.items }
        ensures { IsShowing self.old self.new slot tile.now }
    {
        self.current[slot] = *tile;
    }

    /// Replaces the tile at a place.
    fn put_tile(&mut self, place: (i32, i32), tile: &Tile) -> Result<(), AllocError>
        requires kept { IsKept self.old }
        requires lacks_previous { self.old.lacks_previous ≡ true }
        requires reached { IsReached self.old.age place }
        requires within { (x y : ℕ) → x < 64 → y < 64 → tile_cell tile.now x y ≡ 1 →
            IsWithin self.old.age (cell_of place x y) }
        ensures kept { OnOk result (IsKept self.new) }
        ensures lacks_previous { OnOk result (self.new.lacks_previous ≡ true) }
        ensures age { OnOk result (self.new.age ≡ self.old.age) }
        ensures tile { OnOk result (IsTileAt (members_of self.new) tile.now place) }
        ensures others { OnOk result (IsSameBut (members_of self.old) (members_of self.new) place) }
        ensures tiles { OnOk result (HasTilesOf self.old self.new tile.now) }
        ensures count { OnOk result
            (slot_at self.old.index place ≡ 0 →
            length self.new.slots.items ≡ length self.old.slots.items + 1) }
    {
        let slot = self.slot_for(place)?;
        self.show(slot, tile);
        Ok(())
    }

    /// The store of these cells, which may come in any order and with repeats. Apart from slot 0 it has no slot for a
    /// tile without a live cell.
    pub fn of(alloc: Global, cells: &[(i32, i32)], age: u32) -> Result<TileStore, AllocError>
        requires young { age ≤ age_limit }
        requires within { All (IsWithin age) cells.now }
        ensures kept { IfOk result IsKept }
        ensures members { IfOk result (λ store. members_of store ≡ from_list cells.now) }
        ensures age { IfOk result (λ store. store.age ≡ age) }
        ensures compact { IfOk result IsCompact }
    {
        let mut store = TileStore::new(alloc, age)?;
        for cell in cells {
            store.put(*cell)?;
        }
        Ok(store)
    }

    /// The live cells, in no particular order, in the memory of a vector that is no longer needed.
    pub fn cells_in(&self, mut cells: Vec<(i32, i32)>) -> Result<Vec<(i32, i32)>, AllocError>
        requires { IsKept self.now }
        ensures members { IfOk result (λ cells. from_list cells.items ≡ members_of self.now) }
        ensures within { IfOk result (λ cells. All (IsWithin self.now.age) cells.items) }
    {
        let alloc = *self.slots.allocator();
        let seats = seats_by_rows(alloc, &self.index, &self.current)?;
        cells.clear();
        push_seats(&mut cells, &seats, &self.current)?;
        Ok(cells)
    }

    /// The first and the last live cell.
    pub fn ends(&self) -> Option<Ends>
        requires { IsKept self.now }
        ensures { AreEnds (IsMember (members_of self.now)) result }
    {
        ends_of(&self.slots, &self.current)
    }

    /// The number of live cells.
    pub fn population(&self) -> u64
        requires { IsKept self.now }
        ensures { result ≡ size (members_of self.now) }
    {
        // (the first tile has none)
        count_cells(&self.current[1..])
    }

    /// The same cells at the same age, in a store that apart from slot 0 has no slot for a tile without a live cell:
    /// one tile more than there are tiles with a live cell here. Apart from the new store it takes no memory.
    pub fn compacted(&self) -> Result<TileStore, AllocError>
        requires { IsKept self.now }
        ensures kept { IfOk result IsKept }
        ensures members { IfOk result (λ store. members_of store ≡ members_of self.now) }
        ensures age { IfOk result (λ store. store.age ≡ self.now.age) }
        ensures compact { IfOk result IsCompact }
        ensures count { IfOk result
            (λ store. length store.slots.items ≡ 1 + live_tiles self.now.current.items) }
    {
        let mut store = TileStore::new(*self.slots.allocator(), self.age)?;
        for slot in 1..self.slots.len() {
            let tile = tile_in(&self.current, slot);
            if !is_void(tile) {
                store.put_tile(self.place(slot), tile)?;
            }
        }
        Ok(store)
    }
}

//! Squares of given cells.
ghost use Rattle.std.specs.Prelude.{◌≡◌, ◌↔◌, ℕ, ℤ, pos, suc, ◌+◌, ◌<◌, ◌≤◌, Bool, IsTrue, IfOk, List, if◌then◌else◌};
ghost use Rattle.life_model.specs.Cell.{Cell};
ghost use Rattle.life_model.specs.Generation.{from_list};
ghost use Rattle.life_model.specs.Rule.{Rule};
ghost use Rattle.life_slots.specs.Leaves.{ShowsLeaf};
ghost use Rattle.life_advance.specs.Leaps.Squares.{Grows, IsAt, IsKept, Shows, beyond, width};
ghost use Rattle.life_advance.specs.Leaps.Stores.{view};
ghost use Rattle.life_advance.specs.Leaps.Cells.{IsInside, IsListed};
ghost use Rattle.life_advance.specs.Leaps.Sites.{AreInside, AreQuartersOf, IsPartOf, IsSite, corner};

use crate::leaps::site::{Site, Sites};
use crate::leaps::square::{Quarters, empty_place};
use crate::leaps::store::Store;
use life_slots::Leaf;
use std::alloc::{AllocError, Global};

/// Cells of a list, among them all that are in a square.
fn part_of(alloc: Global, cells: &[(i32, i32)], site: &Site) -> Result<Vec<(i32, i32)>, AllocError>
    requires { IsSite site.now }
    ensures { IfOk result (λ part. IsPartOf cells.now site.now part.items) }
{
    let mut part = Vec::new(alloc);
    for cell in cells {
        if let Some(_) = site.place_of(*cell) {
            part.push(*cell)?;
        }
    }
    Ok(part)
}

/// The leaf with those cells of a list that are in it.
fn leaf_of(cells: &[(i32, i32)], site: &Site) -> Leaf
    requires site { IsSite site.now }
    requires leaf { site.now.level ≡ 0 }
    ensures { ShowsLeaf result (from_list cells.now) (corner site.now) }
{
    let mut leaf = Leaf::empty();
    for cell in cells {
        if let Some((x, y)) = site.place_of(*cell) {
            leaf.set(x, y);
        }
    }
    leaf
}

/// True only if all cells of a list are in a square.
fn are_in(cells: &[(i32, i32)], site: &Site) -> bool
    requires { IsSite site.now }
    ensures { IsTrue result → AreInside site.now cells.now }
{
    for cell in cells {
        let Some(_) = site.place_of(*cell) else {
            return false;
        };
    }
    true
}

impl Store {
    /// The square at a site with the cells of a list, which are all in its first quarter.
    #[cycle(build)]
    fn build_first(
        &mut self,
        site: &Site,
        sites: &Sites,
        cells: &[(i32, i32)],
    ) -> Result<u32, AllocError>
        requires kept { IsKept (view self.old) }
        requires site { IsSite site.now }
        requires sites { AreQuartersOf site.now sites.now }
        requires first { AreInside sites.now.north_west cells.now }
        ensures grows { (rule : Rule) (e : ℕ) → Grows rule e (view self.old) (view self.new) }
        ensures at { IfOk result (λ i. IsAt (view self.new) site.now.level i) }
        ensures shows { IfOk result (λ i.
            Shows (view self.new) site.now.level i (from_list cells.now) (corner site.now)) }
    {
        let north_west = self.build(&sites.north_west, cells)?;
        let empty = empty_place(sites.north_west.level);
        let made = Quarters {
            north_west,
            north_east: empty,
            south_west: empty,
            south_east: empty,
        };
        let place = self.square(sites.north_west.level, &made)?;
        Ok(place)
    }

    /// The square at a site with those cells of a list that are in it. Only these are examined further.
    #[cycle(build)]
    fn build_part(&mut self, site: &Site, cells: &[(i32, i32)]) -> Result<u32, AllocError>
        requires kept { IsKept (view self.old) }
        requires site { IsSite site.now }
        ensures grows { (rule : Rule) (e : ℕ) → Grows rule e (view self.old) (view self.new) }
        ensures at { IfOk result (λ i. IsAt (view self.new) site.now.level i) }
        ensures shows { IfOk result (λ i.
            Shows (view self.new) site.now.level i (from_list cells.now) (corner site.now)) }
    {
        let alloc = *self.squares.allocator();
        let part = part_of(alloc, cells, site)?;
        let place = self.build(site, &part)?;
        Ok(place)
    }

    /// The square at a site with those cells of a list that are in it.
    #[cycle(build)]
    pub fn build(&mut self, site: &Site, cells: &[(i32, i32)]) -> Result<u32, AllocError>
        requires kept { IsKept (view self.old) }
        requires site { IsSite site.now }
        ensures grows { (rule : Rule) (e : ℕ) → Grows rule e (view self.old) (view self.new) }
        ensures at { IfOk result (λ i. IsAt (view self.new) site.now.level i) }
        ensures shows { IfOk result (λ i.
            Shows (view self.new) site.now.level i (from_list cells.now) (corner site.now)) }
    {
        if cells.is_empty() {
            return Ok(empty_place(site.level));
        }
        if site.level == 0 {
            let leaf = self.leaf(&leaf_of(cells, site))?;
            return Ok(leaf);
        }
        let sites = site.quarters();
        if are_in(cells, &sites.north_west) {
            let first = self.build_first(site, &sites, cells)?;
            return Ok(first);
        }
        let north_west = self.build_part(&sites.north_west, cells)?;
        let north_east = self.build_part(&sites.north_east, cells)?;
        let south_west = self.build_part(&sites.south_west, cells)?;
        let south_east = self.build_part(&sites.south_east, cells)?;
        let made = Quarters {
            north_west,
            north_east,
            south_west,
            south_east,
        };
        let place = self.square(site.level - 1, &made)?;
        Ok(place)
    }
}

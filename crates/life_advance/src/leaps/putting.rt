//! Other cells for a plane that leaps.
ghost use Rattle.std.specs.Prelude.{◌≡◌, ◌≤◌, All, OnOk, OnErr};
ghost use Rattle.life_model.specs.Generation as sets;
ghost use Rattle.life_cells.specs.Limits.{IsWithin};
ghost use Rattle.life_advance.specs.Leaps.Planes.{farthest_age};

use crate::leaps::leaping::Leaper;
use crate::leaps::site::Site;
use life_cells::CellList;
use std::alloc::AllocError;

impl Leaper {
    ghost use Rattle.life_advance.specs.Leaps.Leapers.{IsLeaper, cells_in};

    /// Replaces all cells by those of a list, at some age. The cells are in the range of that age. Squares keep what they
    /// remember. After an `Err` the cells and the age are unchanged.
    pub fn put(&mut self, list: &CellList, age: u32) -> Result<(), AllocError>
        requires kept { IsLeaper self.old }
        requires age { age ≤ farthest_age }
        requires within { All (IsWithin age) (sets.cells list.now) }
        ensures kept { IsLeaper self.new }
        ensures cells { OnOk result (cells_in self.new ≡ list.now) }
        ensures age { OnOk result (self.new.age ≡ age) }
        ensures rule { self.new.step.rule ≡ self.old.step.rule }
        ensures unchanged { OnErr result
            ((cells_in self.new ≡ cells_in self.old) × (self.new.age ≡ self.old.age)) }
    {
        let site = Site::root();
        let root = self.store.build(&site, list.as_slice())?;
        self.root = root;
        self.age = age;
        Ok(())
    }
}

//! The middles of squares some generations later.
ghost use Rattle.std.specs.Prelude.{◌≡◌, ℕ, suc, ◌+◌, ◌<◌, ◌≤◌, ◌^◌, min, IfOk, OnOk};
ghost use Rattle.life_advance.specs.Leaps.Squares.{AreAt, Grows, IsAt, IsLater, IsMiddle, View, jump};
ghost use Rattle.life_advance.specs.Leaps.Stores.{view};
ghost use Rattle.life_advance.specs.Leaps.Rows.{AreFourAt, AreThreeAt, AreThreeLater, AreTwoLater, IsReady, rest};

use crate::leaps::rows::{FourInRow, Step, ThreeInRow, TwoInRow, northern, southern};
use crate::leaps::square::Quarters;
use crate::leaps::store::{NoLeap, Store};

/// The work of a square that is made of squares.
const SQUARE_WORK: u64 = 10;

/// The work of a generation of the middle of four leaves.
const LEAF_WORK: u64 = 8;

impl Store {
    /// The middle of a square whose quarters have a level, as many generations later as the step says.
    #[cycle(later)]
    pub fn later(&mut self, step: &Step, level: u32, place: u32) -> Result<u32, NoLeap>
        requires ready { IsReady step.now (view self.old) }
        requires at { IsAt (view self.old) (suc level) place }
        ensures grows { Grows step.now.rule step.now.exponent (view self.old) (view self.new) }
        ensures middle { IfOk result (λ i. IsMiddle step.now.rule (jump step.now.exponent level)
            (view self.old) level ((view self.old).square place).quarters (view self.new) i) }
    {
        let square = self.square_at(place);
        if let Some(later) = square.later {
            return Ok(later);
        }
        let later = self.middle_of(step, level, &square.quarters)?;
        self.remember(place, later);
        Ok(later)
    }

    /// The middle of a square with these quarters of a level.
    #[cycle(later)]
    fn middle_of(&mut self, step: &Step, level: u32, quarters: &Quarters) -> Result<u32, NoLeap>
        requires ready { IsReady step.now (view self.old) }
        requires at { AreAt (view self.old) level quarters.now }
        ensures grows { Grows step.now.rule step.now.exponent (view self.old) (view self.new) }
        ensures middle { IfOk result (λ i. IsMiddle step.now.rule (jump step.now.exponent level)
            (view self.old) level quarters.now (view self.new) i) }
    {
        if self.work >= step.work {
            return Err(NoLeap::Work);
        }
        if level == 0 {
            let generations = 1 << step.exponent.min(4);
            let work = LEAF_WORK * u64::from(generations);
            self.work = self.work.saturating_add(work);
            let leaf = self.middle_of_leaves(step, quarters, generations)?;
            Ok(leaf)
        } else {
            self.work = self.work.saturating_add(SQUARE_WORK);
            let square = self.middle_of_squares(step, level - 1, quarters)?;
            Ok(square)
        }
    }

    /// The middle of a square whose quarters are made of squares of a level. The sixteen squares make nine that overlap, which
    /// go the first half of the way, and the four squares that those make go the rest.
    #[cycle(later)]
    fn middle_of_squares(
        &mut self,
        step: &Step,
        level: u32,
        quarters: &Quarters,
    ) -> Result<u32, NoLeap>
        requires ready { IsReady step.now (view self.old) }
        requires at { AreAt (view self.old) (suc level) quarters.now }
        ensures grows { Grows step.now.rule step.now.exponent (view self.old) (view self.new) }
        ensures middle { IfOk result (λ i. IsMiddle step.now.rule
            (jump step.now.exponent (suc level)) (view self.old) (suc level) quarters.now (view self.new) i) }
    {
        let north_west = self.quarters(quarters.north_west);
        let north_east = self.quarters(quarters.north_east);
        let south_west = self.quarters(quarters.south_west);
        let south_east = self.quarters(quarters.south_east);
        let first = northern(north_west, north_east);
        let second = southern(north_west, north_east);
        let third = northern(south_west, south_east);
        let fourth = southern(south_west, south_east);
        let north = self.three_later(step, level, &first, &second)?;
        let between = self.three_later(step, level, &second, &third)?;
        let south = self.three_later(step, level, &third, &fourth)?;
        let upper = self.two_later(step, level, &north, &between)?;
        let lower = self.two_later(step, level, &between, &south)?;
        let made = Quarters {
            north_west: upper.west,
            north_east: upper.east,
            south_west: lower.west,
            south_east: lower.east,
        };
        let place = self.square(level, &made)?;
        Ok(place)
    }

    /// The middles of the three squares that two rows of four make.
    #[cycle(later)]
    fn three_later(
        &mut self,
        step: &Step,
        level: u32,
        north: &FourInRow,
        south: &FourInRow,
    ) -> Result<ThreeInRow, NoLeap>
        requires ready { IsReady step.now (view self.old) }
        requires north { AreFourAt (view self.old) level north.now }
        requires south { AreFourAt (view self.old) level south.now }
        ensures grows { Grows step.now.rule step.now.exponent (view self.old) (view self.new) }
        ensures three { IfOk result (λ three. AreThreeLater step.now.rule
            (jump step.now.exponent level) (view self.old) level north.now south.now (view self.new) three) }
    {
        let one = Quarters {
            north_west: north.first,
            north_east: north.second,
            south_west: south.first,
            south_east: south.second,
        };
        let west = self.middle_made(step, level, &one)?;
        let two = Quarters {
            north_west: north.second,
            north_east: north.third,
            south_west: south.second,
            south_east: south.third,
        };
        let middle = self.middle_made(step, level, &two)?;
        let three = Quarters {
            north_west: north.third,
            north_east: north.fourth,
            south_west: south.third,
            south_east: south.fourth,
        };
        let east = self.middle_made(step, level, &three)?;
        Ok(ThreeInRow { west, middle, east })
    }

    /// The middles of the two squares that two rows of three make, after the rest of the way.
    #[cycle(later)]
    fn two_later(
        &mut self,
        step: &Step,
        level: u32,
        north: &ThreeInRow,
        south: &ThreeInRow,
    ) -> Result<TwoInRow, NoLeap>
        requires ready { IsReady step.now (view self.old) }
        requires north { AreThreeAt (view self.old) level north.now }
        requires south { AreThreeAt (view self.old) level south.now }
        ensures grows { Grows step.now.rule step.now.exponent (view self.old) (view self.new) }
        ensures two { IfOk result (λ two. AreTwoLater step.now.rule (rest step.now.exponent level)
            (view self.old) level north.now south.now (view self.new) two) }
    {
        let one = Quarters {
            north_west: north.west,
            north_east: north.middle,
            south_west: south.west,
            south_east: south.middle,
        };
        let west = self.middle_after(step, level, &one)?;
        let two = Quarters {
            north_west: north.middle,
            north_east: north.east,
            south_west: south.middle,
            south_east: south.east,
        };
        let east = self.middle_after(step, level, &two)?;
        Ok(TwoInRow { west, east })
    }

    /// The middle of the square that four of a level make.
    #[cycle(later)]
    fn middle_made(&mut self, step: &Step, level: u32, quarters: &Quarters) -> Result<u32, NoLeap>
        requires ready { IsReady step.now (view self.old) }
        requires at { AreAt (view self.old) level quarters.now }
        ensures grows { Grows step.now.rule step.now.exponent (view self.old) (view self.new) }
        ensures middle { IfOk result (λ i. IsMiddle step.now.rule (jump step.now.exponent level)
            (view self.old) level quarters.now (view self.new) i) }
    {
        let place = self.square(level, quarters)?;
        let later = self.later(step, level, place)?;
        Ok(later)
    }

    /// The middle of the square that four of a level make, after the rest of the way, which is nothing where the squares are
    /// wider than the leap needs.
    #[cycle(later)]
    fn middle_after(&mut self, step: &Step, level: u32, quarters: &Quarters) -> Result<u32, NoLeap>
        requires ready { IsReady step.now (view self.old) }
        requires at { AreAt (view self.old) level quarters.now }
        ensures grows { Grows step.now.rule step.now.exponent (view self.old) (view self.new) }
        ensures middle { IfOk result (λ i. IsMiddle step.now.rule (rest step.now.exponent level)
            (view self.old) level quarters.now (view self.new) i) }
    {
        if level < step.exponent.saturating_sub(4) {
            let later = self.middle_made(step, level, quarters)?;
            Ok(later)
        } else {
            let centre = self.centre(step, level, quarters)?;
            Ok(centre)
        }
    }
}

//! The sums of the rows of a window.
ghost use Rattle.std.specs.Prelude.{◌≡◌, ℕ, ◌+◌, ◌<◌, ◌≤◌};
ghost use Rattle.life_plane.specs.Area.{sum_around};
ghost use Rattle.life_plane.specs.Numbers.{number_at};
ghost use Rattle.life_plane.specs.Windows.{window_cell, IsSumsOf};
ghost use Rattle.life_plane.specs.declared.window.Window.{Window};

use crate::adders::full_adder;
use crate::logic::Count;
use crate::window::Window;

/// Sums over the rows of a window, in the middle 64 columns: for the eight rows, the number of live cells among the
/// two beside a cell, and for all ten rows, the number among those two and the cell itself.
#[derive(Clone, Copy)]
pub struct BandSums {
    pub two_ones: [u64; 8],
    pub two_twos: [u64; 8],
    pub three_ones: [u64; 10],
    pub three_twos: [u64; 10],
}

impl BandSums {
    /// The sums of a window.
    #[inline(always)]
    pub fn of(window: &Window) -> BandSums
        requires { window.now.top ≤ 56 }
        ensures { IsSumsOf result window.now }
    {
        let mut two_ones = [0; 8];
        let mut two_twos = [0; 8];
        let mut three_ones = [0; 10];
        let mut three_twos = [0; 10];
        let above = window.above.sums();
        three_ones[0] = above.three.ones;
        three_twos[0] = above.three.twos;
        for y in 0..8 {
            let row = window.row(y);
            two_ones[y] = row.two.ones;
            two_twos[y] = row.two.twos;
            three_ones[y + 1] = row.three.ones;
            three_twos[y + 1] = row.three.twos;
        }
        let below = window.below.sums();
        three_ones[9] = below.three.ones;
        three_twos[9] = below.three.twos;
        BandSums {
            two_ones,
            two_twos,
            three_ones,
            three_twos,
        }
    }

    /// The number of live neighbours of each cell in row `y` of the eight.
    #[inline(always)]
    pub fn count(&self, y: usize) -> Count
        requires { y < 8 }
        ensures { (window : Window) → IsSumsOf self.now window → (x : ℕ) → x < 64 →
            number_at result x ≡ sum_around (window_cell window) (x + 63) y }
    {
        let sum = full_adder(self.three_ones[y], self.three_ones[y + 2], self.two_ones[y]);
        Count {
            ones: sum.ones,
            above: self.three_twos[y],
            below: self.three_twos[y + 2],
            beside: self.two_twos[y],
            carried: sum.twos,
        }
    }
}

//! Squares of 32 by 32 cells.
ghost use Rattle.std.specs.Prelude.{◌≡◌, ◌≢◌, ℕ, ◌<◌, ◌⊎◌, ◌↔◌, IsTrue, length, slice_index};
ghost use Rattle.std.specs.Int.{bit_at};
ghost use Rattle.life_slots.specs.Leaves.{leaf_cell};

/// A square of 32 by 32 cells, seen as the set of its live ones: bit `x` of `rows[y]` is set where the cell in column `x` and
/// row `y` is live. Row 0 is the northern one, and column 0 the western one.
#[derive(Clone, Copy, PartialEq, Eq, Debug)]
pub struct Leaf {
    pub rows: [u32; 32],
}

/// Four leaves that make a square of 64 by 64 cells.
#[derive(Clone, Copy)]
pub struct FourLeaves<'a> {
    pub north_west: &'a Leaf,
    pub north_east: &'a Leaf,
    pub south_west: &'a Leaf,
    pub south_east: &'a Leaf,
}

impl Leaf {
    /// The leaf without a live cell.
    pub fn empty() -> Leaf
        ensures { (x y : ℕ) → leaf_cell result x y ≡ 0 }
    {
        Leaf { rows: [0; 32] }
    }

    /// Makes the cell in column `x` and row `y` live. Every other cell is unchanged.
    pub fn set(&mut self, x: u32, y: u32)
        requires column { x < 32 }
        requires row { y < 32 }
        ensures here { leaf_cell self.new x y ≡ 1 }
        ensures elsewhere { (p q : ℕ) → p < 32 → (p ≢ x) ⊎ (q ≢ y) →
            leaf_cell self.new p q ≡ leaf_cell self.old p q }
    {
        self.rows[y as usize] |= 1 << x;
    }

    /// True where no cell is live.
    pub fn is_empty(&self) -> bool
        ensures { IsTrue result ↔ ((x y : ℕ) → x < 32 → y < 32 → leaf_cell self.now x y ≡ 0) }
    {
        all_zero(&self.rows)
    }
}

fn all_zero(words: &[u32]) -> bool
    ensures { IsTrue result ↔
        ((x y : ℕ) → x < 32 → y < length words.now → bit_at (slice_index words.now y) x ≡ 0) }
{
    words.iter().all(|word| *word == 0)
}

//! The bands that a change touches.
ghost use Rattle.std.specs.Prelude.{◌≡◌, ℕ, ◌+◌, ◌*◌, ◌%◌, ◌/◌, ◌<◌, length, slice_index};
ghost use Rattle.std.specs.Int.{bit_at};
ghost use Rattle.life_plane.specs.declared.tile.Tile.{Tile};
ghost use Rattle.life_plane.specs.Changes.{IsChange};
ghost use Rattle.life_slots.specs.Rims.{IsSideClear};
ghost use Rattle.life_slots.specs.Work.{band_mark, touch_of, IsTouchedBeside, IsTouchedAround};

use crate::bands::Bands;
use crate::rim::has_at_side;
use life_plane::Change;

/// The bands of nine tiles that a changed cell of the middle tile is in or next to. The tiles make a western, a middle and an
/// eastern column, each of 24 bands, and bit `k` of its word is the mark of the band that is the `k`th from the north.
#[derive(Clone, Copy)]
pub struct Touched {
    pub columns: [u32; 3],
}

/// Three bits, set where a changed cell is in or next to a western (0), a middle (1) or an eastern (2) column: bit 0 for the
/// first of eight rows, bit 1 for any of them, and bit 2 for the last.
#[inline(always)]
fn rows_beside(change: &Change, side: usize) -> u32
    requires { side < 3 }
    ensures small { result < 8 }
    ensures first { bit_at result 0 ≡ 0 → IsSideClear side change.now.first }
    ensures all { bit_at result 1 ≡ 0 → IsSideClear side change.now.all }
    ensures last { bit_at result 2 ≡ 0 → IsSideClear side change.now.last }
{
    let first = u32::from(has_at_side(change.first, side));
    let all = u32::from(has_at_side(change.all, side));
    let last = u32::from(has_at_side(change.last, side));
    first + 2 * all + 4 * last
}

/// A word with three more bits, from bit `at` on.
#[inline(always)]
fn with_bits(word: u32, at: usize, bits: u32) -> u32
    requires { at < 24 }
    ensures kept { (k : ℕ) → bit_at word k ≡ 1 → bit_at result k ≡ 1 }
    ensures set { (k : ℕ) → k < 3 → bit_at result (at + k) ≡ 0 → bit_at bits k ≡ 0 }
{
    word | (bits << at)
}

/// The bands of one column, and also those of it that a changed cell in band `index` of the middle tile is in or next to.
#[inline(always)]
fn with_change(column: u32, side: usize, index: usize, change: &Change) -> u32
    requires side { side < 3 }
    requires index { index < 8 }
    ensures kept { (k : ℕ) → bit_at column k ≡ 1 → bit_at result k ≡ 1 }
    ensures touched { (old new : Tile) → IsChange change.now old new (8 * index) →
        IsTouchedBeside (record {
          side = side;
          word = result;
          index = index;
          before = old;
          after = new;
        }) }
{
    // The bands above, beside and below.
    with_bits(column, index + 7, rows_beside(change, side))
}

/// The bands of one of the three tiles of a column.
fn bands_in(column: u32, row: usize) -> Bands
    requires { row < 3 }
    ensures { (k : ℕ) → k < 8 → bit_at result.bits k ≡ bit_at column (8 * row + k) }
{
    Bands {
        bits: ((column >> (8 * row)) % 256) as u8,
    }
}

/// Marks the bands of one column.
fn mark_column(marks: &mut [Bands], links: &[u32; 9], side: usize, column: u32)
    requires links { (m : ℕ) → m < 9 → slice_index links.now m < length marks.old }
    requires side { side < 3 }
    ensures length { length marks.new ≡ length marks.old }
    ensures kept { (k band : ℕ) → band_mark marks.old k band ≡ 1 → band_mark marks.new k band ≡ 1 }
    ensures marked { (m band : ℕ) → m < 9 → m % 3 ≡ side → band < 8 →
        band_mark marks.new (slice_index links.now m) band ≡ 0 →
        bit_at column (8 * (m / 3) + band) ≡ 0 }
{
    for row in 0..3 {
        let slot = links[3 * row + side] as usize;
        marks[slot] = marks[slot].union(bands_in(column, row));
    }
}

impl Touched {
    /// No band.
    pub const NONE: Touched = Touched { columns: [0; 3] };

    /// These bands, and also those that a changed cell in band `index` of the middle tile is in or next to.
    #[inline(always)]
    pub fn with_band(self, index: usize, change: &Change) -> Touched
        requires { index < 8 }
        ensures kept { (side k : ℕ) → side < 3 → bit_at (slice_index self.columns side) k ≡ 1 →
            bit_at (slice_index result.columns side) k ≡ 1 }
        ensures touched { (old new : Tile) → IsChange change.now old new (8 * index) →
            IsTouchedAround result.columns index old new }
    {
        let [west, here, east] = self.columns;
        Touched {
            columns: [
                with_change(west, 0, index, change),
                with_change(here, 1, index, change),
                with_change(east, 2, index, change),
            ],
        }
    }

    /// Marks these bands, where the nine tiles are in these slots.
    pub fn mark(&self, marks: &mut [Bands], links: &[u32; 9])
        requires { (m : ℕ) → m < 9 → slice_index links.now m < length marks.old }
        ensures length { length marks.new ≡ length marks.old }
        ensures kept { (k band : ℕ) → band_mark marks.old k band ≡ 1 →
            band_mark marks.new k band ≡ 1 }
        ensures marked { (m band : ℕ) → m < 9 → band < 8 →
            band_mark marks.new (slice_index links.now m) band ≡ 0 →
            touch_of self.now.columns m band ≡ 0 }
    {
        for side in 0..3 {
            if self.columns[side] != 0 {
                mark_column(marks, links, side, self.columns[side]);
            }
        }
    }
}

//! The lengths of the texts of strips of few columns, computed from counts of bits.
ghost use Rattle.std.specs.Prelude.{◌≡◌, ℕ, ◌+◌, ◌-◌, ◌*◌, ◌≤◌, bit_and, count_ones, false, length, reverse, true};
ghost use Rattle.std.specs.Int.{bit_at};
ghost use Rattle.life_cells.specs.Wechsler.{columns_text};
ghost use Rattle.life_codes.specs.Lengths.Grids.{columns_from};
ghost use Rattle.life_codes.specs.Lengths.Words.{AreNearMarks, word_columns};

use crate::lengths::measure::Lengths;

/// The greatest number of columns of these strips. A run of fewer zeros takes at most two bytes.
pub const NARROW: usize = 40;

/// The columns right after a marked one, and those at most four after one. The column before the first counts as marked.
fn after_marks(word: u64) -> (u64, u64)
    ensures { (wide : ℕ) → wide ≤ 40 →
        AreNearMarks (word_columns wide word) (bit_at result.0) (bit_at result.1) }
{
    let next = word << 1 | 1;
    let two = next | next << 1;
    (next, two | two << 2)
}

/// The columns right before a marked one, and those at most four before one. Those after the last count as marked.
fn before_marks(word: u64, wide: usize) -> (u64, u64)
    requires { wide ≤ 40 }
    ensures { AreNearMarks (reverse (word_columns wide word)) (λ i. bit_at result.0 (wide - 1 - i))
        (λ i. bit_at result.1 (wide - 1 - i)) }
{
    let next = (word | u64::MAX << wide) >> 1;
    let two = next | next >> 1;
    (next, two | two >> 2)
}

/// The length of a text whose columns are marked. Each takes three bytes, with the zeros before it, but one less where no zero
/// is before it, and one less where there are fewer than four.
fn text_length(word: u64, marks: (u64, u64)) -> usize
    ensures { result + count_ones (bit_and word marks.0) + count_ones (bit_and word marks.1) ≡
        3 * count_ones word }
{
    let (next, near) = marks;
    let bytes = 3 * word.count_ones();
    (bytes - (word & next).count_ones() - (word & near).count_ones()) as usize
}

/// The lengths of the text of a strip of few columns, in which the columns that are not 0 are marked.
pub fn narrow_lengths(word: u64, wide: usize) -> Lengths
    requires narrow { wide ≤ 40 }
    requires beyond { (i : ℕ) → wide ≤ i → bit_at word i ≡ 0 }
    ensures forward { result.forward ≡
        length (columns_text 0 (columns_from false (word_columns wide word))) }
    ensures backward { result.backward ≡
        length (columns_text 0 (columns_from true (word_columns wide word))) }
    ensures small_forward { result.forward ≤ wide }
    ensures small_backward { result.backward ≤ wide }
{
    Lengths {
        forward: text_length(word, after_marks(word)),
        backward: text_length(word, before_marks(word, wide)),
    }
}
